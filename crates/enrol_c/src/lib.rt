// What a C program links of `enrol`: each of its calls under the same name and contract. They are compiled by themselves: in one unit with reading,
// what both use would have two callers, and the compiler would keep it apart from reading's loops.
#![tactic(auto)]

ghost use Rattle.std.specs.Prelude.{◌≡◌};
ghost use Rattle.read.specs.Told.{told as told_read};
ghost use Rattle.register.specs.Register.{start_answer, start_after, lowest_answer, free_answer, give_answer, give_after};
ghost use Rattle.register.specs.Told.{told_answer};
ghost use Rattle.against.specs.Registered.{registered_answer, registered_rows, register_after};

use read::AboAnswer;
use register::AboRegister;

// Starts a day in a lent register: it is for that creation date, and no number is marked. A refusal leaves the bytes as they were.
#[unsafe(no_mangle)]
pub extern "C" fn abo_register_start(date: u64, register: &mut [u8]) -> AboRegister
    ensures result_value { told_answer result ≡ start_answer date register.old }
    ensures register_after { register.new ≡ start_after date register.old }
{
    enrol::abo_register_start(date, register)
}

// Asks a register for its lowest free number, 1,000 if none is free.
#[unsafe(no_mangle)]
pub extern "C" fn abo_register_lowest(register: &[u8]) -> AboRegister
    ensures { told_answer result ≡ lowest_answer register.now }
{
    enrol::abo_register_lowest(register)
}

// Asks a register how many numbers are free.
#[unsafe(no_mangle)]
pub extern "C" fn abo_register_free(register: &[u8]) -> AboRegister
    ensures { told_answer result ≡ free_answer register.now }
{
    enrol::abo_register_free(register)
}

// Gives a number back to a register: it is free again. A refusal leaves the bytes as they were.
#[unsafe(no_mangle)]
pub extern "C" fn abo_register_give_back(register: &mut [u8], number: u64) -> AboRegister
    ensures result_value { told_answer result ≡ give_answer register.old number }
    ensures register_after { register.new ≡ give_after register.old number }
{
    enrol::abo_register_give_back(register, number)
}

// Reads a file as abo_read does, on K against a register, in which an accepted file's numbers are marked. A refusal leaves rows and register as they
// were.
#[unsafe(no_mangle)]
pub extern "C" fn abo_read_registered(
    file: &[u8],
    sheet: u64,
    today: u64,
    rows: &mut [u8],
    register: &mut [u8],
) -> AboAnswer
    ensures result_value { told_read result ≡ registered_answer sheet today file.now rows.old register.old }
    ensures rows_after { rows.new ≡ registered_rows sheet today file.now rows.old register.old }
    ensures register_after { register.new ≡ register_after sheet today file.now rows.old register.old }
{
    enrol::abo_read_registered(file, sheet, today, rows, register)
}
