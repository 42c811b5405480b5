// Reading a whole file into lent rows against a lent register of the day's numbers. The file is judged once, with the register's numbers as seen
// before; what judging has seen by the end of an accepted file is the register afterwards.
#![tactic(auto)]

ghost use Rattle.std.specs.Prelude.{◌≡◌, true, ◌-◌, ◌/◌, length, take, drop, Some, Err};
ghost use Rattle.sheet.proofs.Laws.{Sane};
ghost use Rattle.paper.specs.Days.{real_day};
ghost use Rattle.paper.specs.Entries.{head_line, kind_of};
ghost use Rattle.paper.specs.Rows.{row_size};
ghost use Rattle.scan.specs.line.Cutting.{Cuts};
ghost use Rattle.tally.specs.Short.{tally};
ghost use Rattle.judge.specs.file.Answer.{told as told_judged};
ghost use Rattle.read.specs.Told.{told as told_read};
ghost use Rattle.register.specs.Register.{register_of};
ghost use Rattle.register.specs.Told.{told as told_register, Sound};
ghost use Rattle.against.specs.Against.{day_of, is_other};
ghost use Rattle.against.specs.Turned.{turned};
ghost use Rattle.against.specs.Registered.{registered_with, registered_answer, registered_rows_with, registered_rows, register_with, register_after};
ghost use Rattle.registered.specs.Judged.{Judged};

use judge::file::Ended;
use judge::refused::Refused;
use read::AboAnswer;
use refusal::Refusal;
use register::Loaded;
use scan::kind::LineKind;
use scan::line::Cut;
use sheet::Sheet;

// ---- the file judged

// A file that does not begin with a first line.
const OUT_OF_TURN: Refused = Refused {
    refusal: Refusal::BadOrder,
    line: 1,
    byte: 0,
};

// Has a first line a date that can be read and that the register is not for?
fn other_day(s: &[u8], reg: Loaded) -> bool
    ensures { result ≡ is_other (told_register reg) (day_of s.now) }
{
    if s.len() < 10 {
        return false;
    }
    match calendar::read_day(&s[4..10], false) {
        Ok(date) => !reg.laid || date != reg.date,
        Err(_) => false,
    }
}

// What a file is refused for with the register's numbers seen before. A bad number is the file's own, if the file gets it without them too; else
// the number was used.
fn told_apart(f: &[u8], sh: Sheet, today: u64, refused: Refused) -> Refused
    requires { Sane sh × (real_day today ≡ true) }
    ensures { told_judged f.now (Err result) ≡ turned (tally sh today f.now) (told_judged f.now (Err refused)) }
{
    if refused.refusal != Refusal::BadNumber {
        return refused;
    }
    match judge::file::judge_file(f, sh, today) {
        Err(own) if refused == own => refused,
        _ => Refused {
            refusal: Refusal::NumberUsed,
            line: refused.line,
            byte: refused.byte,
        },
    }
}

// The first line, which is known as one, and everything behind it.
fn from_first(f: &[u8], sh: Sheet, today: u64, cut: Cut, reg: Loaded) -> Result<Ended, Refused>
    requires sane { Sane sh × (real_day today ≡ true) × (sh.interval ≡ true) }
    requires cuts { Cuts f.now 0 cut }
    requires f_value { kind_of (take (cut.stop - 0) (drop 0 f.now)) ≡ head_line }
    requires sound { Sound reg }
    ensures { Judged (told_register reg) sh today f.now result }
{
    let stop = cut.stop;
    if other_day(&f[0..stop], reg) {
        return Err(Refused {
            refusal: Refusal::BadRegister,
            line: 1,
            byte: 4,
        });
    }
    match judge::file::from_first(f, sh, today, cut, reg.set) {
        Ok(ended) => Ok(ended),
        Err(refused) => Err(told_apart(f, sh, today, refused)),
    }
}

// The answer of a whole file on a sheet that looks at the register, with the numbers seen by its end.
fn judge_file(f: &[u8], sh: Sheet, today: u64, reg: Loaded) -> Result<Ended, Refused>
    requires sane { Sane sh × (real_day today ≡ true) × (sh.interval ≡ true) }
    requires sound { Sound reg }
    ensures { Judged (told_register reg) sh today f.now result }
{
    if f.len() == 0 {
        return Err(OUT_OF_TURN);
    }
    let cut = scan::line::next_line(f, 0);
    let stop = cut.stop;
    match scan::kind::kind_of(&f[0..stop]) {
        LineKind::Head => from_first(f, sh, today, cut, reg),
        _ => Err(OUT_OF_TURN),
    }
}

// ---- the call

// The answer on a sheet that looks at the register, on a real day. Numbers are marked once the rows have had room.
fn read_numbered(
    file: &[u8],
    sh: Sheet,
    today: u64,
    rows: &mut [u8],
    register: &mut [u8],
) -> AboAnswer
    requires { Sane sh × (real_day today ≡ true) × (sh.interval ≡ true) }
    ensures result_value { told_read result ≡ registered_with (Some sh) today file.now (length rows.old / row_size) (register_of register.old) }
    ensures rows_after { rows.new ≡ registered_rows_with (Some sh) today file.now rows.old (register_of register.old) }
    ensures register_after { register.new ≡ register_with (Some sh) today file.now (length rows.old / row_size) register.old }
{
    let reg = register::load(register);
    match judge_file(file, sh, today, reg) {
        Ok(ended) => {
            let answer = read::accept(file, sh, today, ended.accepted, rows);
            if answer.number == 0 {
                register::store(register, reg.date, ended.seen);
            }
            answer
        }
        Err(refused) => read::refusal(refused),
    }
}

// The answer on the sheet sh. Where it does not look at the register, or the day is not real, reading's own.
fn read_on(file: &[u8], sh: Sheet, today: u64, rows: &mut [u8], register: &mut [u8]) -> AboAnswer
    requires { Sane sh }
    ensures result_value { told_read result ≡ registered_with (Some sh) today file.now (length rows.old / row_size) (register_of register.old) }
    ensures rows_after { rows.new ≡ registered_rows_with (Some sh) today file.now rows.old (register_of register.old) }
    ensures register_after { register.new ≡ register_with (Some sh) today file.now (length rows.old / row_size) register.old }
{
    if sh.interval {
        if calendar::real_day(today) {
            return read_numbered(file, sh, today, rows, register);
        }
        return read::refusal(Refused {
            refusal: Refusal::BadToday,
            line: 0,
            byte: 0,
        });
    }
    read::read_on(file, sh, today, rows)
}

// The whole answer of reading a file on the sheet of that number against a register, the rows, and the register.
pub fn read_registered(
    file: &[u8],
    sheet: u64,
    today: u64,
    rows: &mut [u8],
    register: &mut [u8],
) -> AboAnswer
    ensures result_value { told_read result ≡ registered_answer sheet today file.now rows.old register.old }
    ensures rows_after { rows.new ≡ registered_rows sheet today file.now rows.old register.old }
    ensures register_after { register.new ≡ register_after sheet today file.now rows.old register.old }
{
    match sheet::sheet_of(sheet) {
        Some(sh) => read_on(file, sh, today, rows, register),
        None => read::refusal(Refused {
            refusal: Refusal::BadSheet,
            line: 0,
            byte: 0,
        }),
    }
}
