// The field of an item that holds payee bank, constant symbol and priority, in a line: judged at its place, and taken
// where the line was judged before.
ghost use Rattle.std.specs.Prelude.{◌≡◌, true, ℕ, ◌+◌, ◌/◌, ◌%◌, ◌≤◌, length, take, drop};
ghost use Rattle.base.specs.Seek.{all, seek};
ghost use Rattle.paper.specs.Read.{value};
ghost use Rattle.paper.specs.Bytes.{space, field_of};
ghost use Rattle.paper.specs.Numerals.{digits};
ghost use Rattle.paper.specs.ItemLine.{is_value};
ghost use Rattle.paper.specs.BankField as paper;
ghost use Rattle.paper.specs.BankField.{read_bank, read_due_bank};
ghost use Rattle.calendar.specs.term.Allows.{allows};
ghost use Rattle.numeral.specs.Zero.{is_zero};
ghost use Rattle.numeral.specs.field.At.{ending, field_at};
ghost use Rattle.numeral.specs.field.Kept.{keeping};
ghost use Rattle.bank.specs.at.Plain.{PlainBank};
ghost use Rattle.bank.specs.at.Told.{told, told_bank};
ghost use Rattle.bank.specs.at.Warned.{warnings_of, warned_by};

use calendar::term::Banks;
use refusal::Refusal;

// What judging keeps of the field: how many warnings it gives, and where it ends.
#[derive(Clone, Copy)]
pub struct Warned {
    pub warnings: u64,
    pub end: usize,
}

// Are the four bytes at `at` zeros?
fn four_zeros(s: &[u8], at: usize) -> bool
    requires { at + 4 ≤ length s.now }
    ensures { result ≡ all is_zero (take 4 (drop at s.now)) }
{
    if s[at] != 48 {
        return false;
    }
    if s[at + 1] != 48 {
        return false;
    }
    if s[at + 2] != 48 {
        return false;
    }
    s[at + 3] == 48
}

// Is the field at `at` eight digits, and the bank in it not 0000? Nearly all are.
fn plain_bank(s: &[u8], at: usize) -> bool
    requires { at ≤ length s.now }
    ensures { result ≡ true → PlainBank s.now at }
{
    if s.len() - at < 8 {
        return false;
    }
    if four_zeros(s, at) {
        return false;
    }
    if numeral::field::ends(s, at + 8) {
        return numeral::field::eight_digits(s, at);
    }
    false
}

// The ninth digit d decides on the warnings: where the field holds a priority (`ranked`) 1 and 2 give one; elsewhere the digit is 0.
fn by_ninth(ranked: bool, d: u64, end: usize) -> Result<Warned, Refusal>
    ensures { told result ≡ ending end (warned_by ranked d) }
{
    if d < 1 {
        return Ok(Warned { warnings: 0, end });
    }
    if ranked {
        if d < 3 {
            return Ok(Warned { warnings: 1, end });
        }
        return Ok(Warned { warnings: 0, end });
    }
    Err(Refusal::BadDigit)
}

// Any field at `at`: eight to ten digits that end in four of payee bank and four of constant symbol.
fn any_bank(s: &[u8], at: usize, ranked: bool) -> Result<Warned, Refusal>
    requires { at ≤ length s.now }
    ensures { told result ≡ keeping warnings_of (field_at (read_bank ranked) s.now at) }
{
    let digits = numeral::field::number_at(s, at, 8, 10)?;
    let n = digits.value;
    if n / 10000 % 10000 == 0 {
        return Err(Refusal::BadPayeeBank);
    }
    if 999999999 < n {
        return Err(Refusal::BadDigit);
    }
    by_ninth(ranked, n / 100000000, digits.end)
}

// May the bank of the field at `at`, which was judged, be due?
fn bank_due(s: &[u8], at: usize, ranked: bool, own: u64, banks: Banks) -> bool
    requires at_in_bounds { at ≤ length s.now }
    requires s_value { is_value (read_bank ranked (field_of (drop at s.now))) ≡ true }
    ensures { (b : paper.Bank) → read_bank ranked (field_of (drop at s.now)) ≡ value b → result ≡ allows banks own b.bank }
{
    match banks {
        Banks::Any => true,
        Banks::Own => {
            let bank = take_bank(s, at, ranked);
            bank.bank == own
        }
        Banks::Nobody => false,
    }
}

// Any field at `at`, whose bank is one of those that may be due.
fn any_due_bank(
    s: &[u8],
    at: usize,
    ranked: bool,
    own: u64,
    banks: Banks,
) -> Result<Warned, Refusal>
    requires { at ≤ length s.now }
    ensures { told result ≡ keeping warnings_of (field_at (read_due_bank ranked (allows banks own)) s.now at) }
{
    let field = any_bank(s, at, ranked)?;
    if bank_due(s, at, ranked, own, banks) {
        return Ok(field);
    }
    Err(Refusal::BadDay)
}

// The field at `at`, whatever its bank: how many warnings it gives and where it ends, or the refusal's number.
fn plain_or_any(s: &[u8], at: usize, ranked: bool) -> Result<Warned, Refusal>
    requires { at ≤ length s.now }
    ensures { told result ≡ keeping warnings_of (field_at (read_bank ranked) s.now at) }
{
    if plain_bank(s, at) {
        let end = at + 8;
        return Ok(Warned { warnings: 0, end });
    }
    any_bank(s, at, ranked)
}

// The field at `at`, whose bank is one of those that may be due. It is looked at only where not every bank may be.
pub fn judge_bank(
    s: &[u8],
    at: usize,
    ranked: bool,
    own: u64,
    banks: Banks,
) -> Result<Warned, Refusal>
    requires { at ≤ length s.now }
    ensures { told result ≡ keeping warnings_of (field_at (read_due_bank ranked (allows banks own)) s.now at) }
{
    match banks {
        Banks::Any => plain_or_any(s, at, ranked),
        Banks::Own => any_due_bank(s, at, ranked, own, Banks::Own),
        Banks::Nobody => any_due_bank(s, at, ranked, own, Banks::Nobody),
    }
}

// ---- taken

// Payee bank, constant symbol and priority, how many warnings their field gives, and where it ends.
#[derive(Clone, Copy)]
pub struct Bank {
    pub bank: u64,
    pub constant: u64,
    pub priority: u64,
    pub warnings: u64,
    pub end: usize,
}

// Where the last eight digits begin of a field that has eight to ten: it ends at a space, or with the line.
fn bank_from(s: &[u8], at: usize) -> usize
    requires at_in_bounds { at ≤ length s.now }
    requires s_value { is_value (digits 8 10 (field_of (drop at s.now))) ≡ true }
    ensures { result + 8 ≡ at + seek space (drop at s.now) }
{
    if s.len() <= at + 8 {
        return at;
    }
    if s[at + 8] <= 32 {
        return at;
    }
    if s.len() <= at + 9 {
        return at + 1;
    }
    if s[at + 9] <= 32 {
        return at + 1;
    }
    at + 2
}

// The ninth digit of its number, from the right: the one before `from`, and 0 where the field begins there.
fn ninth_digit(s: &[u8], at: usize, from: usize) -> u64
    requires at_in_bounds { at ≤ length s.now }
    requires s_value { is_value (digits 8 10 (field_of (drop at s.now))) ≡ true }
    requires from_value { from + 8 ≡ at + seek space (drop at s.now) }
    ensures { (n : ℕ) → digits 8 10 (field_of (drop at s.now)) ≡ value n → result ≡ n / 100000000 % 10 }
{
    if at < from {
        return numeral::placed::digit(s, from - 1);
    }
    0
}

// The field at `at` that holds payee bank and constant symbol in its last eight digits. Where it holds no priority (`ranked`), its ninth
// digit is 0, and the usual priority follows as well.
pub fn take_bank(s: &[u8], at: usize, ranked: bool) -> Bank
    requires at_in_bounds { at ≤ length s.now }
    requires s_value { is_value (read_bank ranked (field_of (drop at s.now))) ≡ true }
    ensures { told_bank result ≡ field_at (read_bank ranked) s.now at }
{
    let from = bank_from(s, at);
    let d = ninth_digit(s, at, from);
    let bank = numeral::placed::four(s, from);
    let constant = numeral::placed::four(s, from + 4);
    let end = from + 8;
    if d < 1 {
        return Bank {
            bank,
            constant,
            priority: 5,
            warnings: 0,
            end,
        };
    }
    if d < 3 {
        return Bank {
            bank,
            constant,
            priority: 5,
            warnings: 1,
            end,
        };
    }
    Bank {
        bank,
        constant,
        priority: d,
        warnings: 0,
        end,
    }
}
