// The line that begins an account file: `1 KIND NUMBER BANK`.
#![tactic(auto)]

pub mod seen;
pub mod take;

ghost use Rattle.std.specs.Prelude.{◌≡◌, true, ◌+◌, ◌≤◌, ◌<◌, length, drop};
ghost use Rattle.refusal.specs.Numbers.{answered};
ghost use Rattle.paper.specs.Numerals.{digits};
ghost use Rattle.paper.specs.FileLine.{read_kind, read_number, read_code, read_file};
ghost use Rattle.numeral.specs.field.At.{field_at};
ghost use Rattle.numeral.specs.field.Told as number;
ghost use Rattle.numeral.specs.placed.Placed.{Placed};
ghost use Rattle.fileline.specs.Fault.{fault_in};
ghost use Rattle.fileline.specs.Ending.{code_and_end};
ghost use Rattle.fileline.specs.Told.{told};

use crate::seen::Seen;
use numeral::field::Run;
use refusal::{Flaw, Refusal, placed};
use sheet::Sheet;

// What the line says of the account file that it begins.
#[derive(Clone, Copy)]
pub struct AccountFile {
    pub kind: u64,
    pub number: u64,
}

// Are the four bytes at `at` digits?
fn four_digits(s: &[u8], at: usize) -> bool
    requires { at + 4 ≤ length s.now }
    ensures { result ≡ true → Placed 4 s.now at }
{
    if 9 < numeral::field::worth(s[at]) {
        return false;
    }
    if 9 < numeral::field::worth(s[at + 1]) {
        return false;
    }
    if 9 < numeral::field::worth(s[at + 2]) {
        return false;
    }
    if 9 < numeral::field::worth(s[at + 3]) {
        return false;
    }
    true
}

// A field of four digits at `at`. Nearly all are; any other is left to the reader of digits.
fn four_at(s: &[u8], at: usize) -> Result<Run, Refusal>
    requires { at ≤ length s.now }
    ensures { number.told result ≡ field_at (digits 4 4) s.now at }
{
    if 4 <= s.len() - at {
        let end = at + 4;
        if numeral::field::ends(s, end) {
            if four_digits(s, at) {
                let value = numeral::placed::four(s, at);
                return Ok(Run { value, end });
            }
        }
    }
    numeral::field::number_at(s, at, 4, 4)
}

// KIND: four digits, one of the sheet's kinds.
fn kind_at(s: &[u8], at: usize, sh: Sheet) -> Result<Run, Refusal>
    requires { at ≤ length s.now }
    ensures { number.told result ≡ field_at (read_kind sh) s.now at }
{
    let kind = four_at(s, at)?;
    if sh.kind_allowed(kind.value) {
        return Ok(kind);
    }
    Err(Refusal::BadKind)
}

// BANK: four digits, the sheet's bank.
fn code_at(s: &[u8], at: usize, sh: Sheet) -> Result<Run, Refusal>
    requires { at ≤ length s.now }
    ensures { number.told result ≡ field_at (read_code sh) s.now at }
{
    let code = four_at(s, at)?;
    if sh.bank_allowed(code.value) {
        return Ok(code);
    }
    Err(Refusal::BadPayerBank)
}

// The refusal that the number n gets, if any: on K (`interval`) its first three digits lie in the interval and came in no earlier number.
pub fn number_fault(interval: bool, from: u64, to: u64, seen: Seen, n: u64) -> Option<Refusal>
    requires { n < 1000000 }
    ensures { answered result ≡ fault_in interval from to seen.words n }
{
    if interval {
        let first = n / 1000;
        if first < from {
            return Some(Refusal::BadNumber);
        }
        if to < first {
            return Some(Refusal::BadNumber);
        }
        if seen.has(first) {
            return Some(Refusal::BadNumber);
        }
    }
    None
}

// NUMBER: six digits, a number that is allowed.
fn serial_at(
    s: &[u8],
    at: usize,
    interval: bool,
    from: u64,
    to: u64,
    seen: Seen,
) -> Result<Run, Refusal>
    requires { at ≤ length s.now }
    ensures { number.told result ≡ field_at (read_number (fault_in interval from to seen.words)) s.now at }
{
    let serial = numeral::field::number_at(s, at, 6, 6)?;
    match number_fault(interval, from, to, seen, serial.value) {
        None => Ok(serial),
        Some(refusal) => Err(refusal),
    }
}

// BANK at `at` and the line's end, behind KIND and NUMBER.
fn code_and_end(s: &[u8], at: usize, sh: Sheet, kind: u64, number: u64) -> Result<AccountFile, Flaw>
    requires { at ≤ length s.now }
    ensures { told result ≡ code_and_end sh kind number at (drop at s.now) }
{
    let code = placed(code_at(s, at, sh), at)?;
    if code.end < s.len() {
        return Err(Flaw(Refusal::BadField, code.end));
    }
    Ok(AccountFile { kind, number })
}

// The whole line, which is known to begin with `1 `. The interval goes from `from` to `to`, and `seen` holds what came before.
pub fn file_line(s: &[u8], sh: Sheet, from: u64, to: u64, seen: Seen) -> Result<AccountFile, Flaw>
    requires { 2 ≤ length s.now }
    ensures { told result ≡ read_file sh (fault_in sh.interval from to seen.words) s.now }
{
    let kind = placed(kind_at(s, 2, sh), 2)?;
    if s.len() <= kind.end {
        return Err(Flaw(Refusal::BadField, kind.end));
    }
    let at = kind.end + 1;
    let serial = placed(serial_at(s, at, sh.interval, from, to, seen), at)?;
    if s.len() <= serial.end {
        return Err(Flaw(Refusal::BadField, serial.end));
    }
    code_and_end(s, serial.end + 1, sh, kind.value, serial.value)
}
