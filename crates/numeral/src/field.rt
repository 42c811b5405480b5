// One field of a line at its place: digits read in one pass, numbers with the field's end, and symbols that are judged.
ghost use Rattle.std.specs.Prelude.{◌≡◌, ◌+◌, ◌-◌, ◌≤◌, length, take, drop, nat_lt};
ghost use Rattle.base.specs.Pick.{pick};
ghost use Rattle.base.specs.Seek.{all};
ghost use Rattle.paper.specs.Read.{value};
ghost use Rattle.paper.specs.Bytes.{is_digit, field_of, null};
ghost use Rattle.paper.specs.Numerals.{digits};
ghost use Rattle.numeral.specs.field.At.{field_at};
ghost use Rattle.numeral.specs.field.Digits.{run, Worth};
ghost use Rattle.numeral.specs.field.Kept.{keeping, nothing};
ghost use Rattle.numeral.specs.field.Told.{told, passed};

use refusal::Refusal;

// Digits that were read: their number, and the place behind them. Where they are all of a field, that is the field's end.
#[derive(Clone, Copy)]
pub struct Run {
    pub value: u64,
    pub end: usize,
}

// Where a run of at most `most` bytes from `at` on stops in a line of n bytes.
pub fn stop_of(n: usize, at: usize, most: usize) -> usize
    requires { at ≤ n }
    ensures { result ≡ pick (nat_lt (n - at) most) n (at + most) }
{
    if n - at < most {
        return n;
    }
    at + most
}

// What the digit b stands for, and a number over 9 for any other byte: one test tells them apart.
pub fn worth(b: u8) -> u64
    ensures { Worth b result }
{
    std::num::wrapping_sub_u64(b as u64, 48)
}

// The digits from `at` on, up to `most` of them.
pub fn digit_run(s: &[u8], at: usize, most: usize) -> Run
    requires { (at ≤ length s.now) × (most ≤ 19) }
    ensures { (result.end ≡ at + length (run most (drop at s.now))) × (digits 0 most (run most (drop at s.now)) ≡ value result.value) }
{
    let stop = stop_of(s.len(), at, most);
    let mut v: u64 = 0;
    for i in at..stop {
        let d = worth(s[i]);
        if 9 < d {
            return Run { value: v, end: i };
        }
        v = v * 10 + d;
    }
    Run {
        value: v,
        end: stop,
    }
}

// Does a field end at `at`: at a space, or with the line?
pub fn ends(s: &[u8], at: usize) -> bool
    requires { at ≤ length s.now }
    ensures { result ≡ null (field_of (drop at s.now)) }
{
    if s.len() <= at {
        return true;
    }
    s[at] == 32
}

// A field of `least` to `most` digits and nothing else.
pub fn number_at(s: &[u8], at: usize, least: usize, most: usize) -> Result<Run, Refusal>
    requires { (at ≤ length s.now) × (most ≤ 19) }
    ensures { told result ≡ field_at (digits least most) s.now at }
{
    let got = digit_run(s, at, most);
    let end = got.end;
    if ends(s, end) {
        if end - at < least {
            return Err(Refusal::BadField);
        }
        return Ok(got);
    }
    Err(Refusal::BadField)
}

// Are the eight bytes at `at` digits? The loop has no early exit, so that the compiler compares all of them at once.
pub fn eight_digits(s: &[u8], at: usize) -> bool
    requires { at + 8 ≤ length s.now }
    ensures { result ≡ all is_digit (take 8 (drop at s.now)) }
{
    let mut digits = true;
    for j in 0..8 {
        if 9 < worth(s[at + j]) {
            digits = false;
        }
    }
    digits
}

// Where the digits from `at` on end, `most` of them at most, which the line has room for. Callers name a small number, so that the
// compiler unrolls the loop.
fn few_end(s: &[u8], at: usize, most: usize) -> usize
    requires { at + most ≤ length s.now }
    ensures { result ≡ at + length (run most (drop at s.now)) }
{
    for j in 0..most {
        if 9 < worth(s[at + j]) {
            return at + j;
        }
    }
    at + most
}

// Where the digits from `at` on end, ten of them at most. Eight are passed at once.
fn ten_end(s: &[u8], at: usize) -> usize
    requires { at ≤ length s.now }
    ensures { result ≡ at + length (run 10 (drop at s.now)) }
{
    if s.len() - at < 10 {
        let got = digit_run(s, at, 10);
        return got.end;
    }
    if eight_digits(s, at) {
        return few_end(s, at + 8, 2);
    }
    few_end(s, at, 7)
}

// A symbol at `at`: `least` to 10 digits. Nothing is kept of it but where it ends.
pub fn pass_symbol(s: &[u8], at: usize, least: usize) -> Result<usize, Refusal>
    requires { at ≤ length s.now }
    ensures { passed result ≡ keeping nothing (field_at (digits least 10) s.now at) }
{
    let end = ten_end(s, at);
    if ends(s, end) {
        if end - at < least {
            return Err(Refusal::BadField);
        }
        return Ok(end);
    }
    Err(Refusal::BadField)
}
