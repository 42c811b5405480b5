// Due dates in a line: read at their place with the field's end, and taken where the line was judged before.
ghost use Rattle.std.specs.Prelude.{◌≡◌, true, ◌+◌, ◌≤◌, length, get_or, drop};
ghost use Rattle.base.specs.Pick.{pick};
ghost use Rattle.paper.specs.Read.{value, fault};
ghost use Rattle.paper.specs.Days.{real_day, short_day, long_day, due_allowed, read_due};
ghost use Rattle.paper.specs.ItemLine.{is_value};
ghost use Rattle.numeral.specs.field.At.{ending, field_at};
ghost use Rattle.numeral.specs.field.Told.{told};
ghost use Rattle.calendar.specs.at.Spelled.{Two, Spelled};

use numeral::field::Run;
use refusal::Refusal;

// The number of the two digits at `at`, 100 where one of the bytes is no digit.
fn two_digits(s: &[u8], at: usize) -> u64
    requires { at + 2 ≤ length s.now }
    ensures { Two (get_or s.now at 0) (get_or s.now (at + 1) 0) result }
{
    let a = numeral::field::worth(s[at]);
    if 9 < a {
        return 100;
    }
    let b = numeral::field::worth(s[at + 1]);
    if 9 < b {
        return 100;
    }
    a * 10 + b
}

// The day that the line's last six bytes, from `at` on, spell as DDMMRR, 0 where one of them is no digit.
fn last_day(s: &[u8], at: usize) -> u64
    requires { length s.now ≡ at + 6 }
    ensures { Spelled (drop at s.now) result }
{
    let day = two_digits(s, at);
    if 99 < day {
        return 0;
    }
    let month = two_digits(s, at + 2);
    if 99 < month {
        return 0;
    }
    let year = two_digits(s, at + 4);
    if 99 < year {
        return 0;
    }
    20000000 + year * 10000 + month * 100 + day
}

// The real day d as a due date, 11 where no group may be due on it.
fn if_allowed(
    d: u64,
    here: bool,
    early: bool,
    ahead: u64,
    today: u64,
    end: usize,
) -> Result<Run, Refusal>
    requires today_value { real_day today ≡ true }
    requires d_value { real_day d ≡ true }
    ensures { told result ≡ ending end (pick (due_allowed here early ahead today d) (value d) (fault 11)) }
{
    if crate::due_allowed(here, early, ahead, today, d) {
        return Ok(Run { value: d, end });
    }
    Err(Refusal::BadDay)
}

// The day d as a due date, 11 where it is not real either.
fn if_due(
    d: u64,
    here: bool,
    early: bool,
    ahead: u64,
    today: u64,
    end: usize,
) -> Result<Run, Refusal>
    requires { real_day today ≡ true }
    ensures { told result ≡ ending end (pick (real_day d) (pick (due_allowed here early ahead today d) (value d) (fault 11)) (fault 11)) }
{
    if crate::real_day(d) {
        return if_allowed(d, here, early, ahead, today, end);
    }
    Err(Refusal::BadDay)
}

// A due date at `at`, by the bytes of the whole field.
fn whole_due(
    s: &[u8],
    at: usize,
    long: bool,
    here: bool,
    early: bool,
    ahead: u64,
    today: u64,
) -> Result<Run, Refusal>
    requires at_in_bounds { at ≤ length s.now }
    requires today_value { real_day today ≡ true }
    ensures { told result ≡ field_at (read_due long here early ahead today) s.now at }
{
    let end = scan::line::field_end(s, at);
    let d = crate::read_day(&s[at..end], long)?;
    if_allowed(d, here, early, ahead, today, end)
}

// A due date at `at`: a day on which a group may be due, as far as that is judged here. Nearly all are DDMMRR and end the line; any other field is left to the reader
// of whole fields.
pub fn due_at(
    s: &[u8],
    at: usize,
    long: bool,
    here: bool,
    early: bool,
    ahead: u64,
    today: u64,
) -> Result<Run, Refusal>
    requires at_in_bounds { at ≤ length s.now }
    requires today_value { real_day today ≡ true }
    ensures { told result ≡ field_at (read_due long here early ahead today) s.now at }
{
    let end = s.len();
    if end - at == 6 {
        let d = last_day(s, at);
        if 0 < d {
            return if_due(d, here, early, ahead, today, end);
        }
    }
    whole_due(s, at, long, here, early, ahead, today)
}

// ---- taken

// DDMMRR, from `at` to the line's end.
pub fn short_day(s: &[u8], at: usize) -> u64
    requires { is_value (short_day (drop at s.now)) ≡ true }
    ensures { value result ≡ short_day (drop at s.now) }
{
    let day = numeral::placed::two(s, at);
    let month = numeral::placed::two(s, at + 2);
    let year = numeral::placed::two(s, at + 4);
    (2000 + year) * 10000 + month * 100 + day
}

// RRRRMMDD, from `at` to the line's end.
pub fn long_day(s: &[u8], at: usize) -> u64
    requires { is_value (long_day (drop at s.now)) ≡ true }
    ensures { value result ≡ long_day (drop at s.now) }
{
    numeral::placed::four(s, at) * 10000 + numeral::placed::four(s, at + 4)
}
