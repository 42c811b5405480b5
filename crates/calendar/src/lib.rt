// Days: which are real, their numbers, how they are read and written, which days a payment may be due on.
#![tactic(auto)]

pub mod at;
pub mod term;

ghost use Rattle.std.specs.Prelude.{◌≡◌, true, ◌+◌, ◌≤◌, length};
ghost use Rattle.base.specs.Put.{Wrote};
ghost use Rattle.numeral.specs.Told.{told};
ghost use Rattle.paper.specs.Days.{real_day, day_number, month_days, real, short_day, long_day, read_day, spell_day, due_allowed, due_warnings, month_ahead, collect_allowed};

use refusal::Refusal;

// how many days each month has in a year with no 29 February
const MONTHS: [u64; 12] = [31, 28, 31, 30, 31, 30, 31, 31, 30, 31, 30, 31];

// how many days of such a year lie before each month
const BEFORE: [u64; 12] = [0, 31, 59, 90, 120, 151, 181, 212, 243, 273, 304, 334];

// Is the number YYYYMMDD a real day of 2000 to 2099? In these years every fourth has 29 February.
pub fn real_day(d: u64) -> bool
    ensures { result ≡ real_day d }
{
    let y = d / 10000;
    if y < 2000 {
        return false;
    }
    if 2099 < y {
        return false;
    }
    let m = d / 100 % 100;
    if m < 1 {
        return false;
    }
    if 12 < m {
        return false;
    }
    let n = d % 100;
    if n < 1 {
        return false;
    }
    n <= month_days(y, m)
}

// How many days the month m, 1 to 12, of a year of 2000 to 2099 has.
fn month_days(y: u64, m: u64) -> u64
    requires { (2000 ≤ y) × (y ≤ 2099) × (1 ≤ m) × (m ≤ 12) }
    ensures { result ≡ month_days y m }
{
    if m == 2 {
        if y % 4 == 0 {
            return 29;
        }
        return 28;
    }
    let i = (m - 1) as usize;
    MONTHS[i]
}

// How many days lie between 1 January 2000 and the day d.
pub fn day_number(d: u64) -> u64
    requires { real_day d ≡ true }
    ensures { result ≡ day_number d }
{
    // of the n years from 2000 on, the first and then every fourth have a day more
    let n = d / 10000 - 2000;
    let m = d / 100 % 100;
    let i = (m - 1) as usize;
    let days = 365 * n + (n + 3) / 4 + BEFORE[i] + (d % 100 - 1);
    if m <= 2 {
        return days;
    }
    if n % 4 == 0 {
        return days + 1;
    }
    days
}

// May a group be due on the day d, as far as that is judged at its own field (`here`)?
pub fn due_allowed(here: bool, early: bool, ahead: u64, today: u64, d: u64) -> bool
    requires today_value { real_day today ≡ true }
    requires d_value { real_day d ≡ true }
    ensures { result ≡ due_allowed here early ahead today d }
{
    if here {
        // later days have greater numbers, so a past day is known without its number
        if d < today {
            return early;
        }
        // and by no more than the days themselves, so one that is soon is known so too
        if d - today <= ahead {
            return true;
        }
        return day_number(d) - day_number(today) <= ahead;
    }
    true
}

// How many warnings the due day d brings there.
pub fn due_warnings(here: bool, warns: bool, today: u64, d: u64) -> u64
    requires today_value { real_day today ≡ true }
    requires d_value { real_day d ≡ true }
    ensures value { result ≡ due_warnings here warns today d }
    ensures upper_bound { result ≤ 1 }
{
    if today <= d {
        return 0;
    }
    if warns {
        if here {
            return 1;
        }
    }
    0
}

// The same day of the next month, or that month's last day if it is shorter.
pub fn month_ahead(d: u64) -> u64
    requires { real_day d ≡ true }
    ensures { result ≡ month_ahead d }
{
    let y = d / 10000;
    let m = d / 100 % 100;
    let n = d % 100;
    if m == 12 {
        // January is as long as December
        return (y + 1) * 10000 + 100 + n;
    }
    let days = month_days(y, m + 1);
    let month = y * 10000 + (m + 1) * 100;
    if days < n {
        return month + days;
    }
    month + n
}

// May a collection be due on the day d, from the sheet's own bank or from any other? The last day for it is one month ahead of today.
pub fn collect_allowed(own: bool, today: u64, last: u64, d: u64) -> bool
    requires { last ≡ month_ahead today }
    ensures { result ≡ collect_allowed own today d }
{
    if own {
        if d < today {
            return false;
        }
        return d <= last;
    }
    if d <= today {
        return false;
    }
    d <= last
}

// A day, if it is real.
fn only_real(d: u64) -> Result<u64, Refusal>
    ensures { told result ≡ real d }
{
    if real_day(d) {
        return Ok(d);
    }
    Err(Refusal::BadDay)
}

// DDMMRR
fn read_short(f: &[u8]) -> Result<u64, Refusal>
    ensures { told result ≡ short_day f.now }
{
    let n = numeral::read_digits(f, 6, 6)?;
    only_real((2000 + n % 100) * 10000 + n / 100 % 100 * 100 + n / 10000)
}

// RRRRMMDD
fn read_long(f: &[u8]) -> Result<u64, Refusal>
    ensures { told result ≡ long_day f.now }
{
    let n = numeral::read_digits(f, 8, 8)?;
    only_real(n)
}

// A date: DDMMRR, or RRRRMMDD where that is taken too (`long`).
pub fn read_day(f: &[u8], long: bool) -> Result<u64, Refusal>
    ensures { told result ≡ read_day long f.now }
{
    if long {
        if f.len() == 8 {
            return read_long(f);
        }
        return read_short(f);
    }
    read_short(f)
}

// Writes the day d at `at` as DDMMRR, and returns the next place.
pub fn put_day(out: &mut [u8], at: usize, d: u64) -> usize
    requires { at + 6 ≤ length out.old }
    ensures { Wrote out.old at (spell_day d) out.new result }
{
    let n = d % 100 * 10000 + d / 100 % 100 * 100 + d / 10000 % 100;
    numeral::put_fixed(out, at, 6, n)
}
