// The rules of a due date, tested in their order over the field's bytes.
ghost use Rattle.std.specs.Prelude.{◌≡◌, Bool, true, false, List, [], ◌∷◌, ℕ};
ghost use Rattle.base.specs.Pick.{pick};
ghost use Rattle.paper.specs.Read.{value, fault};
ghost use Rattle.paper.specs.Days.{real_day};
ghost use Rattle.numeral.specs.Told.{told};
ghost use Rattle.why.specs.Rule.{within, first_broken};
ghost use Rattle.why.specs.Forms.{is_long, is_day, day_spelled};
ghost use Rattle.why.specs.Fields.{due_rules, not_early, not_late, first_day, last_day};
ghost use Rattle.fault.specs.field.Ruled.{ruling};

use crate::field::{Broken, broke, not_real};
use refusal::Refusal;

// The day that is spelled, real or not; 4 where it has not its form.
fn spelled_day(f: &[u8], long: bool) -> Result<u64, Refusal>
    ensures { told result ≡ pick (is_day long f.now) (value (day_spelled long f.now)) (fault 4) }
{
    if long {
        if f.len() == 8 {
            return numeral::read_digits(f, 8, 8);
        }
        return short_day(f, long);
    }
    short_day(f, long)
}

// .. in its short form, DDMMRR
fn short_day(f: &[u8], long: bool) -> Result<u64, Refusal>
    requires { is_long long f.now ≡ false }
    ensures { told result ≡ pick (is_day long f.now) (value (day_spelled long f.now)) (fault 4) }
{
    let n = numeral::read_digits(f, 6, 6)?;
    Ok((2000 + n % 100) * 10000 + n / 100 % 100 * 100 + n / 10000)
}

// From which day on: today, or any where past days are taken.
fn first_day(early: bool, today: u64) -> u64
    ensures { result ≡ first_day early today }
{
    if early {
        return 0;
    }
    today
}

// How many days ahead at most, or any.
fn last_day(ahead: u64) -> u64
    ensures { result ≡ last_day ahead }
{
    if ahead < 36525 {
        return ahead;
    }
    0
}

// A real day, where it is judged: not past unless the sheet takes that, and not too far ahead.
fn check_term(d: u64, here: bool, early: bool, ahead: u64, today: u64) -> Result<(), Broken>
    requires today_value { real_day today ≡ true }
    requires d_value { real_day d ≡ true }
    ensures { (long : Bool) (s : List ℕ) → day_spelled long s ≡ d → result ≡ ruling (first_broken (within 11 111 (first_day early today) (last_day ahead) (not_early long here early today) ∷ within 11 112 (first_day early today) (last_day ahead) (not_late long here ahead today) ∷ []) s) }
{
    if here {
        let n = calendar::day_number(d);
        let m = calendar::day_number(today);
        if n < m {
            if early {
                return Ok(());
            }
            return Err(Broken {
                number: 11,
                cause: 111,
                least: first_day(early, today),
                most: last_day(ahead),
            });
        }
        if ahead < n - m {
            return Err(Broken {
                number: 11,
                cause: 112,
                least: first_day(early, today),
                most: last_day(ahead),
            });
        }
        return Ok(());
    }
    Ok(())
}

// DATE: a day that is spelled, real, and among the sheet's days.
pub fn check_due(
    f: &[u8],
    long: bool,
    here: bool,
    early: bool,
    ahead: u64,
    today: u64,
) -> Result<(), Broken>
    requires { real_day today ≡ true }
    ensures { result ≡ ruling (first_broken (due_rules long here early ahead today) f.now) }
{
    let Ok(d) = spelled_day(f, long) else {
        return Err(broke(4, 40));
    };
    if calendar::real_day(d) {
        return check_term(d, here, early, ahead, today);
    }
    Err(not_real())
}
