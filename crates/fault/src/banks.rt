// The rules of the bank field, tested in their order over the field's bytes.
ghost use Rattle.std.specs.Prelude.{◌≡◌, true, List, [], ◌∷◌, ℕ, ◌/◌, eqb};
ghost use Rattle.base.specs.Pick.{pick};
ghost use Rattle.paper.specs.Days.{real_day};
ghost use Rattle.why.specs.Rule.{within, first_broken};
ghost use Rattle.why.specs.Fields.{bank_of, bank_rules, own_term, other_term, last_term};
ghost use Rattle.fault.specs.field.Ruled.{ruling, broken};

use crate::field::{Broken, broke};

// A collection's day is outside its term.
fn outside(cause: u64, today: u64, most: u64) -> Broken
    ensures { result ≡ broken 11 cause today most }
{
    Broken {
        number: 11,
        cause,
        least: today,
        most,
    }
}

// The end of a collection's term: one month ahead.
fn check_last(today: u64, date: u64) -> Result<(), Broken>
    requires { real_day today ≡ true }
    ensures { (s : List ℕ) → result ≡ ruling (first_broken (within 11 114 today 1 (last_term true today date) ∷ []) s) }
{
    if calendar::month_ahead(today) < date {
        return Err(outside(114, today, 1));
    }
    Ok(())
}

// Which bank an item may be due from, where the group is a collection that is judged here.
fn check_term(bank: u64, here: bool, own: u64, today: u64, date: u64) -> Result<(), Broken>
    requires { real_day today ≡ true }
    ensures { (s : List ℕ) → bank_of s ≡ bank → result ≡ ruling (first_broken (within 11 113 today 0 (own_term here own today date) ∷ within 11 113 today 1 (other_term here own today date) ∷ within 11 114 today 1 (last_term here today date) ∷ []) s) }
{
    if here {
        if bank == own {
            if date < today {
                return Err(outside(113, today, 0));
            }
            return check_last(today, date);
        }
        if date <= today {
            return Err(outside(113, today, 1));
        }
        return check_last(today, date);
    }
    Ok(())
}

// Whether the ninth digit from the right is as it must be: 0, but on K (`ranked`) any.
fn ninth_zero(ranked: bool, n: u64) -> bool
    ensures { result ≡ pick ranked true (eqb (n / 100000000) 0) }
{
    if ranked {
        return true;
    }
    n / 100000000 == 0
}

// The bank field: eight to ten digits, a bank that is not 0000, the tenth digit 0, the ninth too but on K, and the bank's term.
pub fn check_bank(
    f: &[u8],
    ranked: bool,
    here: bool,
    own: u64,
    today: u64,
    date: u64,
) -> Result<(), Broken>
    requires { real_day today ≡ true }
    ensures { result ≡ ruling (first_broken (bank_rules ranked here own today date) f.now) }
{
    let Ok(n) = numeral::read_digits(f, 8, 10) else {
        return Err(broke(4, 40));
    };
    let bank = n / 10000 % 10000;
    if bank == 0 {
        return Err(Broken {
            number: 12,
            cause: 120,
            least: 1,
            most: 9999,
        });
    }
    if 999999999 < n {
        return Err(broke(13, 131));
    }
    if ninth_zero(ranked, n) {
        return check_term(bank, here, own, today, date);
    }
    Err(broke(13, 130))
}
