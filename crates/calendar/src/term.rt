// Where a group's due day is judged: at its own field, or for each item by its payee bank; and the banks that may be due.
ghost use Rattle.std.specs.Prelude.{◌≡◌, true, ℕ, eqb};
ghost use Rattle.paper.specs.Days.{real_day, collect_allowed};
ghost use Rattle.paper.specs.Terms.{collection, day_here, bank_due};
ghost use Rattle.calendar.specs.term.Allows.{allows};

use sheet::Sheet;

// Which payee banks the items of a group may have on its day: any, the sheet's own alone, or none.
#[derive(Clone, Copy)]
pub enum Banks {
    Any,
    Own,
    Nobody,
}

// Is an account file of this kind a collection whose days are judged for each item?
pub fn is_collection(sh: Sheet, kind: u64) -> bool
    ensures { result ≡ collection sh kind }
{
    if kind == 1502 {
        return sh.collects;
    }
    false
}

// Is the day of a group judged at its own field, in an account file of this kind?
pub fn day_here(sh: Sheet, kind: u64) -> bool
    ensures { result ≡ day_here sh kind }
{
    let collects = sh.collects;
    if collects {
        if kind == 1502 {
            return false;
        }
        return 0 < kind;
    }
    true
}

// The banks that may be collected from on a day.
fn collected(today: u64, date: u64) -> Banks
    requires { real_day today ≡ true }
    ensures { (own bank : ℕ) → allows result own bank ≡ collect_allowed (eqb bank own) today date }
{
    let last = crate::month_ahead(today);
    if crate::collect_allowed(false, today, last, date) {
        return Banks::Any;
    }
    if crate::collect_allowed(true, today, last, date) {
        return Banks::Own;
    }
    Banks::Nobody
}

// The banks that the items of a group may have, by its day and its account file's kind.
pub fn banks_due(sh: Sheet, today: u64, kind: u64, date: u64) -> Banks
    requires { real_day today ≡ true }
    ensures { (bank : ℕ) → allows result sh.bank bank ≡ bank_due sh today kind date bank }
{
    if is_collection(sh, kind) {
        return collected(today, date);
    }
    Banks::Any
}
