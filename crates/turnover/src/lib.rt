// The turnovers of a statement's movements, exact whatever the file's length, and the test of what its head says of them.
#![tactic(auto)]

pub mod signed;

ghost use Rattle.std.specs.Prelude.{◌≡◌, ℕ, ◌≤◌, List, [], ◌∷◌, ◌≢◌};
ghost use Rattle.paper.specs.Batch.{most14};
ghost use Rattle.gpc.specs.Signed.{is_difference, above, below};
ghost use Rattle.gpc.specs.Turnovers.{Moved, moved, most12, is_debit, is_credit};
ghost use Rattle.turnover.specs.signed.Told.{said};
ghost use Rattle.turnover.specs.Counts.{Stands, Room, Raised, Lowered, Moves, Counts, Roomy};

use crate::signed::Signed;

// A number that may fall below nothing: (high - 2^63) * 10^14 + low. What a turnover's field can hold is in low.
#[derive(Clone, Copy, PartialEq, Eq)]
pub struct Turn {
    pub high: u64,
    pub low: u64,
}

impl Turn {
    // Nothing.
    pub fn none() -> Turn
        ensures { Stands result 0 0 }
    {
        Turn {
            high: 9223372036854775808,
            low: 0,
        }
    }

    // An amount more.
    pub fn up(self, a: u64) -> Turn
        requires { Room self × (a ≤ most14) }
        ensures { Raised self a result }
    {
        let sum = self.low + a;
        if sum < 100000000000000 {
            return Turn {
                high: self.high,
                low: sum,
            };
        }
        Turn {
            high: self.high + 1,
            low: sum - 100000000000000,
        }
    }

    // An amount less.
    pub fn down(self, a: u64) -> Turn
        requires { Room self × (a ≤ most14) }
        ensures { Lowered self a result }
    {
        if a <= self.low {
            return Turn {
                high: self.high,
                low: self.low - a,
            };
        }
        Turn {
            high: self.high - 1,
            low: self.low + 100000000000000 - a,
        }
    }

    // With a movement besides: its amount more if it has the code `plus`, less if it has the code `less`.
    fn moved(self, plus: u64, less: u64, code: u64, amount: u64) -> Turn
        requires { Room self × (amount ≤ most14) × (plus ≢ less) }
        ensures { Moves plus less (moved code amount) self result }
    {
        if code == plus {
            return self.up(amount);
        }
        if code == less {
            return self.down(amount);
        }
        self
    }

    // What a field says.
    fn of(x: Signed) -> Turn
        requires { x.size ≤ most14 }
        ensures { Stands result (above (said x)) (below (said x)) }
    {
        let none = Turn::none();
        if x.minus {
            return none.down(x.size);
        }
        none.up(x.size)
    }

    // Is it what a field says? A number has one `high` and one `low`, so minus zero needs no case of its own.
    pub fn is(self, x: Signed) -> bool
        requires { x.size ≤ most14 }
        ensures { (u d : ℕ) → Stands self u d → result ≡ is_difference u d (said x) }
    {
        self == Turn::of(x)
    }
}

// Both turnovers of a statement.
#[derive(Clone, Copy)]
pub struct Turns {
    pub debit: Turn,
    pub credit: Turn,
}

impl Turns {
    // Of no movement.
    pub fn none() -> Turns
        ensures { Counts result [] }
    {
        let debit = Turn::none();
        let credit = Turn::none();
        Turns { debit, credit }
    }

    // With a movement besides.
    pub fn with(self, code: u64, amount: u64) -> Turns
        requires { Roomy self × (amount ≤ most12) }
        ensures { (ms : List Moved) → Counts self ms → Counts result (moved code amount ∷ ms) }
    {
        let d = self.debit;
        let c = self.credit;
        let debit = d.moved(1, 4, code, amount);
        let credit = c.moved(2, 5, code, amount);
        Turns { debit, credit }
    }

    // Is this the debit turnover?
    pub fn debit_is(self, x: Signed) -> bool
        requires { x.size ≤ most14 }
        ensures { (ms : List Moved) → Counts self ms → result ≡ is_debit ms (said x) }
    {
        let sum = self.debit;
        sum.is(x)
    }

    // Is this the credit turnover?
    pub fn credit_is(self, x: Signed) -> bool
        requires { x.size ≤ most14 }
        ensures { (ms : List Moved) → Counts self ms → result ≡ is_credit ms (said x) }
    {
        let sum = self.credit;
        sum.is(x)
    }
}
