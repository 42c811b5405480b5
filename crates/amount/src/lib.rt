// Amounts in haléř: what an item's amount may be, and laws of reading amounts.
#![tactic(auto)]

pub mod at;

ghost use Rattle.std.specs.Prelude.{◌≡◌};
ghost use Rattle.paper.specs.Amounts.{amount_proper};

// An item's amount is above zero and at most `max`.
pub fn amount_proper(max: u64, v: u64) -> bool
    ensures { result ≡ amount_proper max v }
{
    if v < 1 {
        return false;
    }
    v <= max
}
