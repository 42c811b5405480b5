// The field of an item that holds payee bank, constant symbol and priority: what its values may be, and writing it.
#![tactic(auto)]

pub mod at;

ghost use Rattle.std.specs.Prelude.{◌≡◌, [], ℕ, ◌+◌, ◌≤◌, eqb, length};
ghost use Rattle.base.specs.Pick.{pick};
ghost use Rattle.base.specs.Put.{Wrote};
ghost use Rattle.paper.specs.Numerals.{fixed};
ghost use Rattle.paper.specs.BankField.{bank_proper, priority_proper, priority_carried, spell_bank};

// A payee bank is 1 to 9999.
pub fn bank_proper(b: u64) -> bool
    ensures { result ≡ bank_proper b }
{
    if b < 1 {
        return false;
    }
    b <= 9999
}

// A priority is 3 to 9.
pub fn priority_proper(p: u64) -> bool
    ensures { result ≡ priority_proper p }
{
    if p < 3 {
        return false;
    }
    p <= 9
}

// Where the field holds the priority (`ranked`), it carries every one; elsewhere 5 alone.
pub fn priority_carried(ranked: bool, p: u64) -> bool
    ensures { result ≡ priority_carried ranked p }
{
    if ranked {
        return true;
    }
    p == 5
}

// How many bytes the field takes: two more where the priority is spelled.
pub fn bank_len(priority: u64) -> usize
    ensures { (b c : ℕ) → result ≡ length (spell_bank b c priority) }
{
    if priority == 5 {
        return 8;
    }
    10
}

// Writes `0p` where the priority p is spelled.
fn put_priority(out: &mut [u8], at: usize, p: u64) -> usize
    requires { (at + length (pick (eqb p 5) [] (fixed 2 p)) ≤ length out.old) × (p ≤ 9) }
    ensures { Wrote out.old at (pick (eqb p 5) [] (fixed 2 p)) out.new result }
{
    if p == 5 {
        return at;
    }
    let e = out::put::put_byte(out, at, 48);
    out::put::put_byte(out, e, 48 + p as u8)
}

// Writes the field at `at`, and returns the place behind it.
pub fn put_bank(out: &mut [u8], at: usize, bank: u64, constant: u64, priority: u64) -> usize
    requires { (at + length (spell_bank bank constant priority) ≤ length out.old) × (bank ≤ 9999) × (constant ≤ 9999) × (priority ≤ 9) }
    ensures { Wrote out.old at (spell_bank bank constant priority) out.new result }
{
    let e = put_priority(out, at, priority);
    let f = numeral::put_four(out, e, bank);
    numeral::put_four(out, f, constant)
}
