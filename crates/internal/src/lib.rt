// The internal form of an account, as records of statements have it: sixteen digits by value, rearranged and back, read at a place and put.
#![tactic(auto)]

ghost use Rattle.std.specs.Prelude.{◌≡◌, ◌++◌, ◌+◌, ◌≤◌, ◌<◌, length, take, drop};
ghost use Rattle.base.specs.Put.{Wrote};
ghost use Rattle.paper.specs.Numerals.{fixed};
ghost use Rattle.paper.specs.Accounts.{account};
ghost use Rattle.gpc.specs.Internal.{internal as internal_of, edited as edited_of, read_internal, spell_internal};
ghost use Rattle.internal.specs.Told.{told};

use refusal::Refusal;

// Edited digits, prefix P1 to P6 and base C1 to C10, in the internal order.
pub fn internal(d: [u8; 16]) -> [u8; 16]
    ensures { result ≡ internal_of d }
{
    [
        d[15], // C10
        d[13], // C8
        d[14], // C9
        d[11], // C6
        d[6], // C1
        d[7], // C2
        d[8], // C3
        d[9], // C4
        d[10], // C5
        d[12], // C7
        d[0], // P1
        d[1], // P2
        d[2], // P3
        d[3], // P4
        d[4], // P5
        d[5], // P6
    ]
}

// Internal digits in the edited order.
pub fn edited(d: [u8; 16]) -> [u8; 16]
    ensures { result ≡ edited_of d }
{
    [
        d[10], // from P1
        d[11], // from P2
        d[12], // from P3
        d[13], // from P4
        d[14], // from P5
        d[15], // from P6
        d[4], // from C1
        d[5], // from C2
        d[6], // from C3
        d[7], // from C4
        d[8], // from C5
        d[3], // from C6
        d[9], // from C7
        d[1], // from C8
        d[2], // from C9
        d[0], // from C10
    ]
}

// The two numbers of an account, as a field in the internal form says them.
#[derive(Clone, Copy)]
pub struct AccountParts {
    pub prefix: u64,
    pub base: u64,
}

// Sixteen bytes from `at` on, by value.
fn sixteen(s: &[u8], at: usize) -> [u8; 16]
    requires { at + 16 ≤ length s.now }
    ensures { result ≡ take 16 (drop at s.now) }
{
    let mut d = [0u8; 16];
    let end = at + 16;
    out::put::put_bytes(&mut d, 0, &s[at..end]);
    d
}

// The account in sixteen bytes.
fn account_in(d: [u8; 16]) -> Result<AccountParts, Refusal>
    ensures { told result ≡ read_internal d }
{
    let e = edited(d);
    let Ok(prefix) = numeral::read_digits(&e[0..6], 6, 6) else {
        return Err(Refusal::BadValue);
    };
    let Ok(base) = numeral::read_digits(&e[6..16], 10, 10) else {
        return Err(Refusal::BadValue);
    };
    Ok(AccountParts { prefix, base })
}

// The account in the sixteen bytes from `at` on.
pub fn read_internal(s: &[u8], at: usize) -> Result<AccountParts, Refusal>
    requires { at + 16 ≤ length s.now }
    ensures { told result ≡ read_internal (take 16 (drop at s.now)) }
{
    account_in(sixteen(s, at))
}

// The digits of prefix and base in the edited order.
fn digits_of(prefix: u64, base: u64) -> [u8; 16]
    ensures { result ≡ fixed 6 prefix ++ fixed 10 base }
{
    let mut d = [0u8; 16];
    let next = numeral::put_fixed(&mut d, 0, 6, prefix);
    numeral::put_fixed(&mut d, next, 10, base);
    d
}

// Writes the account at `at` in the internal form, and returns the next place. Who calls has tested that no digit is lost.
pub fn put_internal(out: &mut [u8], at: usize, prefix: u64, base: u64) -> usize
    requires { (at + 16 ≤ length out.old) × (prefix < 1000000) × (base < 10000000000) }
    ensures { Wrote out.old at (spell_internal (account prefix base)) out.new result }
{
    let d = internal(digits_of(prefix, base));
    out::put::put_bytes(out, at, &d)
}
