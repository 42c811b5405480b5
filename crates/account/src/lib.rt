// Accounts: the rule of their digits, zeros that stand for nobody, and their one spelling.
#![tactic(auto)]

pub mod at;

ghost use Rattle.std.specs.Prelude.{◌≡◌, false, ◌+◌, ◌*◌, ◌≤◌, ◌<◌, length};
ghost use Rattle.base.specs.Pick.{pick};
ghost use Rattle.base.specs.Put.{Wrote};
ghost use Rattle.base.specs.Seek.{all};
ghost use Rattle.paper.specs.Accounts.{account, account_ok, account_proper, is_nobody, spell_account, zeros, only_zeros};
ghost use Rattle.numeral.specs.Zero.{is_zero};
ghost use Rattle.account.specs.Doubled.{doubled, sums_ok};

// The rule's first two steps, at each digit from the left: twice what there is, plus the digit. The third, the rest by 11, is taken once,
// at the end (`sums_ok`), which comes to the same.
pub fn next_digit(sum: u64, d: u64) -> u64
    requires { sum * 2 + d < 18446744073709551616 }
    ensures { result ≡ sum * 2 + d }
{
    sum * 2 + d
}

// Two digits behind what there is, the left one first;
fn next_pair(sum: u64, n: u64) -> u64
    requires { (sum ≤ 1000000) × (n < 100) }
    ensures { (result ≡ 4 * sum + doubled 2 n) × (result ≤ 4 * sum + n) }
{
    let left = numeral::tens(n);
    let right = n - left * 10;
    next_digit(next_digit(sum, left), right)
}

// four;
fn next_four(sum: u64, n: u64) -> u64
    requires { (sum ≤ 100000) × (n < 10000) }
    ensures { (result ≡ 16 * sum + doubled 4 n) × (result ≤ 16 * sum + n) }
{
    let left = numeral::hundreds(n);
    let right = n - left * 100;
    next_pair(next_pair(sum, left), right)
}

// and eight.
fn next_eight(sum: u64, n: u64) -> u64
    requires { (sum ≤ 1000) × (n < 100000000) }
    ensures { (result ≡ 256 * sum + doubled 8 n) × (result ≤ 256 * sum + n) }
{
    let left = numeral::myriads(n);
    let right = n - left * 10000;
    next_four(next_four(sum, left), right)
}

// The last ten digits of n so. Zeros in front double nothing, so that four or eight will do where n has no more.
pub fn doubled_sum(n: u64) -> u64
    ensures { result ≡ doubled 10 n }
{
    if n < 10000 {
        return next_four(0, n);
    }
    if n < 100000000 {
        return next_eight(0, n);
    }
    let left = n / 100000000;
    let right = n - left * 100000000;
    next_eight(next_pair(0, left % 100), right)
}

// Is the rest by 11 of both sums, of a prefix and of a base, 0, and has the base two digits or more that are not zero? One digit, however
// often it is doubled, does not divide by 11. So where a base's sum does, and is not 0, there are two: they need not be counted.
pub fn sums_ok(p: u64, b: u64) -> bool
    ensures { result ≡ sums_ok p b }
{
    if p % 11 != 0 {
        return false;
    }
    if b % 11 != 0 {
        return false;
    }
    0 < b
}

// Do prefix and base keep the rule?
pub fn account_ok(prefix: u64, base: u64) -> bool
    ensures { result ≡ account_ok prefix base }
{
    let b = doubled_sum(base);
    // most prefixes are 0
    if prefix == 0 {
        return sums_ok(0, b);
    }
    let p = doubled_sum(prefix);
    sums_ok(p, b)
}

// Is it an account that a batch may hold?
pub fn account_proper(prefix: u64, base: u64) -> bool
    ensures { result ≡ account_proper (account prefix base) }
{
    if 1000000 <= prefix {
        return false;
    }
    if 10000000000 <= base {
        return false;
    }
    account_ok(prefix, base)
}

// Does it stand for no account?
pub fn is_nobody(prefix: u64, base: u64) -> bool
    ensures { result ≡ is_nobody (account prefix base) }
{
    if prefix != 0 {
        return false;
    }
    base == 0
}

// Is every byte a zero?
fn all_zero(f: &[u8]) -> bool
    ensures { result ≡ all is_zero f.now }
{
    f.iter().all(|b| *b == 48)
}

// Are they 1 to `most` zeros?
fn some_zeros(f: &[u8], most: usize) -> bool
    ensures { result ≡ zeros most f.now }
{
    if f.len() < 1 {
        return false;
    }
    if most < f.len() {
        return false;
    }
    all_zero(f)
}

// Is a field spelled with only zeros, where that is looked for?
pub fn only_zeros(f: &[u8], allzero: bool) -> bool
    ensures { result ≡ pick allzero (only_zeros f.now) false }
{
    if !allzero {
        return false;
    }
    let n = f.len();
    let d = scan::find::find_byte(f, 0, 45);
    if n <= d {
        return some_zeros(f, 17);
    }
    if some_zeros(&f[0..d], 6) {
        let from = d + 1;
        return some_zeros(&f[from..n], 10);
    }
    false
}

// How many bytes the account's spelling has.
pub fn account_len(prefix: u64, base: u64) -> usize
    ensures { result ≡ length (spell_account (account prefix base)) }
{
    let w = numeral::width(base);
    if prefix == 0 {
        return w;
    }
    numeral::width(prefix) + 1 + w
}

// Writes the account at `at`, the prefix and its dash only where the prefix is not 0. Returns the next place.
pub fn put_account(out: &mut [u8], at: usize, prefix: u64, base: u64) -> usize
    requires { at + length (spell_account (account prefix base)) ≤ length out.old }
    ensures { Wrote out.old at (spell_account (account prefix base)) out.new result }
{
    if prefix == 0 {
        return numeral::put_number(out, at, base);
    }
    let p = numeral::put_number(out, at, prefix);
    let q = out::put::put_byte(out, p, 45);
    numeral::put_number(out, q, base)
}
