// Numbers in decimal digits: read from a field, counted, and written into a lent output.
#![tactic(auto)]

pub mod counted;
pub mod field;
pub mod given;
pub mod placed;

ghost use Rattle.std.specs.Prelude.{◌≡◌, ◌+◌, ◌/◌, ◌<◌, ◌≤◌, length};
ghost use Rattle.base.specs.Put.{Wrote};
ghost use Rattle.paper.specs.Numerals.{digits, decimal, fixed};
ghost use Rattle.numeral.specs.Told.{told};

use refusal::Refusal;

// A field of `least` to `most` digits and nothing else.
pub fn read_digits(f: &[u8], least: usize, most: usize) -> Result<u64, Refusal>
    requires { most ≤ 19 }
    ensures { told result ≡ digits least most f.now }
{
    let n = f.len();
    if n < least {
        return Err(Refusal::BadField);
    }
    if most < n {
        return Err(Refusal::BadField);
    }
    let mut v: u64 = 0;
    for &b in f {
        if b < 48 {
            return Err(Refusal::BadField);
        }
        if 57 < b {
            return Err(Refusal::BadField);
        }
        v = v * 10 + (b - 48) as u64;
    }
    Ok(v)
}

// How many digits a number below 10 ^ 10 has.
fn short_width(n: u64) -> usize
    requires { n < 10000000000 }
    ensures { (result ≡ length (decimal n)) × (result ≤ 10) }
{
    if n < 100000 {
        if n < 100 {
            if n < 10 {
                return 1;
            }
            return 2;
        }
        if n < 1000 {
            return 3;
        }
        if n < 10000 {
            return 4;
        }
        return 5;
    }
    if n < 10000000 {
        if n < 1000000 {
            return 6;
        }
        return 7;
    }
    if n < 100000000 {
        return 8;
    }
    if n < 1000000000 {
        return 9;
    }
    10
}

// How many digits n has.
pub fn width(n: u64) -> usize
    ensures { (result ≡ length (decimal n)) × (1 ≤ result) × (result ≤ 20) }
{
    if n < 10000000000 {
        return short_width(n);
    }
    10 + short_width(n / 10000000000)
}

// n / 10, n / 100 and n / 10000 of numbers so small that a product and a shift divide them.
pub fn tens(n: u64) -> u64
    requires { n < 100 }
    ensures { result ≡ n / 10 }
{
    n * 103 / 1024
}

pub fn hundreds(n: u64) -> u64
    requires { n < 10000 }
    ensures { result ≡ n / 100 }
{
    n * 5243 / 524288
}

pub fn myriads(n: u64) -> u64
    requires { n < 100000000 }
    ensures { result ≡ n / 10000 }
{
    n * 109951163 / 1099511627776
}

// Writes n in two digits. They are the bytes of one number, so that the compiler makes one store of them.
fn put_pair(out: &mut [u8], at: usize, n: u64) -> usize
    requires { (at + 2 ≤ length out.old) × (n < 100) }
    ensures { Wrote out.old at (fixed 2 n) out.new result }
{
    let ten = tens(n);
    let both = 12336 + n * 256 - ten * 2559;
    out[at] = (both % 256) as u8;
    out[at + 1] = (both / 256) as u8;
    at + 2
}

// Writes n in four digits.
pub fn put_four(out: &mut [u8], at: usize, n: u64) -> usize
    requires { (at + 4 ≤ length out.old) × (n < 10000) }
    ensures { Wrote out.old at (fixed 4 n) out.new result }
{
    let high = hundreds(n);
    let e = put_pair(out, at, high);
    put_pair(out, e, n - high * 100)
}

// Writes n in eight digits.
fn put_eight(out: &mut [u8], at: usize, n: u64) -> usize
    requires { (at + 8 ≤ length out.old) × (n < 100000000) }
    ensures { Wrote out.old at (fixed 8 n) out.new result }
{
    let high = myriads(n);
    let e = put_four(out, at, high);
    put_four(out, e, n - high * 10000)
}

// Writes the last k digits of n, up to three.
fn put_few(out: &mut [u8], at: usize, k: usize, n: u64) -> usize
    requires { (at + k ≤ length out.old) × (k ≤ 3) }
    ensures { Wrote out.old at (fixed k n) out.new result }
{
    if k == 0 {
        return at;
    }
    if k == 1 {
        return out::put::put_byte(out, at, 48 + (n % 10) as u8);
    }
    if k == 2 {
        return put_pair(out, at, n % 100);
    }
    let e = out::put::put_byte(out, at, 48 + (n / 100 % 10) as u8);
    put_pair(out, e, n % 100)
}

// Writes the last k digits of n at `at`, zeros in front, and returns the place behind them.
pub fn put_fixed(out: &mut [u8], at: usize, k: usize, n: u64) -> usize
    requires { at + k ≤ length out.old }
    ensures { Wrote out.old at (fixed k n) out.new result }
{
    let mut m = n;
    let mut j = k;
    // From the right, as the digits come by division.
    while 3 < j {
        j -= 4;
        put_four(out, at + j, m % 10000);
        m = m / 10000;
    }
    put_few(out, at, j, m);
    at + k
}

// Writes a number below 10000 with no needless zeros.
fn put_short(out: &mut [u8], at: usize, n: u64) -> usize
    requires { (at + length (decimal n) ≤ length out.old) × (n < 10000) }
    ensures { Wrote out.old at (decimal n) out.new result }
{
    if n < 100 {
        if n < 10 {
            return out::put::put_byte(out, at, 48 + n as u8);
        }
        return put_pair(out, at, n);
    }
    if n < 1000 {
        let high = hundreds(n);
        let e = out::put::put_byte(out, at, 48 + high as u8);
        return put_pair(out, e, n - high * 100);
    }
    put_four(out, at, n)
}

// Writes n at `at` with no needless zeros, and returns the place behind it.
pub fn put_number(out: &mut [u8], at: usize, n: u64) -> usize
    requires { at + length (decimal n) ≤ length out.old }
    ensures { Wrote out.old at (decimal n) out.new result }
{
    if n < 10000 {
        return put_short(out, at, n);
    }
    if n < 100000000 {
        let high = myriads(n);
        let e = put_short(out, at, high);
        return put_four(out, e, n - high * 10000);
    }
    if n < 1000000000000 {
        let high = n / 100000000;
        let e = put_short(out, at, high);
        return put_eight(out, e, n - high * 100000000);
    }
    // more digits than nearly every number has
    put_fixed(out, at, width(n), n)
}
