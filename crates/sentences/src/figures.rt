// Numbers, days and ranges in words: counted, and put where they have room.
ghost use Rattle.std.specs.Prelude.{◌++◌};
ghost use Rattle.paper.specs.Bytes.{dash};
ghost use Rattle.paper.specs.Numerals.{decimal, fixed};
ghost use Rattle.numeral.specs.counted.Counted.{Counted};
ghost use Rattle.sentences.specs.Allowed.{dated, ranged, some_digits, numbered, from_day, at_most};

use numeral::counted::{put_byte, put_bytes, put_number};

// The last k digits of n, zeros in front.
pub fn put_fixed(out: &mut [u8], at: usize, k: usize, n: u64) -> usize
    ensures { Counted out.old at (fixed k n) out.new result }
{
    if k == 0 {
        return at;
    }
    let e = put_fixed(out, at, k - 1, n / 10);
    put_byte(out, e, 48 + (n % 10) as u8)
}

// A dash and the last two digits of n.
fn put_dashed(out: &mut [u8], at: usize, n: u64) -> usize
    ensures { Counted out.old at (dash ++ fixed 2 n) out.new result }
{
    let e = put_byte(out, at, 45);
    put_fixed(out, e, 2, n)
}

// A day as YYYY-MM-DD.
fn put_date(out: &mut [u8], at: usize, day: u64) -> usize
    ensures { Counted out.old at (dated day) out.new result }
{
    let d = put_fixed(out, at, 4, day / 10000);
    let e = put_dashed(out, d, day / 100 % 100);
    put_dashed(out, e, day % 100)
}

// A text and a number behind it.
pub fn put_and_number(out: &mut [u8], at: usize, text: &[u8], n: u64) -> usize
    ensures { Counted out.old at (text.now ++ decimal n) out.new result }
{
    let e = put_bytes(out, at, text);
    put_number(out, e, n)
}

// A number, or a range of them.
pub fn put_ranged(out: &mut [u8], at: usize, a: u64, b: u64) -> usize
    ensures { Counted out.old at (ranged a b) out.new result }
{
    if a == b {
        return put_number(out, at, a);
    }
    let e = put_number(out, at, a);
    put_and_number(out, e, b" to ", b)
}

// How many digits.
pub fn put_some_digits(out: &mut [u8], at: usize, a: u64, b: u64) -> usize
    ensures { Counted out.old at (some_digits a b) out.new result }
{
    let d = put_number(out, at, a);
    let e = put_and_number(out, d, b" to ", b);
    put_bytes(out, e, b" digits")
}

// Three digits of account files' numbers, from a to b.
pub fn put_numbered(out: &mut [u8], at: usize, a: u64, b: u64) -> usize
    ensures { Counted out.old at (numbered a b) out.new result }
{
    let d = put_fixed(out, at, 3, a);
    let e = put_bytes(out, d, b" to ");
    put_fixed(out, e, 3, b)
}

// A text and a day behind it.
pub fn put_and_date(out: &mut [u8], at: usize, text: &[u8], day: u64) -> usize
    ensures { Counted out.old at (text.now ++ dated day) out.new result }
{
    let e = put_bytes(out, at, text);
    put_date(out, e, day)
}

// From a day on.
pub fn put_from_day(out: &mut [u8], at: usize, day: u64) -> usize
    ensures { Counted out.old at (from_day day) out.new result }
{
    let e = put_and_date(out, at, b"from ", day);
    put_bytes(out, e, b" on")
}

// At most so many of something.
pub fn put_at_most(out: &mut [u8], at: usize, n: u64, unit: &[u8]) -> usize
    ensures { Counted out.old at (at_most n unit.now) out.new result }
{
    let e = put_and_number(out, at, b"at most ", n);
    put_bytes(out, e, unit)
}
