// Bytes of a file in quotes, whatever they are: counted, and put where they have room.
ghost use Rattle.std.specs.Prelude.{◌≡◌, ◌++◌, ◌%◌, take};
ghost use Rattle.paper.specs.Bytes.{bytes};
ghost use Rattle.numeral.specs.counted.Counted.{Counted};
ghost use Rattle.sentences.specs.Quoted.{is_plain, hex_digit, quoted_byte, quoted_bytes, of_how_many, quoted, quoted_or};

use numeral::counted::{put_byte, put_bytes, put_number};

// Does the byte stand for itself?
fn is_plain(x: u8) -> bool
    ensures { result ≡ is_plain x }
{
    if x < 32 {
        return false;
    }
    if 126 < x {
        return false;
    }
    if x == 34 {
        return false;
    }
    if x == 92 {
        return false;
    }
    true
}

// The last digit of sixteen of d.
fn hex_digit(d: u8) -> u8
    ensures { result ≡ hex_digit (d % 16) }
{
    let h = d % 16;
    if h < 10 {
        return 48 + h;
    }
    55 + h
}

// One byte, as it stands in quotes.
fn put_quoted_byte(out: &mut [u8], at: usize, x: u8) -> usize
    ensures { Counted out.old at (quoted_byte x) out.new result }
{
    if is_plain(x) {
        return put_byte(out, at, x);
    }
    let d = put_bytes(out, at, b"\\x");
    let e = put_byte(out, d, hex_digit(x / 16));
    put_byte(out, e, hex_digit(x))
}

// Each byte of s.
fn put_each(out: &mut [u8], at: usize, s: &[u8]) -> usize
    ensures { Counted out.old at (quoted_bytes s.now) out.new result }
{
    let mut next = at;
    for &x in s {
        next = put_quoted_byte(out, next, x);
    }
    next
}

// .. of the first 60.
fn put_first(out: &mut [u8], at: usize, s: &[u8]) -> usize
    ensures { Counted out.old at (quoted_bytes (take 60 s.now)) out.new result }
{
    if 60 < s.len() {
        let end = 60;
        return put_each(out, at, &s[..end]);
    }
    put_each(out, at, s)
}

// Of how many they are the first.
fn put_of_how_many(out: &mut [u8], at: usize, n: u64) -> usize
    ensures { Counted out.old at (of_how_many n) out.new result }
{
    if 60 < n {
        let d = put_bytes(out, at, b", the first 60 of ");
        let e = put_number(out, d, n);
        return put_bytes(out, e, b" bytes");
    }
    at
}

// The quote behind them, and of how many they are the first.
fn put_end(out: &mut [u8], at: usize, n: u64) -> usize
    ensures { Counted out.old at (bytes "\"" ++ of_how_many n) out.new result }
{
    let e = put_byte(out, at, 34);
    put_of_how_many(out, e, n)
}

// At most 60 bytes of s in quotes, and of how many.
fn put_quoted(out: &mut [u8], at: usize, s: &[u8]) -> usize
    ensures { Counted out.old at (quoted s.now) out.new result }
{
    let d = put_byte(out, at, 34);
    let e = put_first(out, d, s);
    put_end(out, e, s.len() as u64)
}

// .. or `nothing`, where there is no byte.
pub fn put_quoted_or(out: &mut [u8], at: usize, s: &[u8]) -> usize
    ensures { Counted out.old at (quoted_or s.now) out.new result }
{
    if s.len() == 0 {
        return put_bytes(out, at, b"nothing");
    }
    put_quoted(out, at, s)
}
