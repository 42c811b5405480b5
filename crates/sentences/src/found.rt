// The bytes that were found in a file: counted, and put where they have room. Whatever the numbers say, only what the file has is shown.
ghost use Rattle.std.specs.Prelude.{◌≡◌, false, ◌++◌, ◌≤◌, ltb, eqb, take, drop};
ghost use Rattle.base.specs.Pick.{pick};
ghost use Rattle.numeral.specs.counted.Counted.{Counted};
ghost use Rattle.sentences.specs.Quoted.{quoted_or};
ghost use Rattle.sentences.specs.Sentences.{found_words};

use numeral::counted::put_bytes;

// n, but at most `most`.
fn at_most(n: u64, most: usize) -> usize
    ensures { (result ≤ most) × (result ≡ pick (ltb n most) n most) }
{
    if n < most as u64 {
        return n as usize;
    }
    most
}

// The bytes of f from `byte` on, `length` of them, as far as there are so many.
fn put_part(out: &mut [u8], at: usize, f: &[u8], byte: u64, length: u64) -> usize
    ensures { Counted out.old at (quoted_or (take length (drop byte f.now))) out.new result }
{
    let from = at_most(byte, f.len());
    let end = from + at_most(length, f.len() - from);
    crate::quoted::put_quoted_or(out, at, &f[from..end])
}

// Did the file of n bytes end where a line was due?
fn ended(number: u64, byte: u64, n: usize) -> bool
    ensures { result ≡ pick (eqb number 3) (eqb byte n) false }
{
    if number == 3 {
        return byte == n as u64;
    }
    false
}

// What was found.
fn put_found(out: &mut [u8], at: usize, f: &[u8], number: u64, byte: u64, length: u64) -> usize
    ensures { Counted out.old at (found_words f.now number byte length) out.new result }
{
    if ended(number, byte, f.len()) {
        return put_bytes(out, at, b"the end of the file");
    }
    put_part(out, at, f, byte, length)
}

// A text and what was found behind it.
pub fn put_and_found(
    out: &mut [u8],
    at: usize,
    text: &[u8],
    f: &[u8],
    number: u64,
    byte: u64,
    length: u64,
) -> usize
    ensures { Counted out.old at (text.now ++ found_words f.now number byte length) out.new result }
{
    let e = put_bytes(out, at, text);
    put_found(out, e, f, number, byte, length)
}
