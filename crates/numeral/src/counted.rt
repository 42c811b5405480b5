// Texts counted, and put where they have room: a writer that is lent nothing only counts. Each returns the place behind its text, whatever
// the room. A place past the last one of 64 bits begins anew, and nothing is promised of it: who counts shows once that the whole text
// ends before.
ghost use Rattle.std.specs.Prelude.{◌≡◌, ◌+◌, [], ◌∷◌, nat_le};
ghost use Rattle.paper.specs.Numerals.{decimal};
ghost use Rattle.numeral.specs.counted.Counted.{Counted};

// Whether n bytes have room at `at` in an output of so many bytes.
fn fits(len: usize, at: usize, n: usize) -> bool
    ensures { result ≡ nat_le (at + n) len }
{
    if at <= len {
        return n <= len - at;
    }
    false
}

// One byte.
pub fn put_byte(out: &mut [u8], at: usize, b: u8) -> usize
    ensures { Counted out.old at (b ∷ []) out.new result }
{
    if fits(out.len(), at, 1) {
        return out::put::put_byte(out, at, b);
    }
    std::num::wrapping_add_usize(at, 1)
}

// The bytes of p.
pub fn put_bytes(out: &mut [u8], at: usize, p: &[u8]) -> usize
    ensures { Counted out.old at p.now out.new result }
{
    if fits(out.len(), at, p.len()) {
        return out::put::put_bytes(out, at, p);
    }
    std::num::wrapping_add_usize(at, p.len())
}

// A number with no needless zeros.
pub fn put_number(out: &mut [u8], at: usize, n: u64) -> usize
    ensures { Counted out.old at (decimal n) out.new result }
{
    let w = crate::width(n);
    if fits(out.len(), at, w) {
        return crate::put_number(out, at, n);
    }
    std::num::wrapping_add_usize(at, w)
}
