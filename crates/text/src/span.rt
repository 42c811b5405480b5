// Four parts of a message and a name, by their places: found one after another, and cut.
ghost use Rattle.std.specs.Prelude.{◌≡◌, ◌+◌, ◌≤◌, length};
ghost use Rattle.text.specs.span.Places.{part_at, ended, placed, longer, cuts_of, found_at, one_at};

use scan::find::find_byte;

// A place in the line and a length.
#[derive(Clone, Copy)]
pub struct Span {
    pub at: usize,
    pub len: usize,
}

// Where four parts and a name stand, and how many of them were cut.
#[derive(Clone, Copy)]
pub struct Spans {
    pub part1: Span,
    pub part2: Span,
    pub part3: Span,
    pub part4: Span,
    pub name: Span,
    pub warnings: u64,
}

// A part before it is cut, and where the next one begins.
#[derive(Clone, Copy)]
pub struct Part {
    pub at: usize,
    pub len: usize,
    pub next: usize,
}

// The part of m that begins at `from`.
pub fn part_at(m: &[u8], from: usize) -> Part
    requires { from ≤ length m.now }
    ensures { result ≡ part_at m.now from }
{
    // nothing is left behind the last part
    if from == m.len() {
        return Part {
            at: from,
            len: 0,
            next: from,
        };
    }
    let end = find_byte(m, from, 124);
    if end < m.len() {
        return Part {
            at: from,
            len: end - from,
            next: end + 1,
        };
    }
    Part {
        at: from,
        len: end - from,
        next: end,
    }
}

// 1 for a part that a `|` ends, 0 for the last one.
pub fn barred(p: Part) -> usize
    requires len_bound { p.at + p.len ≤ p.next }
    requires next_bound { p.next ≤ p.at + p.len + 1 }
    ensures value { result ≡ ended p }
    ensures upper_bound { result ≤ 1 }
{
    p.next - p.at - p.len
}

// A text cut to 35; the place of an empty one is 0.
fn place(at: usize, len: usize) -> Span
    ensures { result ≡ placed at len }
{
    if len == 0 {
        return Span { at: 0, len: 0 };
    }
    if 35 < len {
        return Span { at, len: 35 };
    }
    Span { at, len }
}

// 1 if a text is cut.
fn long(len: usize) -> u64
    ensures value { result ≡ longer len }
    ensures upper_bound { result ≤ 1 }
{
    if 35 < len {
        return 1;
    }
    0
}

// How many of five texts are cut.
fn cuts(a: usize, b: usize, c: usize, d: usize, n: usize) -> u64
    ensures { result ≡ cuts_of a b c d n }
{
    long(a) + long(b) + long(c) + long(d) + long(n)
}

// The four parts and the name, cut, and how many were cut.
pub fn gather(a: Part, b: Part, c: Part, d: Part, at: usize, len: usize) -> Spans
    ensures { result ≡ found_at a b c d at len }
{
    let part1 = place(a.at, a.len);
    let part2 = place(b.at, b.len);
    let part3 = place(c.at, c.len);
    let part4 = place(d.at, d.len);
    let name = place(at, len);
    let warnings = cuts(a.len, b.len, c.len, d.len, len);
    Spans {
        part1,
        part2,
        part3,
        part4,
        name,
        warnings,
    }
}

// One part and no other, and a name at its place.
pub fn one_part(from: usize, size: usize, at: usize, len: usize) -> Spans
    ensures { result ≡ one_at from size at len }
{
    let part1 = place(from, size);
    let name = place(at, len);
    let warnings = long(size) + long(len);
    Spans {
        part1,
        part2: Span { at: 0, len: 0 },
        part3: Span { at: 0, len: 0 },
        part4: Span { at: 0, len: 0 },
        name,
        warnings,
    }
}
