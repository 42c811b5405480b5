// Little-endian words in lent bytes: eight bytes each, the lowest first.
ghost use Rattle.std.specs.Prelude.{◌≡◌, ◌+◌, ◌*◌, ◌≤◌, length};
ghost use Rattle.base.specs.Put.{Wrote};
ghost use Rattle.paper.specs.Words.{word_bytes, words_bytes};
ghost use Rattle.out.specs.word.Places.{word_here};

// The word whose bytes begin at `at`. The compiler makes one load of the eight.
pub fn word_at(rows: &[u8], at: usize) -> u64
    requires { at + 8 ≤ length rows.now }
    ensures { result ≡ word_here rows.now at }
{
    let mut w: u64 = 0;
    for k in (0..8).rev() {
        w = rows[at + k] as u64 + 256 * w;
    }
    w
}

// Writes x as a word at `at`, and returns the next place. The compiler makes one store of the eight.
pub fn put_word(rows: &mut [u8], at: usize, x: u64) -> usize
    requires { at + 8 ≤ length rows.old }
    ensures { Wrote rows.old at (word_bytes 8 x) rows.new result }
{
    let b = x / 256;
    let c = b / 256;
    let d = c / 256;
    let e = d / 256;
    let f = e / 256;
    let g = f / 256;
    let h = g / 256;
    rows[at] = (x % 256) as u8;
    rows[at + 1] = (b % 256) as u8;
    rows[at + 2] = (c % 256) as u8;
    rows[at + 3] = (d % 256) as u8;
    rows[at + 4] = (e % 256) as u8;
    rows[at + 5] = (f % 256) as u8;
    rows[at + 6] = (g % 256) as u8;
    rows[at + 7] = (h % 256) as u8;
    at + 8
}

// Writes words one after the other, the first at `at`, and returns the next place.
pub fn put_words(rows: &mut [u8], at: usize, words: &[u64]) -> usize
    requires { at + 8 * length words.now ≤ length rows.old }
    ensures { Wrote rows.old at (words_bytes words.now) rows.new result }
{
    let mut next = at;
    for w in words {
        next = put_word(rows, next, *w);
    }
    next
}
