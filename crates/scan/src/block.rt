// Bytes passed sixteen at a time, or sixty-four in a long text. The loops over a block have no early exit, so that the compiler compares all of its bytes at once.
// The last block ends with the text: it may begin before the bytes that are left, so that a short rest costs one block.
ghost use Rattle.std.specs.Prelude.{◌≡◌, true, ◌+◌, ◌≤◌, ◌<◌, length, take, drop};
ghost use Rattle.base.specs.Seek.{all};
ghost use Rattle.paper.specs.Bytes.{is_text, is_clean};
ghost use Rattle.scan.specs.block.Blocks.{is_high, is_other, is_far, Skips};

// Where a block of so many bytes begins that holds the byte at i and those behind it, as many as fit.
fn block_at(i: usize, n: usize, size: usize) -> usize
    requires size_le_n { size ≤ n }
    requires size_nonzero { 0 < size }
    requires i_lt_n { i < n }
    ensures upper_bound { result ≤ i }
    ensures i_bound { i < result + size }
    ensures size_bound { result + size ≤ n }
{
    if i <= n - size {
        return i;
    }
    n - size
}

// Are the sixteen bytes at `at` all above 13, so that none ends a line?
fn high_block(s: &[u8], at: usize) -> bool
    requires { at + 16 ≤ length s.now }
    ensures { result ≡ true → all is_high (take 16 (drop at s.now)) ≡ true }
{
    let mut high = true;
    for j in 0..16 {
        if s[at + j] < 14 {
            high = false;
        }
    }
    high
}

// A place at or after `at` with no line's end before it: a multiple of sixteen bytes on.
fn pass_high(s: &[u8], at: usize) -> usize
    requires { at ≤ length s.now }
    ensures { Skips is_high s.now at result }
{
    let mut i = at;
    while 16 <= s.len() - i {
        if high_block(s, i) {
            i += 16;
        } else {
            return i;
        }
    }
    i
}

// One byte after another: a place at or after `at`, right before the first byte that differs from `c` by no more than `w` in its bits, or near the text's end.
// With `w` 0 that byte is `c` itself, with `c` 0 it is any up to `w`.
fn near(s: &[u8], at: usize, c: u8, w: u8) -> usize
    requires { at ≤ length s.now }
    ensures { Skips (is_far c w) s.now at result }
{
    let mut i = at;
    while 8 <= s.len() - i {
        if s[i] ^ c <= w {
            return i;
        }
        if s[i + 1] ^ c <= w {
            return i + 1;
        }
        if s[i + 2] ^ c <= w {
            return i + 2;
        }
        if s[i + 3] ^ c <= w {
            return i + 3;
        }
        if s[i + 4] ^ c <= w {
            return i + 4;
        }
        if s[i + 5] ^ c <= w {
            return i + 5;
        }
        if s[i + 6] ^ c <= w {
            return i + 6;
        }
        if s[i + 7] ^ c <= w {
            return i + 7;
        }
        i += 8;
    }
    i
}

// A place at or after `at` with no line's end before it: right before the first, unless the text ends soon.
pub fn skip_high(s: &[u8], at: usize) -> usize
    requires { at ≤ length s.now }
    ensures { Skips is_high s.now at result }
{
    near(s, pass_high(s, at), 0, 13)
}

// Are the sixteen bytes at `at` all text bytes?
fn text_block(s: &[u8], at: usize) -> bool
    requires { at + 16 ≤ length s.now }
    ensures { result ≡ true → all is_text (take 16 (drop at s.now)) ≡ true }
{
    let mut text = true;
    for j in 0..16 {
        let b = s[at + j];
        if b < 32 {
            text = false;
        }
        if b == 127 {
            text = false;
        }
    }
    text
}

// A place at or after `at` with text bytes alone before it.
pub fn skip_text(s: &[u8], at: usize) -> usize
    requires { at ≤ length s.now }
    ensures { Skips is_text s.now at result }
{
    let n = s.len();
    if n < 16 {
        return at;
    }
    let mut i = at;
    while i < n {
        let p = block_at(i, n, 16);
        if text_block(s, p) {
            i = p + 16;
        } else {
            return i;
        }
    }
    i
}

// Are so many bytes at `at` all other than b?
pub fn all_other(s: &[u8], at: usize, size: usize, b: u8) -> bool
    requires { at + size ≤ length s.now }
    ensures { result ≡ true → all (is_other b) (take size (drop at s.now)) ≡ true }
{
    let mut other = true;
    for j in 0..size {
        if s[at + j] == b {
            other = false;
        }
    }
    other
}

// Are so many bytes at `at` all other than `#` and `~`? Each is looked for by itself: of two tests of one byte the compiler makes one that it cannot do for all
// bytes of a block at once.
fn clean_block(s: &[u8], at: usize, size: usize) -> bool
    requires { at + size ≤ length s.now }
    ensures { result ≡ true → all is_clean (take size (drop at s.now)) ≡ true }
{
    if all_other(s, at, size, 35) {
        return all_other(s, at, size, 126);
    }
    false
}

// One look at the last block of s: if it reaches back to `from`, neither `#` nor `~` stands from there on. Else this does not tell.
pub fn ends_clean(s: &[u8], from: usize) -> bool
    requires { from ≤ length s.now }
    ensures { result ≡ true → all is_clean (drop from s.now) ≡ true }
{
    let n = s.len();
    if n < 64 {
        return false;
    }
    let at = n - 64;
    if from < at {
        return false;
    }
    clean_block(s, at, 64)
}

// A place at or after `at` with neither `#` nor `~` before it: `at` itself in a short text. A message of usual length takes one block.
fn pass_clean(s: &[u8], at: usize) -> usize
    requires { at ≤ length s.now }
    ensures { Skips is_clean s.now at result }
{
    let n = s.len();
    if n < 64 {
        return at;
    }
    let mut i = at;
    while i < n {
        let p = block_at(i, n, 64);
        if clean_block(s, p, 64) {
            i = p + 64;
        } else {
            return i;
        }
    }
    i
}

// A place at or after `at` with neither `#` nor `~` before it.
pub fn skip_clean(s: &[u8], at: usize) -> usize
    requires { at ≤ length s.now }
    ensures { Skips is_clean s.now at result }
{
    let n = s.len();
    if n < 16 {
        return at;
    }
    let mut i = pass_clean(s, at);
    while i < n {
        let p = block_at(i, n, 16);
        if clean_block(s, p, 16) {
            i = p + 16;
        } else {
            return i;
        }
    }
    i
}

// A place at or after `at` with no b before it: `at` itself in a short text, where so wide a block costs more than it saves.
fn pass_long(s: &[u8], at: usize, b: u8) -> usize
    requires { at ≤ length s.now }
    ensures { Skips (is_other b) s.now at result }
{
    let mut i = at;
    while 256 <= s.len() - i {
        if all_other(s, i, 64, b) {
            i += 64;
        } else {
            return i;
        }
    }
    i
}

// A place at or after `at` with no b before it.
fn pass_other(s: &[u8], at: usize, b: u8) -> usize
    requires { at ≤ length s.now }
    ensures { Skips (is_other b) s.now at result }
{
    let n = s.len();
    if n < 16 {
        return at;
    }
    let mut i = pass_long(s, at, b);
    while i < n {
        let p = block_at(i, n, 16);
        if all_other(s, p, 16, b) {
            i = p + 16;
        } else {
            return i;
        }
    }
    i
}

// A place at or after `at` with no b before it: right before the first, unless the text ends soon.
pub fn skip_other(s: &[u8], at: usize, b: u8) -> usize
    requires { at ≤ length s.now }
    ensures { Skips (is_other b) s.now at result }
{
    near(s, pass_other(s, at, b), b, 0)
}
