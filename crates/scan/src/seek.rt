// Looking for a pattern in a text, and telling text bytes from others.
ghost use Rattle.std.specs.Prelude.{◌≡◌, ◌+◌, ◌≤◌, length, drop};
ghost use Rattle.base.specs.Seek.{all, starts, seek};
ghost use Rattle.paper.specs.Bytes.{is_text, is_clean};
ghost use Rattle.paper.specs.Texts.{lacks};

use crate::block::{ends_clean, skip_clean, skip_text};

// A text byte.
pub fn is_text(b: u8) -> bool
    ensures { result ≡ is_text b }
{
    if b < 32 {
        return false;
    }
    if b == 127 {
        return false;
    }
    true
}

// Every byte of s from `from` on is a text byte.
pub fn all_text(s: &[u8], from: usize) -> bool
    requires { from ≤ length s.now }
    ensures { result ≡ all is_text (drop from s.now) }
{
    for i in skip_text(s, from)..s.len() {
        if !is_text(s[i]) {
            return false;
        }
    }
    true
}

// Neither `#` nor `~`.
fn is_clean(b: u8) -> bool
    ensures { result ≡ is_clean b }
{
    if b == 35 {
        return false;
    }
    if b == 126 {
        return false;
    }
    true
}

// Neither `#` nor `~` stands in s from `from` on. Mostly one look tells.
pub fn all_clean(s: &[u8], from: usize) -> bool
    requires { from ≤ length s.now }
    ensures { result ≡ all is_clean (drop from s.now) }
{
    if ends_clean(s, from) {
        return true;
    }
    for i in skip_clean(s, from)..s.len() {
        if !is_clean(s[i]) {
            return false;
        }
    }
    true
}

// The pattern stands at `at` of s.
pub fn starts_at(s: &[u8], at: usize, pat: &[u8]) -> bool
    requires { at ≤ length s.now }
    ensures { result ≡ starts pat.now (drop at s.now) }
{
    let rest = s.len() - at;
    for j in 0..pat.len() {
        if rest <= j {
            return false;
        }
        if s[at + j] != pat[j] {
            return false;
        }
    }
    true
}

// The first place of the pattern in s at or after `from`, or s's length where there is none.
pub fn find(s: &[u8], from: usize, pat: &[u8]) -> usize
    requires { from ≤ length s.now }
    ensures { result ≡ from + seek pat.now (drop from s.now) }
{
    for at in from..s.len() {
        if starts_at(s, at, pat) {
            return at;
        }
    }
    s.len()
}

// The pattern stands nowhere in s.
pub fn lacks_pattern(s: &[u8], pat: &[u8]) -> bool
    ensures { result ≡ lacks pat.now s.now }
{
    find(s, 0, pat) == s.len()
}
