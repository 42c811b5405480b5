// The parts of a message that may have a name behind it: each ends before the first `|` or ` NP:`, and both are looked for in one pass.
ghost use Rattle.std.specs.Prelude.{◌≡◌, true, false, ◌+◌, ◌-◌, ◌≤◌, leb, length, take, drop};
ghost use Rattle.base.specs.Pick.{pick};
ghost use Rattle.base.specs.Seek.{all, starts, seek};
ghost use Rattle.paper.specs.Bytes.{bar, mark};
ghost use Rattle.scan.specs.block.Blocks.{Skips};
ghost use Rattle.text.specs.span.Places.{part_at};
ghost use Rattle.text.specs.division.Unnamed.{unnamed, is_plain};

use crate::span::{Part, barred};
use scan::block::all_other;
use scan::seek::starts_at;

// Are so many bytes at `at` all other than `|` and `:`?
fn all_plain(s: &[u8], at: usize, size: usize) -> bool
    requires { at + size ≤ length s.now }
    ensures { result ≡ true → all is_plain (take size (drop at s.now)) ≡ true }
{
    if all_other(s, at, size, 124) {
        return all_other(s, at, size, 58);
    }
    false
}

// A place at or after `at` with neither `|` nor `:` before it: a multiple of sixteen bytes on.
fn pass_plain(s: &[u8], at: usize) -> usize
    requires { at ≤ length s.now }
    ensures { Skips is_plain s.now at result }
{
    let mut i = at;
    while 16 <= s.len() - i {
        if all_plain(s, i, 16) {
            i += 16;
        } else {
            return i;
        }
    }
    i
}

// The same of eight bytes, for the end of a text.
fn pass_half(s: &[u8], at: usize) -> usize
    requires { at ≤ length s.now }
    ensures { Skips is_plain s.now at result }
{
    if s.len() - at < 8 {
        return at;
    }
    if all_plain(s, at, 8) {
        return at + 8;
    }
    at
}

// The same one byte after another: the first `|` or `:`, or the text's end.
fn find_stop(s: &[u8], at: usize) -> usize
    requires { at ≤ length s.now }
    ensures { Skips is_plain s.now at result }
{
    let from = pass_half(s, pass_plain(s, at));
    for i in from..s.len() {
        if matches!(s[i], 124 | 58) {
            return i;
        }
    }
    s.len()
}

// Does the byte at e end a ` NP:` that begins at or after `from`?
fn ends_mark(s: &[u8], from: usize, e: usize) -> bool
    requires { (from ≤ e) × (e ≤ length s.now) }
    ensures { result ≡ pick (leb 3 (e - from)) (starts mark (drop (e - 3) s.now)) false }
{
    if 3 <= e - from {
        return starts_at(s, e - 3, b" NP:");
    }
    false
}

// Where the part that begins at `from` ends.
fn part_end(s: &[u8], from: usize) -> usize
    requires { from ≤ length s.now }
    ensures { result ≡ from + seek bar (drop from (unnamed s.now from)) }
{
    let mut i = from;
    while i < s.len() {
        let e = find_stop(s, i);
        if e == s.len() {
            return e;
        }
        if s[e] == 124 {
            return e;
        }
        if ends_mark(s, from, e) {
            return e - 3;
        }
        i = e + 1;
    }
    i
}

// The part that begins at `from`.
pub fn first_part(s: &[u8], from: usize) -> Part
    requires { from ≤ length s.now }
    ensures { result ≡ part_at (unnamed s.now from) from }
{
    let end = part_end(s, from);
    if starts_at(s, end, b"|") {
        return Part {
            at: from,
            len: end - from,
            next: end + 1,
        };
    }
    Part {
        at: from,
        len: end - from,
        next: end,
    }
}

// The part behind p, of the same message; an empty one at its end, if p is the last.
pub fn next_part(s: &[u8], p: Part) -> Part
    requires at_in_bounds { p.at ≤ length s.now }
    requires p_value { p ≡ part_at (unnamed s.now p.at) p.at }
    ensures { result ≡ part_at (unnamed s.now p.at) p.next }
{
    if barred(p) == 0 {
        return Part {
            at: p.next,
            len: 0,
            next: p.next,
        };
    }
    first_part(s, p.next)
}
