// The text of an item: where the parts of its message and its name stand in the line.
#![tactic(auto)]

pub mod division;
pub mod extent;
pub mod fits;
pub mod joins;
pub mod span;
pub mod spell;
pub mod wording;

ghost use Rattle.std.specs.Prelude.{◌≡◌, false, ◌+◌, ◌≤◌, length, drop};
ghost use Rattle.base.specs.Pick.{pick};
ghost use Rattle.base.specs.Seek.{starts, seek};
ghost use Rattle.paper.specs.Bytes.{np, mark};
ghost use Rattle.paper.specs.Texts.{taken, opens, message_end, message, marked, read_text};
ghost use Rattle.text.specs.span.Places.{part_at};
ghost use Rattle.text.specs.Told.{count_text, told, Inside, Tells};
ghost use Rattle.text.specs.Begun.{of_text, Begins};
ghost use Rattle.text.specs.Finish.{judged, fitted_one, fitted_at, finish_at, name_at};

use crate::span::{Part, Span, Spans, barred, gather, one_part, part_at};
use refusal::Refusal;
use scan::find::find_byte;
use scan::seek::{all_clean, all_text, starts_at};
use sheet::Style;

// What is too long is cut, or refused.
fn judge(y: Style, f: Spans) -> Result<Spans, Refusal>
    ensures { result ≡ judged y f }
{
    let may = y.cuts;
    if may {
        return Ok(f);
    }
    let w = f.warnings;
    if w == 0 {
        return Ok(f);
    }
    Err(Refusal::BadText)
}

// One part and no other, and a name at its place.
fn fit_one(y: Style, from: usize, size: usize, at: usize, len: usize) -> Result<Spans, Refusal>
    ensures { result ≡ fitted_one y from size at len }
{
    let most = y.most;
    if most == 0 {
        return Err(Refusal::BadText);
    }
    judge(y, one_part(from, size, at, len))
}

// The parts of m from `from` on, of which the first is a, and a name at its place.
fn fit_parts(
    y: Style,
    m: &[u8],
    from: usize,
    a: Part,
    at: usize,
    len: usize,
) -> Result<Spans, Refusal>
    requires most_bound { y.most ≤ 4 }
    requires from_in_bounds { from ≤ length m.now }
    requires a_value { a ≡ part_at m.now from }
    ensures { result ≡ fitted_at y m.now from at len }
{
    let b = part_at(m, a.next);
    let c = part_at(m, b.next);
    let d = part_at(m, c.next);
    let most = y.most;
    if most <= barred(a) + barred(b) + barred(c) + barred(d) {
        return Err(Refusal::BadText);
    }
    judge(y, gather(a, b, c, d, at, len))
}

// The parts of m from `from` on, and a name at its place: m is the line up to the message's end, so that places are the line's.
// Most texts have one part.
fn fit_at(y: Style, m: &[u8], from: usize, at: usize, len: usize) -> Result<Spans, Refusal>
    requires most_bound { y.most ≤ 4 }
    requires from_in_bounds { from ≤ length m.now }
    ensures { result ≡ fitted_at y m.now from at len }
{
    let end = find_byte(m, from, 124);
    if end < m.len() {
        let a = Part {
            at: from,
            len: end - from,
            next: end + 1,
        };
        return fit_parts(y, m, from, a, at, len);
    }
    fit_one(y, from, end - from, at, len)
}

// The sheet takes the bytes of m from `from` on.
pub fn bytes_taken(y: Style, m: &[u8], from: usize) -> bool
    requires { from ≤ length m.now }
    ensures { result ≡ taken y (drop from m.now) }
{
    let clean = y.clean;
    if clean {
        return all_clean(m, from);
    }
    true
}

// The same, where the sheet takes the message's bytes. A `|` is such a byte, so that they are looked at once, and not part by part.
fn finish_at(y: Style, m: &[u8], from: usize, at: usize, len: usize) -> Result<Spans, Refusal>
    requires most_bound { y.most ≤ 4 }
    requires from_in_bounds { from ≤ length m.now }
    ensures { result ≡ finish_at y m.now from at len }
{
    if bytes_taken(y, m, from) {
        return fit_at(y, m, from, at, len);
    }
    Err(Refusal::BadText)
}

// The first ` NP:` of s at or after `from`, or s's length where there is none. It is looked for by its last byte, which is rare in a text.
fn find_mark(s: &[u8], from: usize) -> usize
    requires { from ≤ length s.now }
    ensures { result ≡ from + seek mark (drop from s.now) }
{
    let mut i = from;
    while 3 < s.len() - i {
        let colon = find_byte(s, i + 3, 58);
        if colon == s.len() {
            return colon;
        }
        if starts_at(s, colon - 3, b" NP:") {
            return colon - 3;
        }
        i = colon - 2;
    }
    s.len()
}

// Where the message that begins at `from` ends: before its first ` NP:`, where names are.
pub fn message_end(y: Style, s: &[u8], from: usize) -> usize
    requires { from ≤ length s.now }
    ensures { result ≡ from + message_end y (drop from s.now) }
{
    let names = y.names;
    if names {
        return find_mark(s, from);
    }
    s.len()
}

// Where the name stands in a line of n bytes whose message ends at `end`, with ` NP:` behind it or nothing.
pub fn name_at(end: usize, n: usize) -> Span
    requires { end ≤ n }
    ensures { result ≡ name_at end n }
{
    let rest = n - end;
    if rest <= 4 {
        return Span { at: 0, len: 0 };
    }
    Span {
        at: end + 4,
        len: rest - 4,
    }
}

// The message that begins at `from`, and the name behind its ` NP:`.
fn read_message(y: Style, s: &[u8], from: usize) -> Result<Spans, Refusal>
    requires most_bound { y.most ≤ 4 }
    requires from_in_bounds { from ≤ length s.now }
    ensures { Tells s.now result (message y from (drop from s.now)) }
{
    let end = message_end(y, s, from);
    let name = name_at(end, s.len());
    finish_at(y, &s[0..end], from, name.at, name.len)
}

// The text is `NP:` and a name.
pub fn only_name(y: Style, s: &[u8], from: usize) -> bool
    requires { from ≤ length s.now }
    ensures { result ≡ pick y.names (starts np (drop from s.now)) false }
{
    let names = y.names;
    if names {
        return starts_at(s, from, b"NP:");
    }
    false
}

// How a text begins: where its message does, or with `NP:` and a name alone.
#[derive(Clone, Copy)]
pub enum Begun {
    Message(usize),
    Name,
}

// The beginning of a text with `AV:`, or on C of one without it.
fn begin_marked(y: Style, s: &[u8], from: usize) -> Result<Begun, Refusal>
    requires { from ≤ length s.now }
    ensures { Begins y s.now from result (marked y from (drop from s.now)) }
{
    if only_name(y, s, from) {
        return Ok(Begun::Name);
    }
    if starts_at(s, from, b"AV:") {
        return Ok(Begun::Message(from + 3));
    }
    let may = y.may;
    if may {
        return Ok(Begun::Message(from));
    }
    Err(Refusal::BadText)
}

// The text has a byte or more, and the first is not a space.
pub fn opens_at(s: &[u8], from: usize) -> bool
    requires { from ≤ length s.now }
    ensures { result ≡ opens (drop from s.now) }
{
    if s.len() <= from {
        return false;
    }
    if s[from] == 32 {
        return false;
    }
    true
}

// The beginning of a text whose bytes are all text bytes.
pub fn begin_text(y: Style, s: &[u8], from: usize) -> Result<Begun, Refusal>
    requires { from ≤ length s.now }
    ensures { Begins y s.now from result (of_text y from (drop from s.now)) }
{
    let av = y.av;
    if av {
        if opens_at(s, from) {
            return begin_marked(y, s, from);
        }
        return Err(Refusal::BadField);
    }
    Ok(Begun::Message(from))
}

// The text that begins at `from` of the line s and runs to its end: where its parts and its name stand.
pub fn read_text(y: Style, s: &[u8], from: usize) -> Result<Spans, Refusal>
    requires most_bound { y.most ≤ 4 }
    requires from_in_bounds { from ≤ length s.now }
    ensures result_value { told s.now result ≡ count_text (read_text y from (drop from s.now)) }
    ensures inside { Inside s.now result }
{
    if all_text(s, from) {
        return match begin_text(y, s, from)? {
            Begun::Name => fit_one(y, from, 0, from + 3, s.len() - from - 3),
            Begun::Message(at) => read_message(y, s, at),
        };
    }
    Err(Refusal::BadField)
}
