// Whether the parts of an item hold `#` or `~`, which not every sheet takes.
ghost use Rattle.std.specs.Prelude.{◌≡◌, true, ℕ, ◌≤◌, length};
ghost use Rattle.base.specs.Seek.{all};
ghost use Rattle.paper.specs.Bytes.{is_clean};
ghost use Rattle.text.specs.span.Held.{Within};
ghost use Rattle.rows.specs.read.Told.{text_of_span};
ghost use Rattle.rows.specs.read.Sized.{Inside};
ghost use Rattle.rows.specs.clean.Stretches.{Lies, Reaches, HoldsParts, CleanParts};

use crate::read::ItemRow;
use text::span::Span;

// p holds neither, where it stands. What is lent before it goes with it, so that a short part is passed in one block.
pub fn part_clean(texts: &[u8], p: Span) -> bool
    requires { Within texts.now p }
    ensures { result ≡ all is_clean (text_of_span texts.now p) }
{
    let at = p.at;
    let end = at + p.len;
    scan::seek::all_clean(&texts[0..end], at)
}

// Lent bytes from one place up to another.
#[derive(Clone, Copy)]
pub struct Stretch {
    pub from: usize,
    pub to: usize,
}

fn lower(a: usize, b: usize) -> usize
    ensures upper_bound { result ≤ a }
    ensures upper_bound_2 { result ≤ b }
{
    if a < b {
        return a;
    }
    b
}

fn higher(a: usize, b: usize) -> usize
    ensures lower_bound { a ≤ result }
    ensures lower_bound_2 { b ≤ result }
    ensures by_index { (n : ℕ) → a ≤ n → b ≤ n → result ≤ n }
{
    if a < b {
        return b;
    }
    a
}

// The stretch a, drawn out to where p stands, if p has bytes.
fn drawn_out(texts: &[u8], a: Stretch, p: Span) -> Stretch
    requires from_le_to { a.from ≤ a.to }
    requires to_in_bounds { a.to ≤ length texts.now }
    requires within { Within texts.now p }
    ensures from_le_to_2 { result.from ≤ result.to }
    ensures to_in_bounds_2 { result.to ≤ length texts.now }
    ensures reaches { Reaches a result }
    ensures lies { Lies result p }
{
    if p.len == 0 {
        return a;
    }
    let at = p.at;
    let end = at + p.len;
    Stretch {
        from: lower(a.from, at),
        to: higher(a.to, end),
    }
}

// The stretch that an item's parts lie in.
fn parts_stretch(texts: &[u8], x: ItemRow) -> Stretch
    requires { Inside texts.now x }
    ensures from_le_to { result.from ≤ result.to }
    ensures to_in_bounds { result.to ≤ length texts.now }
    ensures holds_parts { HoldsParts result x }
{
    let part = x.part1;
    let at = part.at;
    let end = at + part.len;
    let one = Stretch { from: at, to: end };
    let two = drawn_out(texts, one, x.part2);
    let three = drawn_out(texts, two, x.part3);
    drawn_out(texts, three, x.part4)
}

// No part of an item holds either, as one look at a short stretch tells; where the stretch is long it does not tell.
pub fn parts_clean(texts: &[u8], x: ItemRow) -> bool
    requires { Inside texts.now x }
    ensures { result ≡ true → CleanParts texts.now x }
{
    let a = parts_stretch(texts, x);
    let from = a.from;
    let to = a.to;
    if from == to {
        return true;
    }
    if 160 < to - from {
        return false;
    }
    scan::seek::all_clean(&texts[0..to], from)
}
