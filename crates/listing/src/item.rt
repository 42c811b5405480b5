// What an item's line warns of: the bank field's priority digit, the parts that are cut, and the name that is.
ghost use Rattle.std.specs.Prelude.{◌≡◌, true, ◌+◌, ◌-◌, ◌≤◌, length, take, drop};
ghost use Rattle.sheet.proofs.Laws.{Sane};
ghost use Rattle.base.specs.Pick.{pick};
ghost use Rattle.paper.specs.Bytes.{field_of};
ghost use Rattle.paper.specs.Numerals.{digits};
ghost use Rattle.paper.specs.Lines.{line as line_of};
ghost use Rattle.paper.specs.ItemLine.{is_value, read_item};
ghost use Rattle.numeral.specs.counted.Counted.{Counted};
ghost use Rattle.numeral.specs.placed.Said.{is_said};
ghost use Rattle.text.specs.span.Held.{Within, Held};
ghost use Rattle.itemline.specs.Walk.{any_bank};
ghost use Rattle.why.specs.Names.{field_number};
ghost use Rattle.why.specs.Warned.{part_name, part_from};
ghost use Rattle.listing.specs.Listed.{listed};
ghost use Rattle.listing.specs.item.Warned.{item_warned};
ghost use Rattle.listing.specs.item.Found.{behind, bank_place, digit_warned, priority_warned, cut_warned, part_places, part_warned, parts_warned, name_warned, texts_warned};

use crate::{Telling, put_finding};
use itemline::take::take_item;
use scan::find::find_byte;
use sheet::Style;
use text::span::{Span, Spans};
use why::Finding;

// The number of a line, and where it starts in the file.
#[derive(Clone, Copy)]
pub struct Here {
    pub line: u64,
    pub start: usize,
}

// ---- the bank field

// Behind the field that begins at `at`, and behind its space; the line's end where there is none.
fn behind(s: &[u8], at: usize) -> usize
    requires { at ≤ length s.now }
    ensures value { result ≡ behind s.now at }
    ensures upper_bound { result ≤ length s.now }
{
    let end = find_byte(s, at, 32);
    if end < s.len() {
        return end + 1;
    }
    s.len()
}

// Where the payee begins: behind the payer, where the group is single.
fn payee_place(s: &[u8], single: bool) -> usize
    ensures value { result ≡ pick single (behind s.now 0) 0 }
    ensures upper_bound { result ≤ length s.now }
{
    if single {
        return behind(s, 0);
    }
    0
}

// Where the bank field begins: behind payee, amount and variable symbol.
fn bank_place(s: &[u8], single: bool) -> usize
    ensures value { result ≡ bank_place single s.now }
    ensures upper_bound { result ≤ length s.now }
{
    let amount = behind(s, payee_place(s, single));
    let variable = behind(s, amount);
    behind(s, variable)
}

// The priority digit d of a bank field of n bytes at `byte`: 1 and 2 are read as 5.
fn put_digit(
    out: &mut [u8],
    at: usize,
    t: Telling,
    f: &[u8],
    line: u64,
    byte: usize,
    n: usize,
    d: u64,
) -> usize
    ensures { Counted out.old at (listed t f.now (digit_warned line byte n d)) out.new result }
{
    if d < 1 {
        return at;
    }
    if d < 3 {
        let x = Finding {
            number: 0,
            cause: 1014,
            line,
            byte: byte as u64,
            length: n as u64,
            field: 34,
            least: d,
            most: 5,
        };
        return put_finding(out, at, t, f, x);
    }
    at
}

// The bank field at `from` of the line s, which was read. Where it holds no priority its ninth digit is 0.
fn put_priority(
    out: &mut [u8],
    at: usize,
    t: Telling,
    f: &[u8],
    s: &[u8],
    h: Here,
    from: usize,
) -> usize
    requires from_in_bounds { (from ≤ length s.now) × (h.start + length s.now ≤ length f.now) }
    requires s_value { is_value (digits 8 10 (field_of (drop from s.now))) ≡ true }
    ensures { Counted out.old at (listed t f.now (priority_warned h.line (line_of h.start s.now) from)) out.new result }
{
    let Ok(bank) = numeral::field::number_at(s, from, 8, 10) else {
        return at;
    };
    put_digit(
        out,
        at,
        t,
        f,
        h.line,
        h.start + from,
        bank.end - from,
        bank.value / 100000000,
    )
}

// ---- parts and name

// A text of n bytes at `byte`, which is that field of its line: what is longer than 35 is cut.
fn put_cut(
    out: &mut [u8],
    at: usize,
    t: Telling,
    f: &[u8],
    cause: u64,
    line: u64,
    byte: usize,
    n: usize,
    field: u64,
) -> usize
    ensures { Counted out.old at (listed t f.now (cut_warned cause line byte n field)) out.new result }
{
    if 35 < n {
        let x = Finding {
            number: 0,
            cause,
            line,
            byte: byte as u64,
            length: n as u64,
            field,
            least: 0,
            most: 35,
        };
        return put_finding(out, at, t, f, x);
    }
    at
}

// How many bytes the part at `at` has before it is cut: it runs to the next `|`, or to where the message ends.
fn part_length(y: Style, s: &[u8], at: usize) -> usize
    requires { at ≤ length s.now }
    ensures { result ≡ length (part_from y (drop at s.now)) }
{
    let end = text::message_end(y, s, at);
    find_byte(&s[0..end], at, 124) - at
}

// Which of the four parts begins at `at`. No two that have bytes begin at one place.
fn part_field(x: Spans, at: usize) -> u64
    ensures { result ≡ field_number (part_name at (part_places x)) }
{
    if at == x.part1.at {
        return 37;
    }
    if at == x.part2.at {
        return 38;
    }
    if at == x.part3.at {
        return 39;
    }
    40
}

// The part p of the parts x. One that has fewer than 35 bytes when it is cut was not cut.
fn put_part(
    out: &mut [u8],
    at: usize,
    t: Telling,
    f: &[u8],
    s: &[u8],
    h: Here,
    x: Spans,
    p: Span,
) -> usize
    requires s_in_bounds { h.start + length s.now ≤ length f.now }
    requires within { Within s.now p }
    ensures { Counted out.old at (listed t f.now (part_warned t.sheet.text h.line (line_of h.start s.now) (part_places x) p)) out.new result }
{
    if p.len < 35 {
        return at;
    }
    let n = part_length(t.sheet.text, s, p.at);
    put_cut(
        out,
        at,
        t,
        f,
        1012,
        h.line,
        h.start + p.at,
        n,
        part_field(x, p.at),
    )
}

// The four parts.
fn put_parts(out: &mut [u8], at: usize, t: Telling, f: &[u8], s: &[u8], h: Here, x: Spans) -> usize
    requires s_in_bounds { h.start + length s.now ≤ length f.now }
    requires held { Held s.now x }
    ensures { Counted out.old at (listed t f.now (parts_warned t.sheet.text h.line (line_of h.start s.now) x)) out.new result }
{
    let a = put_part(out, at, t, f, s, h, x, x.part1);
    let b = put_part(out, a, t, f, s, h, x, x.part2);
    let c = put_part(out, b, t, f, s, h, x, x.part3);
    put_part(out, c, t, f, s, h, x, x.part4)
}

// The name p, which runs to the line's end.
fn put_name(out: &mut [u8], at: usize, t: Telling, f: &[u8], s: &[u8], h: Here, p: Span) -> usize
    requires s_in_bounds { h.start + length s.now ≤ length f.now }
    requires within { Within s.now p }
    ensures { Counted out.old at (listed t f.now (name_warned h.line (line_of h.start s.now) p)) out.new result }
{
    if p.len < 35 {
        return at;
    }
    put_cut(
        out,
        at,
        t,
        f,
        1013,
        h.line,
        h.start + p.at,
        s.len() - p.at,
        41,
    )
}

// The parts and the name behind them.
fn put_texts(out: &mut [u8], at: usize, t: Telling, f: &[u8], s: &[u8], h: Here, x: Spans) -> usize
    requires s_in_bounds { h.start + length s.now ≤ length f.now }
    requires held { Held s.now x }
    ensures { Counted out.old at (listed t f.now (texts_warned t.sheet.text h.line (line_of h.start s.now) x)) out.new result }
{
    let d = put_parts(out, at, t, f, s, h, x);
    put_name(out, d, t, f, s, h, x.name)
}

// ---- the whole line

// What the line s warns of, from left to right.
fn put_warnings(
    out: &mut [u8],
    at: usize,
    t: Telling,
    f: &[u8],
    s: &[u8],
    h: Here,
    single: bool,
) -> usize
    requires sane { Sane t.sheet }
    requires s_in_bounds { h.start + length s.now ≤ length f.now }
    requires s_value { is_said (read_item t.sheet any_bank single s.now) ≡ true }
    ensures { Counted out.old at (listed t f.now (item_warned t.sheet t.today h.line (line_of h.start s.now) single)) out.new result }
{
    let x = take_item(s, t.sheet, single);
    let d = put_priority(out, at, t, f, s, h, bank_place(s, single));
    put_texts(out, d, t, f, s, h, x.texts)
}

// What the item's line warns of, from left to right: K's priority digit at the bank field, each part that is cut, the name that is.
pub fn put_item(
    out: &mut [u8],
    at: usize,
    t: Telling,
    f: &[u8],
    line: u64,
    start: usize,
    stop: usize,
    single: bool,
) -> usize
    requires sane { Sane t.sheet }
    requires start_le_stop { (start ≤ stop) × (stop ≤ length f.now) }
    requires f_value { is_said (read_item t.sheet any_bank single (take (stop - start) (drop start f.now))) ≡ true }
    ensures { Counted out.old at (listed t f.now (item_warned t.sheet t.today line (line_of start (take (stop - start) (drop start f.now))) single)) out.new result }
{
    put_warnings(out, at, t, f, &f[start..stop], Here { line, start }, single)
}
