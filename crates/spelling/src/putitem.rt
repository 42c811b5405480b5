// An item's line, put into the output with CR LF behind it.
ghost use Rattle.std.specs.Prelude.{◌≡◌, false, [], ◌∷◌, ◌++◌, ◌+◌, ◌≤◌, eqb, length};
ghost use Rattle.base.specs.Pick.{pick};
ghost use Rattle.base.specs.Put.{Wrote};
ghost use Rattle.paper.specs.Numerals.{decimal};
ghost use Rattle.paper.specs.Texts.{no_text};
ghost use Rattle.paper.specs.ItemLine.{spell_tail, spell_item};
ghost use Rattle.text.specs.extent.Four.{four};
ghost use Rattle.rows.specs.read.Sized.{Sized};
ghost use Rattle.rows.specs.read.Told.{item_of};
ghost use Rattle.spelling.specs.itemlen.Front.{front};

use rows::read::ItemRow;
use sheet::Sheet;

// Writes two numbers, each with a space behind it.
fn two_numbers(out: &mut [u8], at: usize, m: u64, n: u64) -> usize
    requires { at + length ((decimal m ++ (32 ∷ [])) ++ (decimal n ++ (32 ∷ []))) ≤ length out.old }
    ensures { Wrote out.old at ((decimal m ++ (32 ∷ [])) ++ (decimal n ++ (32 ∷ []))) out.new result }
{
    let e = crate::putlines::number_space(out, at, m);
    crate::putlines::number_space(out, e, n)
}

// Writes the line up to the bank field.
fn put_front(out: &mut [u8], at: usize, x: ItemRow) -> usize
    requires x_in_bounds { at + length (front x) ≤ length out.old }
    requires bank_bound { (x.bank ≤ 9999) × (x.constant ≤ 9999) × (x.priority ≤ 9) }
    ensures { Wrote out.old at (front x) out.new result }
{
    let e = crate::putlines::put_payer(out, at, false, x.payerprefix, x.payerbase);
    let f = crate::putlines::account_space(out, e, x.payeeprefix, x.payeebase);
    let g = two_numbers(out, f, x.amount, x.variable);
    bank::put_bank(out, g, x.bank, x.constant, x.priority)
}

// Writes the specific symbol between its spaces, if it is not `hidden`.
fn put_symbol(out: &mut [u8], at: usize, hidden: bool, n: u64) -> usize
    requires { at + length (32 ∷ (pick hidden [] (decimal n) ++ (32 ∷ []))) ≤ length out.old }
    ensures { Wrote out.old at (32 ∷ (pick hidden [] (decimal n) ++ (32 ∷ []))) out.new result }
{
    if hidden {
        return out::put::put_bytes(out, at, b"  ");
    }
    let e = out::put::put_byte(out, at, b' ');
    crate::putlines::number_space(out, e, n)
}

// Writes the symbol where no text follows: nothing if it is 0.
fn put_lone(out: &mut [u8], at: usize, n: u64) -> usize
    requires { at + length (pick (eqb n 0) [] (32 ∷ decimal n)) ≤ length out.old }
    ensures { Wrote out.old at (pick (eqb n 0) [] (32 ∷ decimal n)) out.new result }
{
    if n == 0 {
        return at;
    }
    let e = out::put::put_byte(out, at, b' ');
    numeral::put_number(out, e, n)
}

// Is the symbol left out where a text follows? On sheets whose tail is fixed, if it is 0.
fn left_out(fixed: bool, n: u64) -> bool
    ensures { result ≡ pick fixed (eqb n 0) false }
{
    if fixed {
        return n == 0;
    }
    false
}

// Does no text follow the symbol? On sheets whose tail is fixed, one always does.
fn textless(fixed: bool, a: &[u8], b: &[u8], c: &[u8], d: &[u8], n: &[u8]) -> bool
    ensures { result ≡ pick fixed false (no_text (four a.now b.now c.now d.now) n.now) }
{
    if fixed {
        return false;
    }
    text::extent::no_text(a, b, c, d, n)
}

// Writes the tail of an item with these texts.
fn put_tail(
    out: &mut [u8],
    at: usize,
    sh: Sheet,
    specific: u64,
    a: &[u8],
    b: &[u8],
    c: &[u8],
    d: &[u8],
    n: &[u8],
) -> usize
    requires { at + length (spell_tail sh specific (four a.now b.now c.now d.now) n.now) ≤ length out.old }
    ensures { Wrote out.old at (spell_tail sh specific (four a.now b.now c.now d.now) n.now) out.new result }
{
    if textless(sh.fixedtail, a, b, c, d, n) {
        return put_lone(out, at, specific);
    }
    let e = put_symbol(out, at, left_out(sh.fixedtail, specific), specific);
    text::spell::put_text(out, e, sh.text, a, b, c, d, n)
}

// Writes the tail of the row's item, which ends its line.
fn tail_end(out: &mut [u8], at: usize, sh: Sheet, texts: &[u8], x: ItemRow) -> usize
    requires sized { Sized texts.now x }
    requires x_in_bounds { at + length (spell_tail sh x.specific (item_of texts.now x).parts (item_of texts.now x).name ++ (13 ∷ 10 ∷ [])) ≤ length out.old }
    ensures { Wrote out.old at (spell_tail sh x.specific (item_of texts.now x).parts (item_of texts.now x).name ++ (13 ∷ 10 ∷ [])) out.new result }
{
    let a = crate::itemlen::text_of(texts, x.part1);
    let b = crate::itemlen::text_of(texts, x.part2);
    let c = crate::itemlen::text_of(texts, x.part3);
    let d = crate::itemlen::text_of(texts, x.part4);
    let n = crate::itemlen::text_of(texts, x.name);
    let e = put_tail(out, at, sh, x.specific, a, b, c, d, n);
    out::put::put_bytes(out, e, b"\r\n")
}

// Writes the line of the row's item, and returns the next place.
pub fn put_item_line(out: &mut [u8], at: usize, sh: Sheet, texts: &[u8], x: ItemRow) -> usize
    requires sized { Sized texts.now x }
    requires x_in_bounds { at + length (spell_item sh (item_of texts.now x) ++ (13 ∷ 10 ∷ [])) ≤ length out.old }
    ensures { Wrote out.old at (spell_item sh (item_of texts.now x) ++ (13 ∷ 10 ∷ [])) out.new result }
{
    let e = put_front(out, at, x);
    tail_end(out, e, sh, texts, x)
}
