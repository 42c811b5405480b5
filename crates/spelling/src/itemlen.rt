// How many bytes an item's line has, CR LF not counted.
ghost use Rattle.std.specs.Prelude.{◌≡◌, [], ◌∷◌, ◌++◌, ◌≤◌, eqb, length};
ghost use Rattle.base.specs.Pick.{pick};
ghost use Rattle.paper.specs.Numerals.{decimal};
ghost use Rattle.paper.specs.ItemLine.{spell_tail, spell_item};
ghost use Rattle.text.specs.extent.Four.{four};
ghost use Rattle.text.specs.span.Held.{Within};
ghost use Rattle.rows.specs.read.Sized.{Sized};
ghost use Rattle.rows.specs.read.Told.{text_of_span, item_of};
ghost use Rattle.spelling.specs.itemlen.Front.{front};

use rows::read::ItemRow;
use sheet::Sheet;
use text::span::Span;

// From the line's start to the bank field.
fn front_len(x: ItemRow) -> usize
    ensures value { result ≡ length (front x) }
    ensures upper_bound { result ≤ 136 }
{
    let payer = crate::linelen::payer_len(false, x.payerprefix, x.payerbase);
    let payee = crate::linelen::account_space_len(x.payeeprefix, x.payeebase);
    let amount = numeral::width(x.amount) + 1;
    let variable = numeral::width(x.variable) + 1;
    payer + payee + amount + variable + bank::bank_len(x.priority)
}

// The specific symbol between its spaces, if it is not `hidden`.
fn symbol_len(hidden: bool, n: u64) -> usize
    ensures value { result ≡ length (32 ∷ (pick hidden [] (decimal n) ++ (32 ∷ []))) }
    ensures upper_bound { result ≤ 22 }
{
    if hidden {
        return 2;
    }
    2 + numeral::width(n)
}

// The symbol where no text follows: nothing if it is 0.
fn lone_len(n: u64) -> usize
    ensures value { result ≡ length (pick (eqb n 0) [] (32 ∷ decimal n)) }
    ensures upper_bound { result ≤ 21 }
{
    if n == 0 {
        return 0;
    }
    1 + numeral::width(n)
}

// The tail of an item with these texts.
fn tail_len(sh: Sheet, specific: u64, a: &[u8], b: &[u8], c: &[u8], d: &[u8], n: &[u8]) -> usize
    requires a_len_bound { length a.now ≤ 35 }
    requires b_len_bound { length b.now ≤ 35 }
    requires c_len_bound { length c.now ≤ 35 }
    requires d_len_bound { length d.now ≤ 35 }
    requires n_len_bound { length n.now ≤ 35 }
    ensures value { result ≡ length (spell_tail sh specific (four a.now b.now c.now d.now) n.now) }
    ensures upper_bound { result ≤ 222 }
{
    if sh.fixedtail {
        return symbol_len(specific == 0, specific) + text::extent::text_len(sh.text, a, b, c, d, n);
    }
    if text::extent::no_text(a, b, c, d, n) {
        return lone_len(specific);
    }
    symbol_len(false, specific) + text::extent::text_len(sh.text, a, b, c, d, n)
}

// A text of the row.
pub fn text_of(texts: &[u8], p: Span) -> &[u8]
    requires { Within texts.now p }
    ensures result_value { result.now ≡ text_of_span texts.now p }
    ensures result_len { length result.now ≡ p.len }
{
    let from = p.at;
    let to = from + p.len;
    &texts[from..to]
}

// The whole line.
pub fn item_len(sh: Sheet, texts: &[u8], x: ItemRow) -> usize
    requires { Sized texts.now x }
    ensures value { result ≡ length (spell_item sh (item_of texts.now x)) }
    ensures upper_bound { result ≤ 358 }
{
    let a = text_of(texts, x.part1);
    let b = text_of(texts, x.part2);
    let c = text_of(texts, x.part3);
    let d = text_of(texts, x.part4);
    let n = text_of(texts, x.name);
    front_len(x) + tail_len(sh, x.specific, a, b, c, d, n)
}
