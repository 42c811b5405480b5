// One lent row, decoded: its words as numbers, its texts as places in the lent texts.
ghost use Rattle.std.specs.Prelude.{◌≡◌, List, ℕ, ◌+◌, ◌≤◌, leb, length, drop};
ghost use Rattle.paper.specs.Batch.{strange};
ghost use Rattle.paper.specs.Words.{words};
ghost use Rattle.paper.specs.Rows.{thing_in};
ghost use Rattle.rows.specs.read.Told.{told, told_row, span_here, sides_here, symbols_here, texts_here, item_with, item_here};

use text::span::Span;

// An item's row. No payer is prefix and base 0; the texts may lie outside what was lent. The reference is the caller's own, and no item's.
#[derive(Clone, Copy)]
pub struct ItemRow {
    pub payerprefix: u64,
    pub payerbase: u64,
    pub payeeprefix: u64,
    pub payeebase: u64,
    pub bank: u64,
    pub amount: u64,
    pub variable: u64,
    pub specific: u64,
    pub constant: u64,
    pub priority: u64,
    pub part1: Span,
    pub part2: Span,
    pub part3: Span,
    pub part4: Span,
    pub name: Span,
    pub reference: u64,
}

// An item's row in the order of its words, but for the last, its reference: who pays whom how much; the symbols; the texts.
#[derive(Clone, Copy)]
pub struct Sides {
    pub payerprefix: u64,
    pub payerbase: u64,
    pub payeeprefix: u64,
    pub payeebase: u64,
    pub bank: u64,
    pub amount: u64,
}

#[derive(Clone, Copy)]
pub struct Symbols {
    pub variable: u64,
    pub specific: u64,
    pub constant: u64,
    pub priority: u64,
}

#[derive(Clone, Copy)]
pub struct Texts {
    pub part1: Span,
    pub part2: Span,
    pub part3: Span,
    pub part4: Span,
    pub name: Span,
}

// A row: an account file's, a group's with its due date and its payer's prefix and base, or an item's.
#[derive(Clone, Copy)]
pub enum Row {
    File { kind: u64, number: u64 },
    Group { date: u64, prefix: u64, base: u64 },
    Item(ItemRow),
}

// Does a text lie inside what was lent? Place and length may be as large as a word, so they are not added.
pub fn lies(texts: &[u8], p: Span) -> bool
    ensures { result ≡ leb (p.at + p.len) (length texts.now) }
{
    let n = texts.len();
    let len = p.len;
    if n < len {
        return false;
    }
    p.at <= n - len
}

// The text whose place and length are the two words at `at`.
fn span_at(rows: &[u8], at: usize) -> Span
    requires { at + 16 ≤ length rows.now }
    ensures { result ≡ span_here rows.now at }
{
    let place = out::word::word_at(rows, at) as usize;
    let len = out::word::word_at(rows, at + 8) as usize;
    Span { at: place, len }
}

// The words of its accounts, its bank and its amount.
fn sides_at(rows: &[u8], at: usize) -> Sides
    requires { at + 192 ≤ length rows.now }
    ensures { result ≡ sides_here rows.now at }
{
    Sides {
        payerprefix: out::word::word_at(rows, at + 8),
        payerbase: out::word::word_at(rows, at + 16),
        payeeprefix: out::word::word_at(rows, at + 24),
        payeebase: out::word::word_at(rows, at + 32),
        bank: out::word::word_at(rows, at + 40),
        amount: out::word::word_at(rows, at + 48),
    }
}

// The words of its symbols and its priority.
fn symbols_at(rows: &[u8], at: usize) -> Symbols
    requires { at + 192 ≤ length rows.now }
    ensures { result ≡ symbols_here rows.now at }
{
    Symbols {
        variable: out::word::word_at(rows, at + 56),
        specific: out::word::word_at(rows, at + 64),
        constant: out::word::word_at(rows, at + 72),
        priority: out::word::word_at(rows, at + 80),
    }
}

// The places of its texts.
fn texts_at(rows: &[u8], at: usize) -> Texts
    requires { at + 192 ≤ length rows.now }
    ensures { result ≡ texts_here rows.now at }
{
    Texts {
        part1: span_at(rows, at + 88),
        part2: span_at(rows, at + 104),
        part3: span_at(rows, at + 120),
        part4: span_at(rows, at + 136),
        name: span_at(rows, at + 152),
    }
}

// The item with these words.
fn item_with(w: Sides, y: Symbols, t: Texts, reference: u64) -> ItemRow
    ensures { result ≡ item_with w y t reference }
{
    let part1 = t.part1;
    let part2 = t.part2;
    let part3 = t.part3;
    let part4 = t.part4;
    let name = t.name;
    ItemRow {
        payerprefix: w.payerprefix,
        payerbase: w.payerbase,
        payeeprefix: w.payeeprefix,
        payeebase: w.payeebase,
        bank: w.bank,
        amount: w.amount,
        variable: y.variable,
        specific: y.specific,
        constant: y.constant,
        priority: y.priority,
        part1,
        part2,
        part3,
        part4,
        name,
        reference,
    }
}

// The item whose row begins at `at`.
fn item_at(rows: &[u8], at: usize) -> ItemRow
    requires { at + 192 ≤ length rows.now }
    ensures { result ≡ item_here rows.now at }
{
    let reference = out::word::word_at(rows, at + 168);
    item_with(
        sides_at(rows, at),
        symbols_at(rows, at),
        texts_at(rows, at),
        reference,
    )
}

// The row that begins at `at`, if it is of a known kind.
pub fn read_row(rows: &[u8], at: usize) -> Option<Row>
    requires { at + 192 ≤ length rows.now }
    ensures { (t : List ℕ) → told t result ≡ thing_in t (words 24 (drop at rows.now)) }
{
    let kind = out::word::word_at(rows, at);
    if kind == 3 {
        return Some(Row::Item(item_at(rows, at)));
    }
    if kind == 2 {
        return Some(Row::Group {
            date: out::word::word_at(rows, at + 8),
            prefix: out::word::word_at(rows, at + 16),
            base: out::word::word_at(rows, at + 24),
        });
    }
    if kind == 1 {
        return Some(Row::File {
            kind: out::word::word_at(rows, at + 8),
            number: out::word::word_at(rows, at + 16),
        });
    }
    None
}

// The row that begins at `at`, where it was judged before and so is of a known kind: what is neither an item nor a group is an account file.
pub fn take_row(rows: &[u8], at: usize) -> Row
    requires { at + 192 ≤ length rows.now }
    ensures { (t : List ℕ) → (thing_in t (words 24 (drop at rows.now)) ≡ strange → ⊥) → told_row t result ≡ thing_in t (words 24 (drop at rows.now)) }
{
    let kind = out::word::word_at(rows, at);
    if kind == 3 {
        return Row::Item(item_at(rows, at));
    }
    if kind == 2 {
        return Row::Group {
            date: out::word::word_at(rows, at + 8),
            prefix: out::word::word_at(rows, at + 16),
            base: out::word::word_at(rows, at + 24),
        };
    }
    Row::File {
        kind: out::word::word_at(rows, at + 8),
        number: out::word::word_at(rows, at + 16),
    }
}
