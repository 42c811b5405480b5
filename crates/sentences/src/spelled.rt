// How a field is spelled on a sheet, in words: counted, and put where they have room.
ghost use Rattle.std.specs.Prelude.{◌≡◌, [], ◌++◌};
ghost use Rattle.base.specs.Pick.{pick};
ghost use Rattle.numeral.specs.counted.Counted.{Counted};
ghost use Rattle.sentences.specs.Phrases.{said};
ghost use Rattle.sentences.specs.Allowed.{some_digits, spellings, spelled_account, single_words, spelled_payer, spelled_amount, spelled_text, spelled_rest, spelled_due, spelled_as, closing_words};

use crate::figures::put_some_digits;
use numeral::counted::put_bytes;
use sheet::Sheet;

// ---- by an answer of the sheet

// One of two numbers.
fn one_of(yes: bool, a: u64, b: u64) -> u64
    ensures { result ≡ pick yes a b }
{
    if yes {
        return a;
    }
    b
}

// One of two texts.
fn put_one_of(out: &mut [u8], at: usize, yes: bool, a: &[u8], b: &[u8]) -> usize
    ensures { Counted out.old at (pick yes a.now b.now) out.new result }
{
    if yes {
        return put_bytes(out, at, a);
    }
    put_bytes(out, at, b)
}

// A text, or nothing.
fn put_if(out: &mut [u8], at: usize, yes: bool, text: &[u8]) -> usize
    ensures { Counted out.old at (pick yes text.now []) out.new result }
{
    if yes {
        return put_bytes(out, at, text);
    }
    at
}

// A text, and one behind it or nothing.
fn put_and_if(out: &mut [u8], at: usize, text: &[u8], yes: bool, more: &[u8]) -> usize
    ensures { Counted out.old at (text.now ++ pick yes more.now []) out.new result }
{
    let e = put_bytes(out, at, text);
    put_if(out, e, yes, more)
}

// ---- a field

// The digits of an account with no dash.
fn put_account_digits(out: &mut [u8], at: usize, sh: Sheet) -> usize
    ensures { Counted out.old at (some_digits sh.basemin (pick sh.joined 16 10)) out.new result }
{
    let most = one_of(sh.joined, 16, 10);
    put_some_digits(out, at, sh.basemin as u64, most)
}

// An account.
fn put_account(out: &mut [u8], at: usize, sh: Sheet) -> usize
    ensures { Counted out.old at (spelled_account sh) out.new result }
{
    let d = put_account_digits(out, at, sh);
    let e = put_bytes(out, d, b", or 1 to 6 digits, a dash and ");
    put_some_digits(out, e, sh.basemin as u64, 10)
}

// What makes a group single.
fn put_single(out: &mut [u8], at: usize, empty: bool, zeros: bool) -> usize
    ensures { Counted out.old at (single_words empty zeros) out.new result }
{
    if empty {
        let both = b"; nothing or zeros alone for a single group";
        return put_one_of(out, at, zeros, both, b"; nothing for a single group");
    }
    put_if(out, at, zeros, b"; zeros alone for a single group")
}

// A group's payer.
fn put_payer(out: &mut [u8], at: usize, sh: Sheet) -> usize
    ensures { Counted out.old at (spelled_payer sh) out.new result }
{
    let e = put_account(out, at, sh);
    put_single(out, e, sh.emptypayer, sh.zeropayer)
}

// An amount of at most so many digits.
fn put_amount(out: &mut [u8], at: usize, sh: Sheet, most: u64) -> usize
    ensures { Counted out.old at (spelled_amount sh most) out.new result }
{
    if sh.comma {
        return put_bytes(
            out,
            at,
            b"1 to 14 bytes: digits, and where there is a comma, two digits behind it and one or more before it",
        );
    }
    put_some_digits(out, at, 1, most)
}

// An item's text.
fn put_text(out: &mut [u8], at: usize, sh: Sheet) -> usize
    ensures { Counted out.old at (spelled_text sh) out.new result }
{
    if sh.bare {
        return put_bytes(
            out,
            at,
            b"1 to 10 digits, or text bytes, 32 to 255 but 127, the first no space",
        );
    }
    if sh.text.av {
        return put_bytes(
            out,
            at,
            b"text bytes, 32 to 255 but 127, one or more, the first no space",
        );
    }
    put_bytes(out, at, b"text bytes, 32 to 255 but 127")
}

// The first line's rest.
fn put_rest(out: &mut [u8], at: usize, short: bool) -> usize
    ensures { Counted out.old at (spelled_rest short) out.new result }
{
    put_one_of(
        out,
        at,
        short,
        b"0 or 6 or 12 bytes of text",
        b"12 bytes of text",
    )
}

// A due date.
fn put_due(out: &mut [u8], at: usize, long: bool) -> usize
    ensures { Counted out.old at (spelled_due long) out.new result }
{
    put_and_if(
        out,
        at,
        b"six digits, DDMMRR",
        long,
        b", or eight, RRRRMMDD",
    )
}

// A specific symbol, which may be empty where its spaces always stand.
fn put_symbol(out: &mut [u8], at: usize, fixed: bool) -> usize
    ensures { Counted out.old at (some_digits (pick fixed 0 1) 10) out.new result }
{
    let least = one_of(fixed, 0, 1);
    put_some_digits(out, at, least, 10)
}

// The fields that are spelled the same on every sheet.
static SPELLINGS: [(u64, &[u8]); 10] = [
    (1, b"six digits, DDMMRR"),
    (2, b"20 bytes of text"),
    (3, b"ten digits"),
    (4, b"three digits"),
    (5, b"three digits"),
    (10, b"four digits"),
    (11, b"six digits"),
    (12, b"four digits"),
    (33, b"1 to 10 digits"),
    (34, b"8 to 10 digits"),
];

// The words for one of them.
fn put_spelling(out: &mut [u8], at: usize, field: u64) -> usize
    ensures { Counted out.old at (said spellings field) out.new result }
{
    crate::phrases::put_said(out, at, &SPELLINGS, field)
}

// ---- all of them

// How the field is spelled.
pub fn put_spelled(out: &mut [u8], at: usize, sh: Sheet, field: u64) -> usize
    ensures { Counted out.old at (spelled_as sh field) out.new result }
{
    match field {
        6 => put_rest(out, at, sh.short),
        20 => put_payer(out, at, sh),
        21 => put_amount(out, at, sh, 14),
        22 => put_due(out, at, sh.longdate),
        30 => put_account(out, at, sh),
        31 => put_account(out, at, sh),
        32 => put_amount(out, at, sh, sh.itemdigits as u64),
        35 => put_symbol(out, at, sh.fixedtail),
        36 => put_text(out, at, sh),
        _ => put_spelling(out, at, field),
    }
}

// The lines that close.
pub fn put_closing(out: &mut [u8], at: usize, near: bool, field: u64) -> usize
    ensures { Counted out.old at (closing_words near field) out.new result }
{
    if field == 50 {
        return put_and_if(out, at, b"3 +", near, b" or 3+");
    }
    put_and_if(out, at, b"5 +", near, b" or 5+")
}
