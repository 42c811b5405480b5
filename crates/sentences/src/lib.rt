// What is found in a file, in sentences for people: counted, and put where they have room.
#![tactic(auto)]

pub mod allowed;
pub mod figures;
pub mod found;
pub mod phrases;
pub mod quoted;
pub mod spelled;

ghost use Rattle.std.specs.Prelude.{◌++◌, eqb};
ghost use Rattle.base.specs.Pick.{pick};
ghost use Rattle.paper.specs.Bytes.{bytes};
ghost use Rattle.paper.specs.Numerals.{decimal};
ghost use Rattle.numeral.specs.counted.Counted.{Counted};
ghost use Rattle.sentences.specs.Phrases.{said, fields};
ghost use Rattle.sentences.specs.Sentences.{place_words, found_words, allowed_words, refusal_words, warning, warning_words, sentence};

use crate::figures::{put_and_date, put_and_number};
use crate::found::put_and_found;
use numeral::counted::put_bytes;
use sheet::Sheet;
use why::Finding;

// ---- where it is

// A field, behind the line and the byte.
fn put_in_field(out: &mut [u8], at: usize, field: u64) -> usize
    ensures { Counted out.old at (bytes ", " ++ (said fields field ++ bytes ": ")) out.new result }
{
    let d = put_bytes(out, at, b", ");
    let e = crate::phrases::put_field(out, d, field);
    put_bytes(out, e, b": ")
}

// The line, the byte and the field.
fn put_place(out: &mut [u8], at: usize, line: u64, byte: u64, field: u64) -> usize
    ensures { Counted out.old at (place_words line byte field) out.new result }
{
    let d = put_and_number(out, at, b"Line ", line);
    let e = put_and_number(out, d, b", byte ", byte);
    put_in_field(out, e, field)
}

// ---- a refusal

// What was allowed instead.
fn put_instead(out: &mut [u8], at: usize, sh: Sheet, today: u64, x: Finding) -> usize
    ensures { Counted out.old at (allowed_words sh today x) out.new result }
{
    let d = put_bytes(out, at, b"; allowed: ");
    let e = crate::allowed::put_allowed(out, d, sh, today, x.cause, x.field, x.least, x.most);
    put_bytes(out, e, b".\n")
}

// What was found and what was allowed, behind the number.
fn put_reason(out: &mut [u8], at: usize, sh: Sheet, today: u64, f: &[u8], x: Finding) -> usize
    ensures { Counted out.old at (bytes "); found " ++ (found_words f.now x.number x.byte x.length ++ allowed_words sh today x)) out.new result }
{
    let e = put_and_found(out, at, b"); found ", f, x.number, x.byte, x.length);
    put_instead(out, e, sh, today, x)
}

// The rule that it goes by, what was found, and what was allowed.
fn put_refusal(out: &mut [u8], at: usize, sh: Sheet, today: u64, f: &[u8], x: Finding) -> usize
    ensures { Counted out.old at (refusal_words sh today f.now x) out.new result }
{
    let d = crate::phrases::put_rule(out, at, x.number);
    let e = put_and_number(out, d, b" (", x.number);
    put_reason(out, e, sh, today, f, x)
}

// ---- a warning

// A priority, read as another.
fn put_priority(out: &mut [u8], at: usize, a: u64, b: u64) -> usize
    ensures { Counted out.old at (bytes "priority " ++ (decimal a ++ (bytes " is read as " ++ decimal b))) out.new result }
{
    let e = put_and_number(out, at, b"priority ", a);
    put_and_number(out, e, b" is read as ", b)
}

// A text that is cut.
fn put_cut(out: &mut [u8], at: usize, n: u64) -> usize
    ensures { Counted out.old at (bytes "cut to " ++ (decimal n ++ bytes " bytes")) out.new result }
{
    let e = put_and_number(out, at, b"cut to ", n);
    put_bytes(out, e, b" bytes")
}

// What is warned of.
fn put_warned(out: &mut [u8], at: usize, cause: u64, a: u64, b: u64) -> usize
    ensures { Counted out.old at (warning cause a b) out.new result }
{
    match cause {
        1010 => put_and_number(out, at, b"the total is not the sum of the items, ", a),
        1011 => put_and_date(out, at, b"the day is before ", a),
        1014 => put_priority(out, at, a, b),
        _ => put_cut(out, at, b),
    }
}

// .. and what was found.
fn put_warning(out: &mut [u8], at: usize, f: &[u8], x: Finding) -> usize
    ensures { Counted out.old at (warning_words f.now x) out.new result }
{
    let d = put_warned(out, at, x.cause, x.least, x.most);
    let e = put_and_found(out, d, b"; found ", f, x.number, x.byte, x.length);
    put_bytes(out, e, b".\n")
}

// ---- either

// What it is, behind its place.
fn put_told(out: &mut [u8], at: usize, sh: Sheet, today: u64, f: &[u8], x: Finding) -> usize
    ensures { Counted out.old at (pick (eqb x.number 0) (warning_words f.now x) (refusal_words sh today f.now x)) out.new result }
{
    if x.number == 0 {
        return put_warning(out, at, f, x);
    }
    put_refusal(out, at, sh, today, f, x)
}

// A finding in the file f, in a sentence that ends with LF.
pub fn put_sentence(out: &mut [u8], at: usize, sh: Sheet, today: u64, f: &[u8], x: Finding) -> usize
    ensures { Counted out.old at (sentence sh today f.now x) out.new result }
{
    let e = put_place(out, at, x.line, x.byte, x.field);
    put_told(out, e, sh, today, f, x)
}
