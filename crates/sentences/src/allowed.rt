// What was allowed, in words, by the cause of a refusal: counted, and put where they have room.
ghost use Rattle.std.specs.Prelude.{◌++◌, eqb};
ghost use Rattle.base.specs.Pick.{pick};
ghost use Rattle.paper.specs.Bytes.{bytes};
ghost use Rattle.numeral.specs.counted.Counted.{Counted};
ghost use Rattle.sentences.specs.Phrases.{said, fields};
ghost use Rattle.sentences.specs.Allowed.{dated, numbered, from_day, at_most, allowed_count, allowed_day, allowed_number, allowed};

use crate::figures::{
    put_and_date, put_and_number, put_at_most, put_fixed, put_from_day, put_numbered, put_ranged,
};
use numeral::counted::put_bytes;
use sheet::Sheet;

// ---- one cause

// 41: a field behind a space.
fn put_behind(out: &mut [u8], at: usize, field: u64) -> usize
    ensures { Counted out.old at (bytes "a space and " ++ (said fields field ++ bytes " behind it")) out.new result }
{
    let d = put_bytes(out, at, b"a space and ");
    let e = crate::phrases::put_field(out, d, field);
    put_bytes(out, e, b" behind it")
}

// 91: an interval, which first digits lie in.
fn put_first_digits(out: &mut [u8], at: usize, a: u64, b: u64) -> usize
    ensures { Counted out.old at (bytes "first three digits " ++ numbered a b) out.new result }
{
    let e = put_bytes(out, at, b"first three digits ");
    put_numbered(out, e, a, b)
}

// 112: at most so many days after today.
fn put_days_after(out: &mut [u8], at: usize, today: u64, days: u64) -> usize
    ensures { Counted out.old at (at_most days (bytes " days after " ++ dated today)) out.new result }
{
    let e = put_and_number(out, at, b"at most ", days);
    put_and_date(out, e, b" days after ", today)
}

// 113: from today on, or after it.
fn put_from_or_after(out: &mut [u8], at: usize, today: u64, most: u64) -> usize
    ensures { Counted out.old at (pick (eqb most 0) (from_day today) (bytes "after " ++ dated today)) out.new result }
{
    if most == 0 {
        return put_from_day(out, at, today);
    }
    put_and_date(out, at, b"after ", today)
}

// ---- by the cause

// 141 to 152: how many; any other cause in words alone.
fn put_allowed_count(out: &mut [u8], at: usize, cause: u64, a: u64, b: u64) -> usize
    ensures { Counted out.old at (allowed_count cause a b) out.new result }
{
    match cause {
        141 => put_at_most(out, at, a, b" parts"),
        142 => put_at_most(out, at, b, b" bytes in a part"),
        150 => put_at_most(out, at, b, b" account files"),
        151 => put_at_most(out, at, b, b" items in an account file"),
        152 => put_at_most(out, at, b, b" items in a file"),
        _ => crate::phrases::put_plainly(out, at, cause),
    }
}

// 111 to 114: which days; any other cause as above.
fn put_allowed_day(out: &mut [u8], at: usize, today: u64, cause: u64, a: u64, b: u64) -> usize
    ensures { Counted out.old at (allowed_day today cause a b) out.new result }
{
    match cause {
        111 => put_from_day(out, at, today),
        112 => put_days_after(out, at, today, b),
        113 => put_from_or_after(out, at, today, b),
        114 => put_and_date(out, at, b"at most one month after ", today),
        _ => put_allowed_count(out, at, cause, a, b),
    }
}

// 60 to 101: which numbers and sums; any other cause as above.
fn put_allowed_number(out: &mut [u8], at: usize, today: u64, cause: u64, a: u64, b: u64) -> usize
    ensures { Counted out.old at (allowed_number today cause a b) out.new result }
{
    match cause {
        60 => put_ranged(out, at, a, b),
        61 => put_ranged(out, at, a, b),
        70 => put_ranged(out, at, a, b),
        80 => put_fixed(out, at, 4, a),
        90 => put_numbered(out, at, a, b),
        91 => put_first_digits(out, at, a, b),
        100 => put_and_number(out, at, b"the sum of the items, ", a),
        101 => put_and_number(out, at, b"a sum of at most ", b),
        _ => put_allowed_day(out, at, today, cause, a, b),
    }
}

// What was allowed on the sheet on a day, from `a` to `b`.
pub fn put_allowed(
    out: &mut [u8],
    at: usize,
    sh: Sheet,
    today: u64,
    cause: u64,
    field: u64,
    a: u64,
    b: u64,
) -> usize
    ensures { Counted out.old at (allowed sh today cause field a b) out.new result }
{
    match cause {
        40 => crate::spelled::put_spelled(out, at, sh, field),
        41 => put_behind(out, at, field),
        43 => crate::spelled::put_closing(out, at, sh.near, field),
        _ => put_allowed_number(out, at, today, cause, a, b),
    }
}
