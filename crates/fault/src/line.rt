// The lines of an account file and of a group walked from their left: the first field whose rules are broken, or the line's form.
ghost use Rattle.std.specs.Prelude.{◌≡◌, List, true, ℕ, ◌≤◌, ◌<◌, length, drop};
ghost use Rattle.paper.specs.Days.{real_day};
ghost use Rattle.paper.specs.Batch.{Header};
ghost use Rattle.paper.specs.GroupLine.{has_payer};
ghost use Rattle.paper.specs.Spells.{Context, after};
ghost use Rattle.fileline.specs.seen.Bits.{Holds};
ghost use Rattle.why.specs.Walk.{why_file, why_total, why_group};
ghost use Rattle.fault.specs.line.Walks.{walk, stop, in_line, to_next};
ghost use Rattle.fault.specs.line.Stages.{from_code, from_number, from_day, from_payer};

use crate::field::Broken;
use fileline::seen::Seen;
use sheet::Sheet;

// A line's first fault: the refusal's number, the cause, the offset in the line, how many bytes were found there, the field, and from what to
// what was allowed.
#[derive(Clone, Copy)]
pub struct Fault {
    pub number: u64,
    pub cause: u64,
    pub offset: usize,
    pub length: usize,
    pub field: u64,
    pub least: u64,
    pub most: u64,
}

// A field that broke a rule.
pub fn stopped(
    number: u64,
    cause: u64,
    offset: usize,
    length: usize,
    field: u64,
    least: u64,
    most: u64,
) -> Fault
    ensures { result ≡ stop number cause offset length field least most }
{
    Fault {
        number,
        cause,
        offset,
        length,
        field,
        least,
        most,
    }
}

// 4 for the line's form.
pub fn malformed(cause: u64, offset: usize, length: usize, field: u64) -> Fault
    ensures { result ≡ stop 4 cause offset length field 0 0 }
{
    stopped(4, cause, offset, length, field, 0, 0)
}

// What is told of the field of that number, which stands at `offset` in `length` bytes: a rule that it breaks is the line's fault.
pub fn in_line(
    ruling: Result<(), Broken>,
    offset: usize,
    length: usize,
    field: u64,
) -> Result<(), Fault>
    ensures { result ≡ in_line ruling offset length field }
{
    match ruling {
        Ok(()) => Ok(()),
        Err(rule) => Err(Fault {
            number: rule.number,
            cause: rule.cause,
            offset,
            length,
            field,
            least: rule.least,
            most: rule.most,
        }),
    }
}

// Where the next field begins behind the field of that number, which stands from `at` to `end` in a line of n bytes: behind a space. A rule that
// the field breaks is the line's fault, and so is the end of the line.
pub fn to_next(
    n: usize,
    ruling: Result<(), Broken>,
    at: usize,
    end: usize,
    field: u64,
) -> Result<usize, Fault>
    requires { (at ≤ end) × (field < 100) }
    ensures { result ≡ to_next n ruling at end field }
{
    in_line(ruling, at, end - at, field)?;
    if end < n {
        return Ok(end + 1);
    }
    Err(malformed(41, end, 0, field + 1))
}

// ---- an account file's line

// BANK, and nothing behind it.
fn walk_code(s: &[u8], at: usize, sh: Sheet) -> Result<(), Fault>
    requires { at ≤ length s.now }
    ensures { (today : ℕ) (c : Context) → result ≡ walk (from_code sh today c s.now at (drop at s.now)) }
{
    let end = scan::line::field_end(s, at);
    in_line(crate::field::check_code(&s[at..end], sh), at, end - at, 12)?;
    if end < s.len() {
        return Err(malformed(42, end, s.len() - end, 12));
    }
    Ok(())
}

// NUMBER and what follows it.
fn walk_number(s: &[u8], at: usize, sh: Sheet, from: u64, to: u64, seen: Seen) -> Result<(), Fault>
    requires { at ≤ length s.now }
    ensures { (today : ℕ) (c : Context) (h : Header) (l : List ℕ) → c.numbers ≡ after h l → Holds seen.words l → h.from ≡ from → h.to ≡ to → result ≡ walk (from_number sh today c s.now at (drop at s.now)) }
{
    let end = scan::line::field_end(s, at);
    let ruling = crate::field::check_number(&s[at..end], sh.interval, from, to, seen);
    let next = to_next(s.len(), ruling, at, end, 11)?;
    walk_code(s, next, sh)
}

// `1 KIND NUMBER BANK`, of a line that begins so.
pub fn walk_file(s: &[u8], sh: Sheet, from: u64, to: u64, seen: Seen) -> Result<(), Fault>
    requires { 2 ≤ length s.now }
    ensures { (today : ℕ) (c : Context) (h : Header) (l : List ℕ) → c.numbers ≡ after h l → Holds seen.words l → h.from ≡ from → h.to ≡ to → result ≡ walk (why_file sh today c s.now) }
{
    let end = scan::line::field_end(s, 2);
    let ruling = crate::field::check_kind(&s[2..end], sh);
    let next = to_next(s.len(), ruling, 2, end, 10)?;
    walk_number(s, next, sh, from, to, seen)
}

// ---- a group's line

// DATE, in an account file of that kind, and nothing behind it.
fn walk_day(s: &[u8], at: usize, sh: Sheet, today: u64, kind: u64) -> Result<(), Fault>
    requires at_in_bounds { at ≤ length s.now }
    requires today_value { real_day today ≡ true }
    ensures { (c : Context) → c.kind ≡ kind → result ≡ walk (from_day sh today c s.now at (drop at s.now)) }
{
    let end = scan::line::field_end(s, at);
    let ruling = crate::due::check_due(
        &s[at..end],
        sh.longdate,
        calendar::term::day_here(sh, kind),
        sh.early,
        sh.ahead,
        today,
    );
    in_line(ruling, at, end - at, 22)?;
    if end < s.len() {
        return Err(malformed(42, end, s.len() - end, 22));
    }
    Ok(())
}

// TOTAL and what follows it.
fn walk_total(s: &[u8], at: usize, sh: Sheet, today: u64, kind: u64) -> Result<(), Fault>
    requires at_in_bounds { at ≤ length s.now }
    requires today_value { real_day today ≡ true }
    ensures { (c : Context) → c.kind ≡ kind → result ≡ walk (why_total sh today c s.now at (drop at s.now)) }
{
    let end = scan::line::field_end(s, at);
    let ruling = crate::field::check_total(&s[at..end], sh.comma);
    let next = to_next(s.len(), ruling, at, end, 21)?;
    walk_day(s, next, sh, today, kind)
}

// Whether the line has its payer's field: always (`always`), or where it has three spaces or more.
fn has_payer(s: &[u8], always: bool) -> bool
    ensures { result ≡ has_payer always s.now }
{
    if always {
        return true;
    }
    3 <= scan::line::spaces(s)
}

// The payer's account of a group, and what follows it.
fn walk_payer(s: &[u8], sh: Sheet, today: u64, kind: u64) -> Result<(), Fault>
    requires in_bounds { 2 ≤ length s.now }
    requires today_value { real_day today ≡ true }
    ensures { (c : Context) → c.kind ≡ kind → result ≡ walk (from_payer sh today c s.now 2 (drop 2 s.now)) }
{
    let end = scan::line::field_end(s, 2);
    let ruling = crate::accounts::check_payer(
        &s[2..end],
        sh.emptypayer,
        sh.zeropayer,
        sh.joined,
        sh.basemin,
    );
    let next = to_next(s.len(), ruling, 2, end, 20)?;
    walk_total(s, next, sh, today, kind)
}

// `2 TOTAL DATE`, or with the payer's account before TOTAL, of a line that begins so.
pub fn walk_group(s: &[u8], sh: Sheet, today: u64, kind: u64) -> Result<(), Fault>
    requires in_bounds { 2 ≤ length s.now }
    requires today_value { real_day today ≡ true }
    ensures { (c : Context) → c.kind ≡ kind → result ≡ walk (why_group sh today c s.now) }
{
    if has_payer(s, sh.emptypayer) {
        return walk_payer(s, sh, today, kind);
    }
    walk_total(s, 2, sh, today, kind)
}
