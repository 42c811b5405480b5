// The rules of a text, tested in their order over its bytes.
ghost use Rattle.std.specs.Prelude.{◌≡◌, true, false, ◌-◌, ◌≤◌, ltb, leb, length, drop};
ghost use Rattle.base.specs.Pick.{pick};
ghost use Rattle.paper.specs.Bytes.{null};
ghost use Rattle.paper.specs.Texts.{divide, overs};
ghost use Rattle.why.specs.Rule.{first_broken};
ghost use Rattle.why.specs.Texts.{unmarked, is_message, is_name, begins, marked_rules, plain_rules, text_rules};
ghost use Rattle.fault.specs.field.Ruled.{ruling, broken};

use crate::field::{Broken, broke};
use sheet::Style;

// A rule of texts is broken; as many parts as the sheet takes were allowed, of 35 bytes.
fn breaks(cause: u64, y: Style) -> Broken
    ensures { result ≡ broken 14 cause y.most 35 }
{
    Broken {
        number: 14,
        cause,
        least: y.most as u64,
        most: 35,
    }
}

// Whether the bytes are a text's: text bytes, and off S one or more, the first not a space.
fn is_message(f: &[u8], y: Style) -> bool
    ensures { result ≡ is_message y f.now }
{
    if scan::seek::all_text(f, 0) {
        let av = y.av;
        if av {
            return text::opens_at(f, 0);
        }
        return true;
    }
    false
}

// ---- a text that is one part as it stands

// Whether n bytes are no more than `most`, where longer ones are not cut.
fn is_short(n: usize, most: usize, y: Style) -> bool
    ensures { result ≡ pick y.cuts true (leb n most) }
{
    y.cuts || n <= most
}

// Its length, that it holds no `|`, and its bytes.
fn check_plain(f: &[u8], y: Style) -> Result<(), Broken>
    ensures { result ≡ ruling (first_broken (plain_rules y) f.now) }
{
    if is_short(f.len(), 35, y) {
        let at = scan::find::find_byte(f, 0, 124);
        if at < f.len() {
            return Err(breaks(143, y));
        }
        if text::bytes_taken(y, f, 0) {
            return Ok(());
        }
        return Err(breaks(144, y));
    }
    Err(breaks(142, y))
}

// ---- a text with marks

// How many parts a message has, and whether none is longer than 35 bytes.
#[derive(Clone, Copy)]
struct Measure {
    count: usize,
    short: bool,
}

// Whether all was short so far, and n bytes are too.
fn still_short(short: bool, n: usize) -> bool
    ensures { result ≡ pick (ltb 35 n) false short }
{
    if 35 < n {
        return false;
    }
    short
}

// The parts of a message one after the other.
fn measure_parts(m: &[u8]) -> Measure
    ensures count_value { result.count ≡ length (divide 0 m.now) }
    ensures short_value { result.short ≡ null (overs (divide 0 m.now)) }
{
    let mut count: usize = 1;
    let mut short = true;
    let mut from: usize = 0;
    let mut end = scan::find::find_byte(m, 0, 124);
    while end < m.len() {
        short = still_short(short, end - from);
        from = end + 1;
        count = count + 1;
        end = scan::find::find_byte(m, from, 124);
    }
    Measure {
        count,
        short: still_short(short, end - from),
    }
}

// Whether a message's parts are short and so is the name behind it, where longer ones are not cut. The message ends at `end` of n bytes, with
// ` NP:` and the name behind it, or nothing.
fn ends_short(y: Style, parts: bool, n: usize, end: usize) -> bool
    requires { end ≤ n }
    ensures { result ≡ pick y.cuts true (pick parts (leb (n - end) 39) false) }
{
    y.cuts || parts && n - end <= 39
}

// A message from `from` on: how many parts it has, how long they and the name are, and the parts' bytes.
fn check_message(f: &[u8], y: Style, from: usize) -> Result<(), Broken>
    requires f_value { begins y f.now ≡ true }
    requires f_value_2 { is_name y f.now ≡ false }
    requires f_value_3 { unmarked f.now ≡ drop from f.now }
    requires from_in_bounds { from ≤ length f.now }
    ensures { result ≡ ruling (first_broken (marked_rules y) f.now) }
{
    let end = text::message_end(y, f, from);
    let m = measure_parts(&f[from..end]);
    let most = y.most;
    if most < m.count {
        return Err(breaks(141, y));
    }
    if ends_short(y, m.short, f.len(), end) {
        if text::bytes_taken(y, &f[from..end], 0) {
            return Ok(());
        }
        return Err(breaks(144, y));
    }
    Err(breaks(142, y))
}

// `NP:` and a name alone: one part, which is empty, and how long the name is.
fn check_named(f: &[u8], y: Style) -> Result<(), Broken>
    requires { is_name y f.now ≡ true }
    ensures { result ≡ ruling (first_broken (marked_rules y) f.now) }
{
    let most = y.most;
    if most < 1 {
        return Err(breaks(141, y));
    }
    // the name stands behind three bytes
    if is_short(f.len(), 38, y) {
        return Ok(());
    }
    Err(breaks(142, y))
}

// Its start, and what follows that.
fn check_marked(f: &[u8], y: Style) -> Result<(), Broken>
    ensures { result ≡ ruling (first_broken (marked_rules y) f.now) }
{
    if text::only_name(y, f, 0) {
        return check_named(f, y);
    }
    if scan::seek::starts_at(f, 0, b"AV:") {
        return check_message(f, y, 3);
    }
    let may = y.may;
    if may {
        return check_message(f, y, 0);
    }
    Err(breaks(140, y))
}

// ---- any text

// First its bytes, then by the style.
pub fn check_text(f: &[u8], y: Style) -> Result<(), Broken>
    ensures { result ≡ ruling (first_broken (text_rules y) f.now) }
{
    if is_message(f, y) {
        let av = y.av;
        if av {
            return check_marked(f, y);
        }
        return check_plain(f, y);
    }
    Err(broke(4, 40))
}
