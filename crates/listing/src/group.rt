// What a group's line warns of: a total that is not the exact sum of the items that follow, and a day that is past.
ghost use Rattle.std.specs.Prelude.{◌≡◌, true, map, ℕ, ◌+◌, ◌-◌, ◌≤◌, ◌<◌, length, take, drop};
ghost use Rattle.base.specs.Seek.{seek};
ghost use Rattle.sheet.proofs.Laws.{Sane};
ghost use Rattle.paper.specs.Warnings.{past_day, notices};
ghost use Rattle.paper.specs.Batch.{most14};
ghost use Rattle.paper.specs.Bytes.{space};
ghost use Rattle.paper.specs.Days.{real_day};
ghost use Rattle.paper.specs.Entries.{item_line, kind_of, total_at};
ghost use Rattle.paper.specs.Judge.{is};
ghost use Rattle.paper.specs.Lines.{lines_from};
ghost use Rattle.paper.specs.Rows.{accepted};
ghost use Rattle.numeral.specs.counted.Counted.{Counted};
ghost use Rattle.why.specs.Warned.{noticed, differing, ahead};
ghost use Rattle.listing.specs.Listed.{listed};
ghost use Rattle.listing.specs.group.Warned.{group_warned, cut, line_in, at_field};
ghost use Rattle.listing.specs.group.Ahead.{ItemsSaid};

use crate::Telling;
use itemline::take::take_item;
use scan::kind::LineKind;
use sheet::Sheet;
use why::Finding;

// ---- the group's line

// A warning of the field at `off` of a line, which goes from `start` to `stop`.
fn at_field(
    f: &[u8],
    line: u64,
    start: usize,
    stop: usize,
    off: usize,
    cause: u64,
    field: u64,
    least: u64,
    most: u64,
) -> Finding
    requires start_le_stop { (start ≤ stop) × (stop ≤ length f.now) }
    requires off_bound { start + off ≤ stop }
    ensures { result ≡ at_field line (line_in f.now start stop) off cause field least most }
{
    let end = scan::line::field_end(&f[start..stop], off);
    Finding {
        number: 0,
        cause,
        line,
        byte: (start + off) as u64,
        length: (end - off) as u64,
        field,
        least,
        most,
    }
}

// A total, at `off` of the line, where it is not the exact sum.
fn put_total(
    out: &mut [u8],
    at: usize,
    t: Telling,
    f: &[u8],
    line: u64,
    start: usize,
    stop: usize,
    off: usize,
    total: u64,
    exact: u64,
) -> usize
    requires start_le_stop { (start ≤ stop) × (stop ≤ length f.now) }
    requires off_bound { start + off ≤ stop }
    ensures { Counted out.old at (listed t f.now (differing line (line_in f.now start stop) off total exact)) out.new result }
{
    if total == exact {
        return at;
    }
    let x = at_field(f, line, start, stop, off, 1010, 21, exact, exact);
    crate::put_finding(out, at, t, f, x)
}

// A day that is past, where the line warns of it: it stands behind the total at `off` and a space.
fn put_past(
    out: &mut [u8],
    at: usize,
    t: Telling,
    f: &[u8],
    line: u64,
    start: usize,
    stop: usize,
    off: usize,
    warnings: u64,
) -> usize
    requires start_le_stop { (start ≤ stop) × (stop ≤ length f.now) }
    requires stop_bound { start + (off + seek space (drop off (cut f.now start stop))) < stop }
    requires warnings_bound { warnings ≤ 1 }
    ensures { Counted out.old at (listed t f.now (map (noticed t.sheet t.today line (line_in f.now start stop) (total_at off)) (notices past_day (off + seek space (drop off (cut f.now start stop)) + 1) warnings))) out.new result }
{
    if warnings == 0 {
        return at;
    }
    let end = scan::line::field_end(&f[start..stop], off);
    let x = at_field(f, line, start, stop, end + 1, 1011, 22, t.today, 0);
    crate::put_finding(out, at, t, f, x)
}

// What a group's line warns of: its total, where that is not the exact sum, then its day, where it is past.
pub fn put_group(
    out: &mut [u8],
    at: usize,
    t: Telling,
    f: &[u8],
    line: u64,
    start: usize,
    stop: usize,
    here: bool,
    exact: u64,
) -> usize
    requires today_value { real_day t.today ≡ true }
    requires start_le_stop { (start ≤ stop) × (stop ≤ length f.now) }
    requires in_bounds { 2 ≤ length (take (stop - start) (drop start f.now)) }
    ensures { Counted out.old at (listed t f.now (group_warned t.sheet t.today line (line_in f.now start stop) here exact)) out.new result }
{
    let Ok(g) = groupline::group_line(&f[start..stop], t.sheet, t.today, here) else {
        return at;
    };
    let d = put_total(out, at, t, f, line, start, stop, g.spot, g.total, exact);
    put_past(out, d, t, f, line, start, stop, g.spot, g.warnings)
}

// ---- the items that follow

// Is the line s an item's?
fn is_item(s: &[u8]) -> bool
    ensures { result ≡ is item_line (kind_of s.now) }
{
    matches!(scan::kind::kind_of(s), LineKind::Item)
}

// The exact sum of the items that follow from `at` on, in a group that is single or not; past 14 digits it is not counted on. The items were
// judged before, so their fields are only taken.
pub fn sum_ahead(f: &[u8], sh: Sheet, at: usize, single: bool) -> u64
    requires sane { Sane sh }
    requires at_in_bounds { at ≤ length f.now }
    requires items_said { ItemsSaid sh single (lines_from f.now at) }
    ensures { (today : ℕ) → ahead sh today (accepted single) (lines_from f.now at) ≤ most14 → result ≡ ahead sh today (accepted single) (lines_from f.now at) }
{
    let mut at = at;
    let mut sum: u64 = 0;
    while at < f.len() {
        if 99999999999999 < sum {
            return sum;
        }
        let cut = scan::line::next_line(f, at);
        let stop = cut.stop;
        if is_item(&f[at..stop]) {
            let item = take_item(&f[at..stop], sh, single);
            sum = sum + item.amount;
            at = cut.next;
        } else {
            return sum;
        }
    }
    sum
}
