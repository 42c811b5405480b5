// One line outside a group: it is judged as judging does it, and the pass stands behind it, or judging halts there.
ghost use Rattle.std.specs.Prelude.{◌≡◌, true, List, ℕ, ◌-◌, ◌≤◌, length, take, drop};
ghost use Rattle.paper.specs.Days.{real_day};
ghost use Rattle.paper.specs.Entries.{head_line, file_line, group_line, file_end, kind_of};
ghost use Rattle.scan.specs.line.Cutting.{Cuts};
ghost use Rattle.judge.specs.group.Stands.{LowGroup, line_in};
ghost use Rattle.judge.specs.accountfile.Resume.{LowFile};
ghost use Rattle.course.specs.Stands.{LowMove, Leads, at_first, at_file, at_group};

use crate::{Course, Stage};
use fileline::seen::Seen;
use judge::group::{Counts, Shelf};
use scan::kind::LineKind;
use scan::line::Cut;
use sheet::Sheet;

// No account file yet.
const NOTHING: Counts = Counts {
    files: 0,
    items: 0,
    rows: 0,
    warnings: 0,
};

// ---- the first line

// The first line, which is known as one.
fn begin(f: &[u8], sh: Sheet, at: usize, stop: usize) -> Option<Course>
    requires at_le_stop { (at ≤ stop) × (stop ≤ length f.now) }
    requires f_value { kind_of (take (stop - at) (drop at f.now)) ≡ head_line }
    ensures low_move { LowMove result }
    ensures leads { (today k from to : ℕ) (words : List ℕ) → Leads sh today k (line_in f.now at stop) (at_first from to) words words result }
{
    let Ok(header) = firstline::first_line(&f[at..stop], sh) else {
        return None;
    };
    let stage = Stage::File(NOTHING);
    match header {
        Some(h) => Some(Course {
            from: h.from,
            to: h.to,
            stage,
        }),
        None => Some(Course {
            from: 0,
            to: 0,
            stage,
        }),
    }
}

// Before the first line.
pub fn from_first(f: &[u8], sh: Sheet, at: usize, stop: usize) -> Option<Course>
    requires { (at ≤ stop) × (stop ≤ length f.now) }
    ensures low_move { LowMove result }
    ensures leads { (today k from to : ℕ) (words : List ℕ) → Leads sh today k (line_in f.now at stop) (at_first from to) words words result }
{
    match scan::kind::kind_of(&f[at..stop]) {
        LineKind::Head => begin(f, sh, at, stop),
        _ => None,
    }
}

// ---- an account file

// A line that begins an account file, which is known as one. Its number's first three digits are put to those seen.
fn open_file(
    f: &[u8],
    sh: Sheet,
    at: usize,
    cut: Cut,
    from: u64,
    to: u64,
    counts: Counts,
    seen: &mut [u64; 16],
) -> Option<Course>
    requires low_file { LowFile counts }
    requires cuts { Cuts f.now at cut }
    requires f_value { kind_of (take (cut.stop - at) (drop at f.now)) ≡ file_line }
    ensures low_move { LowMove result }
    ensures by_index { (today k : ℕ) → Leads sh today k (line_in f.now at cut.stop) (at_file from to counts) seen.old seen.new result }
{
    let files = counts.files;
    if 1000 <= files {
        return None;
    }
    let stop = cut.stop;
    let words = *seen;
    let set = Seen { words: words };
    let Ok(file) = fileline::file_line(&f[at..stop], sh, from, to, set) else {
        return None;
    };
    fileline::seen::mark(seen, set, file.number / 1000);
    let more = judge::accountfile::file_more(counts);
    let shelf = judge::accountfile::new_shelf(file.kind);
    Some(Course {
        from,
        to,
        stage: Stage::Group(more, shelf),
    })
}

// Between account files.
pub fn from_file(
    f: &[u8],
    sh: Sheet,
    at: usize,
    cut: Cut,
    from: u64,
    to: u64,
    counts: Counts,
    seen: &mut [u64; 16],
) -> Option<Course>
    requires low_file { LowFile counts }
    requires cuts { Cuts f.now at cut }
    ensures low_move { LowMove result }
    ensures by_index { (today k : ℕ) → Leads sh today k (line_in f.now at cut.stop) (at_file from to counts) seen.old seen.new result }
{
    let stop = cut.stop;
    match scan::kind::kind_of(&f[at..stop]) {
        LineKind::File => open_file(f, sh, at, cut, from, to, counts, seen),
        _ => None,
    }
}

// ---- a group

// A line that begins a group, which is known as one.
fn open_group(
    f: &[u8],
    sh: Sheet,
    today: u64,
    at: usize,
    stop: usize,
    line: u64,
    from: u64,
    to: u64,
    counts: Counts,
    shelf: Shelf,
) -> Option<Course>
    requires today_value { real_day today ≡ true }
    requires low_group { LowGroup counts shelf }
    requires at_le_stop { (at ≤ stop) × (stop ≤ length f.now) }
    requires f_value { kind_of (take (stop - at) (drop at f.now)) ≡ group_line }
    ensures low_move { LowMove result }
    ensures by_index { (words : List ℕ) → Leads sh today line (line_in f.now at stop) (at_group from to counts shelf) words words result }
{
    match judge::accountfile::group_opening(f, sh, today, at, stop, line, counts, shelf) {
        Ok(held) => Some(Course {
            from,
            to,
            stage: Stage::Item(held),
        }),
        Err(_) => None,
    }
}

// A line that closes the account file, which is known as one.
fn close_file(
    f: &[u8],
    sh: Sheet,
    at: usize,
    cut: Cut,
    from: u64,
    to: u64,
    counts: Counts,
    shelf: Shelf,
) -> Option<Course>
    requires low_group { LowGroup counts shelf }
    requires cuts { Cuts f.now at cut }
    requires f_value { kind_of (take (cut.stop - at) (drop at f.now)) ≡ file_end }
    ensures low_move { LowMove result }
    ensures by_index { (today k : ℕ) (words : List ℕ) → Leads sh today k (line_in f.now at cut.stop) (at_group from to counts shelf) words words result }
{
    let groups = shelf.groups;
    if groups == 0 {
        return None;
    }
    let stop = cut.stop;
    match closing::close_line(&f[at..stop], sh.near) {
        Ok(()) => Some(Course {
            from,
            to,
            stage: Stage::File(counts),
        }),
        Err(_) => None,
    }
}

// In an account file, between groups.
pub fn from_group(
    f: &[u8],
    sh: Sheet,
    today: u64,
    at: usize,
    cut: Cut,
    line: u64,
    from: u64,
    to: u64,
    counts: Counts,
    shelf: Shelf,
) -> Option<Course>
    requires today_value { real_day today ≡ true }
    requires low_group { LowGroup counts shelf }
    requires cuts { Cuts f.now at cut }
    ensures low_move { LowMove result }
    ensures by_index { (words : List ℕ) → Leads sh today line (line_in f.now at cut.stop) (at_group from to counts shelf) words words result }
{
    let stop = cut.stop;
    match scan::kind::kind_of(&f[at..stop]) {
        LineKind::Group => open_group(f, sh, today, at, stop, line, from, to, counts, shelf),
        LineKind::FileEnd => close_file(f, sh, at, cut, from, to, counts, shelf),
        _ => None,
    }
}
