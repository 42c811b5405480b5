// The account file's own lines: its first one, its last one, and the lines that begin a group, each with where reading stands behind it.
ghost use Rattle.std.specs.Prelude.{◌≡◌, true, ℕ, ◌-◌, ◌≤◌, ◌<◌, Ok, length, take, drop};
ghost use Rattle.sheet.proofs.Laws.{Sane};
ghost use Rattle.paper.specs.Days.{real_day};
ghost use Rattle.paper.specs.Entries.{file_line, group_line, file_end, kind_of};
ghost use Rattle.scan.specs.line.Cutting.{Cuts};
ghost use Rattle.judge.specs.group.Stands.{LowGroup, line_in, Begun};
ghost use Rattle.judge.specs.accountfile.Resume.{file_more, new_shelf, NewHeld, Opens, Good, Grouped, Moved, Ends, Stepped};

use crate::group::{Counts, Held, Open, Shelf};
use crate::refused::{Refused, byte_in, lined};
use fileline::seen::Seen;
use refusal::Refusal;
use scan::kind::LineKind;
use scan::line::Cut;
use sheet::Sheet;

// Where reading stands: before an account file or its end, at a place with its line's number; before a group or the account file's end;
// or at the answer.
#[derive(Clone, Copy)]
pub enum Left {
    File(usize, u64, Counts),
    Group(usize, u64, Counts, Shelf),
    Accepted(u64, u64),
}

// ---- an account file

// The file ends where an account file may begin.
fn end_file(at: usize, line: u64, counts: Counts) -> Result<Left, Refused>
    ensures { Ends at line counts result }
{
    let files = counts.files;
    if files == 0 {
        return Err(Refused {
            refusal: Refusal::BadOrder,
            line,
            byte: at as u64,
        });
    }
    Ok(Left::Accepted(counts.rows, counts.warnings))
}

// An account file of this kind that has nothing yet.
pub fn new_shelf(kind: u64) -> Shelf
    ensures { result ≡ new_shelf kind }
{
    Shelf {
        kind,
        items: 0,
        groups: 0,
    }
}

// The counts with an account file more.
pub fn file_more(counts: Counts) -> Counts
    requires { (counts.files < 1000) × (counts.rows ≤ 200000000) }
    ensures { result ≡ file_more counts }
{
    Counts {
        files: counts.files + 1,
        items: counts.items,
        rows: counts.rows + 1,
        warnings: counts.warnings,
    }
}

// A line that begins an account file, which is known as one. That there are too many comes before its fields. Its number's first three digits
// are put to those seen.
fn open_file(
    f: &[u8],
    sh: Sheet,
    at: usize,
    line: u64,
    cut: Cut,
    from: u64,
    to: u64,
    counts: Counts,
    seen: &mut [u64; 16],
) -> Result<Left, Refused>
    requires sane { Sane sh }
    requires good { Good f.now (Ok (Left.File at line counts)) }
    requires cuts { Cuts f.now at cut }
    requires f_value { kind_of (take (cut.stop - at) (drop at f.now)) ≡ file_line }
    ensures { Stepped sh from to f.now (Ok (Left.File at line counts)) seen.old seen.new result }
{
    let files = counts.files;
    if 1000 <= files {
        return Err(Refused {
            refusal: Refusal::TooMany,
            line,
            byte: at as u64,
        });
    }
    let stop = cut.stop;
    let set = Seen { words: *seen };
    let read = fileline::file_line(&f[at..stop], sh, from, to, set);
    let opened = lined(read, line, at, stop)?;
    fileline::seen::mark(seen, set, opened.number / 1000);
    Ok(Left::Group(
        cut.next,
        line + 1,
        file_more(counts),
        new_shelf(opened.kind),
    ))
}

// The line of an account file, or the end of the file.
pub fn file_step(
    f: &[u8],
    sh: Sheet,
    at: usize,
    line: u64,
    from: u64,
    to: u64,
    counts: Counts,
    seen: &mut [u64; 16],
) -> Result<Left, Refused>
    requires sane { Sane sh }
    requires good { Good f.now (Ok (Left.File at line counts)) }
    ensures { Stepped sh from to f.now (Ok (Left.File at line counts)) seen.old seen.new result }
{
    if f.len() <= at {
        return end_file(at, line, counts);
    }
    let cut = scan::line::next_line(f, at);
    let stop = cut.stop;
    match scan::kind::kind_of(&f[at..stop]) {
        LineKind::File => open_file(f, sh, at, line, cut, from, to, counts, seen),
        _ => Err(Refused {
            refusal: Refusal::BadOrder,
            line,
            byte: at as u64,
        }),
    }
}

// ---- a group

// A group that has no item yet: the counts with it and its line's warnings, and its total with the line and byte where it stands.
fn group_held(
    counts: Counts,
    shelf: Shelf,
    warnings: u64,
    single: bool,
    date: u64,
    total: u64,
    line: u64,
    byte: u64,
) -> Held
    requires { LowGroup counts shelf × (warnings ≤ 1) }
    ensures { NewHeld counts shelf warnings single date total line byte result }
{
    let rows = counts.rows + 1;
    let warned = counts.warnings + warnings;
    Held {
        counts: Counts {
            files: counts.files,
            items: counts.items,
            rows,
            warnings: warned,
        },
        shelf,
        opened: Open {
            single,
            date,
            total,
            line,
            byte,
            sum: 0,
            count: 0,
        },
    }
}

// A line that begins a group, which is known as one: the bytes of the file from `at` to `stop`. It leads to an open group.
pub fn group_opening(
    f: &[u8],
    sh: Sheet,
    today: u64,
    at: usize,
    stop: usize,
    line: u64,
    counts: Counts,
    shelf: Shelf,
) -> Result<Held, Refused>
    requires f_value { kind_of (take (stop - at) (drop at f.now)) ≡ group_line }
    requires low_group { LowGroup counts shelf }
    requires today_value { real_day today ≡ true }
    requires at_le_stop { (at ≤ stop) × (stop ≤ length f.now) }
    ensures { Opens sh today (line_in f.now at stop) line counts shelf result }
{
    let here = calendar::term::day_here(sh, shelf.kind);
    let group = lined(
        groupline::group_line(&f[at..stop], sh, today, here),
        line,
        at,
        stop,
    )?;
    let byte = byte_in(at, group.spot, stop);
    Ok(group_held(
        counts,
        shelf,
        group.warnings,
        group.single,
        group.date,
        group.total,
        line,
        byte,
    ))
}

// The items of a group, and where reading stands behind it.
fn whole_group(
    f: &[u8],
    sh: Sheet,
    today: u64,
    at: usize,
    line: u64,
    held: Held,
) -> Result<Left, Refused>
    requires sane { Sane sh × (real_day today ≡ true) }
    requires begun { Begun f.now at line held }
    ensures { Grouped sh today f.now at line held result }
{
    let end = crate::group::group_items(f, sh, today, at, line, held)?;
    Ok(Left::Group(end.at, end.line, end.counts, end.shelf))
}

// A line that begins a group, which is known as one, and the whole group.
fn open_group(
    f: &[u8],
    sh: Sheet,
    today: u64,
    at: usize,
    line: u64,
    cut: Cut,
    counts: Counts,
    shelf: Shelf,
) -> Result<Left, Refused>
    requires sane { Sane sh × (real_day today ≡ true) }
    requires good { Good f.now (Ok (Left.Group at line counts shelf)) }
    requires cuts { Cuts f.now at cut }
    requires f_value { kind_of (take (cut.stop - at) (drop at f.now)) ≡ group_line }
    ensures { Moved sh today f.now (Ok (Left.Group at line counts shelf)) result }
{
    let held = group_opening(f, sh, today, at, cut.stop, line, counts, shelf)?;
    whole_group(f, sh, today, cut.next, line + 1, held)
}

// A line that closes the account file, which is known as one.
fn close_file(
    f: &[u8],
    sh: Sheet,
    at: usize,
    line: u64,
    cut: Cut,
    counts: Counts,
    shelf: Shelf,
) -> Result<Left, Refused>
    requires sane { Sane sh }
    requires good { Good f.now (Ok (Left.Group at line counts shelf)) }
    requires cuts { Cuts f.now at cut }
    requires f_value { kind_of (take (cut.stop - at) (drop at f.now)) ≡ file_end }
    ensures { (today : ℕ) → Moved sh today f.now (Ok (Left.Group at line counts shelf)) result }
{
    let groups = shelf.groups;
    if groups == 0 {
        return Err(Refused {
            refusal: Refusal::BadOrder,
            line,
            byte: at as u64,
        });
    }
    let stop = cut.stop;
    lined(closing::close_line(&f[at..stop], sh.near), line, at, stop)?;
    Ok(Left::File(cut.next, line + 1, counts))
}

// A whole group, or the line that closes the account file.
pub fn group_step(
    f: &[u8],
    sh: Sheet,
    today: u64,
    at: usize,
    line: u64,
    counts: Counts,
    shelf: Shelf,
) -> Result<Left, Refused>
    requires sane { Sane sh × (real_day today ≡ true) }
    requires good { Good f.now (Ok (Left.Group at line counts shelf)) }
    ensures { Moved sh today f.now (Ok (Left.Group at line counts shelf)) result }
{
    if f.len() <= at {
        return Err(Refused {
            refusal: Refusal::BadOrder,
            line,
            byte: at as u64,
        });
    }
    let cut = scan::line::next_line(f, at);
    let stop = cut.stop;
    match scan::kind::kind_of(&f[at..stop]) {
        LineKind::Group => open_group(f, sh, today, at, line, cut, counts, shelf),
        LineKind::FileEnd => close_file(f, sh, at, line, cut, counts, shelf),
        _ => Err(Refused {
            refusal: Refusal::BadOrder,
            line,
            byte: at as u64,
        }),
    }
}
