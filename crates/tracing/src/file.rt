// A whole file judged, line by line and along the lines of a group at once: the one finding of a refused file, or the counts of an accepted one.
ghost use Rattle.std.specs.Prelude.{◌≡◌, true, ◌<◌, length, None};
ghost use Rattle.sheet.proofs.Laws.{Sane};
ghost use Rattle.paper.specs.Days.{real_day};
ghost use Rattle.course.specs.Stands.{at_group, at_item};
ghost use Rattle.std.specs.declared.ops.ControlFlow.TheVariants.{Continue};
ghost use Rattle.tracing.specs.file.Comes.{Comes, Reached, AtEnd};
ghost use Rattle.tracing.specs.file.Steps.{Steps, Met};

use crate::group::Far;
use course::line::{from_file, from_first, from_group};
use course::{Course, Stage};
use fileline::seen::Seen;
use judge::group::{GroupEnd, Held};
use scan::line::Cut;
use sheet::Sheet;
use std::ops::ControlFlow;
use std::ops::ControlFlow::{Break, Continue};
use why::Finding;

// What is counted in an accepted file.
#[derive(Clone, Copy)]
pub struct Tallied {
    pub rows: u64,
    pub warnings: u64,
}

// What a file comes to: the counts of an accepted one, or what is found in a refused one.
pub type Outcome = Result<Tallied, Finding>;

// Where a pass begins.
pub const START: Course = Course {
    from: 0,
    to: 0,
    stage: Stage::First,
};

// The file has ended where line `line` would be: early, or behind an account file.
fn at_end(f: &[u8], line: u64, x: Course) -> Outcome
    ensures { AtEnd f.now line x result }
{
    let stage = x.stage;
    match stage {
        Stage::File(counts) => {
            let files = counts.files;
            if files == 0 {
                return Err(found::blame_end(f, line, x));
            }
            Ok(Tallied {
                rows: counts.rows,
                warnings: counts.warnings,
            })
        }
        Stage::First => Err(found::blame_end(f, line, x)),
        Stage::Group(_, _) => Err(found::blame_end(f, line, x)),
        Stage::Item(_) => Err(found::blame_end(f, line, x)),
    }
}

// A line to which the pass has come, by its place and its number, where it stands at x.
#[derive(Clone, Copy)]
pub struct Mark {
    pub at: usize,
    pub line: u64,
    pub x: Course,
}

// Where some lines lead: on, to a line behind them; or the file has come to its outcome.
pub type Ahead = ControlFlow<Outcome, Mark>;

// What is found in the line there, where judging halts.
fn blamed(
    f: &[u8],
    sh: Sheet,
    today: u64,
    at: usize,
    cut: Cut,
    line: u64,
    x: Course,
    words: [u64; 16],
) -> Outcome
    requires sane { Sane sh × (real_day today ≡ true) }
    requires met { Met sh today f.now at cut line x words None }
    ensures { Comes sh today f.now result }
{
    let set = Seen { words };
    Err(found::blame_line(f, sh, today, at, cut.stop, line, x, set))
}

// What the line there leads to.
fn moved(
    f: &[u8],
    sh: Sheet,
    today: u64,
    at: usize,
    cut: Cut,
    line: u64,
    x: Course,
    words: [u64; 16],
    to: Option<Course>,
) -> Ahead
    requires sane { Sane sh × (real_day today ≡ true) }
    requires met { Met sh today f.now at cut line x words to }
    ensures { Steps sh today f.now at words result }
{
    match to {
        Some(y) => Continue(Mark {
            at: cut.next,
            line: line + 1,
            x: y,
        }),
        None => Break(blamed(f, sh, today, at, cut, line, x, words)),
    }
}

// In a group.
fn in_group(from: u64, to: u64, held: Held) -> Course
    ensures { result ≡ at_item from to held }
{
    Course {
        from,
        to,
        stage: Stage::Item(held),
    }
}

// Behind a group.
fn behind_group(end: GroupEnd, from: u64, to: u64) -> Ahead
    ensures { result ≡ Continue (record { at = end.at; line = end.line; x = at_group from to end.counts end.shelf }) }
{
    let x = Course {
        from,
        to,
        stage: Stage::Group(end.counts, end.shelf),
    };
    Continue(Mark {
        at: end.at,
        line: end.line,
        x,
    })
}

// The lines of an open group.
fn whole_group(
    f: &[u8],
    sh: Sheet,
    today: u64,
    at: usize,
    line: u64,
    from: u64,
    to: u64,
    held: Held,
    words: [u64; 16],
) -> Ahead
    requires sane { Sane sh × (real_day today ≡ true) }
    requires reached { Reached sh today f.now at line (at_item from to held) words }
    ensures { Steps sh today f.now at words result }
{
    match crate::group::along(f, sh, today, at, line, held) {
        Far::Closed(end) => behind_group(end, from, to),
        Far::Halt {
            at: there,
            cut,
            line: number,
            held: last,
        } => {
            let x = in_group(from, to, last);
            Break(blamed(f, sh, today, there, cut, number, x, words))
        }
        Far::Ended {
            at: _,
            line: number,
            held: last,
        } => Break(at_end(f, number, in_group(from, to, last))),
    }
}

// The line at `at`; in a group, all its lines.
fn step(
    f: &[u8],
    sh: Sheet,
    today: u64,
    at: usize,
    line: u64,
    x: Course,
    seen: &mut [u64; 16],
) -> Ahead
    requires sane { Sane sh × (real_day today ≡ true) }
    requires at_in_bounds { at < length f.now }
    requires reached { Reached sh today f.now at line x seen.old }
    ensures { Steps sh today f.now at seen.new result }
{
    let stage = x.stage;
    match stage {
        Stage::Item(held) => whole_group(f, sh, today, at, line, x.from, x.to, held, *seen),
        Stage::Group(counts, shelf) => {
            let cut = scan::line::next_line(f, at);
            let m = from_group(f, sh, today, at, cut, line, x.from, x.to, counts, shelf);
            moved(f, sh, today, at, cut, line, x, *seen, m)
        }
        Stage::File(counts) => {
            let cut = scan::line::next_line(f, at);
            let m = from_file(f, sh, at, cut, x.from, x.to, counts, seen);
            moved(f, sh, today, at, cut, line, x, *seen, m)
        }
        Stage::First => {
            let cut = scan::line::next_line(f, at);
            let m = from_first(f, sh, at, cut.stop);
            moved(f, sh, today, at, cut, line, x, *seen, m)
        }
    }
}

// The whole file on the sheet sh.
pub fn follow(f: &[u8], sh: Sheet, today: u64) -> Outcome
    requires { Sane sh × (real_day today ≡ true) }
    ensures { Comes sh today f.now result }
{
    let mut seen = [0u64; 16];
    let mut at: usize = 0;
    let mut line: u64 = 1;
    let mut x = START;
    while at < f.len() {
        match step(f, sh, today, at, line, x, &mut seen) {
            Continue(next) => {
                at = next.at;
                line = next.line;
                x = next.x;
            }
            Break(o) => {
                return o;
            }
        }
    }
    at_end(f, line, x)
}
