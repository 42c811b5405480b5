// The second pass of reading: the rows of a file's lines, put into lent bytes.
ghost use Rattle.std.specs.Prelude.{◌≡◌, true, false, ◌++◌, ◌+◌, ◌≤◌, ◌<◌, length, drop};
ghost use Rattle.paper.specs.Batch.{most14};
ghost use Rattle.paper.specs.Days.{real_day};
ghost use Rattle.paper.specs.Lines.{lines_of};
ghost use Rattle.paper.specs.Spells.{read_line};
ghost use Rattle.paper.specs.Words.{rows_bytes};
ghost use Rattle.paper.specs.Rows.{accepted, line_row, lines_rows};
ghost use Rattle.numeral.specs.placed.Said.{is_said};
ghost use Rattle.fill.specs.file.Stepped.{Stepped};
ghost use Rattle.fill.specs.file.Judged.{AllSaid};

use scan::kind::LineKind;
use sheet::Sheet;

// What a line leaves: where the next row goes, and whether the items that follow are those of a single group.
#[derive(Clone, Copy)]
pub struct Step {
    pub next: usize,
    pub single: bool,
}

// Puts the row of the line s, which starts at `at` of the file, at `next`, if the line has one. The line was judged and is not refused, so
// its fields are only taken.
fn fill_line(
    s: &[u8],
    at: usize,
    sh: Sheet,
    today: u64,
    single: bool,
    rows: &mut [u8],
    next: usize,
) -> Step
    requires most_bound { (sh.text.most ≤ 4) × (sh.itemdigits ≤ 19) × (sh.itemmax ≤ most14) }
    requires s_value { is_said (read_line sh today (accepted single) s.now) ≡ true }
    requires s_bound { at + length s.now < 18446744073709551616 }
    requires s_in_bounds { next + length (rows_bytes (line_row at (read_line sh today (accepted single) s.now))) ≤ length rows.old }
    ensures { Stepped rows.old next single at (read_line sh today (accepted single) s.now) rows.new result }
{
    match scan::kind::kind_of(s) {
        LineKind::Item => Step {
            next: crate::itemrow::put_item_row(
                rows,
                next,
                itemline::take::take_item(s, sh, single),
                at,
            ),
            single,
        },
        LineKind::Group => {
            let g = groupline::take::take_group(s, sh, today);
            Step {
                next: crate::row::put_group_row(rows, next, g.date, g.prefix, g.base),
                single: account::is_nobody(g.prefix, g.base),
            }
        }
        LineKind::File => {
            let a = fileline::take::take_file(s, sh);
            Step {
                next: crate::row::put_file_row(rows, next, a.kind, a.number),
                single,
            }
        }
        LineKind::Head => Step { next, single },
        LineKind::GroupEnd => Step { next, single },
        LineKind::FileEnd => Step { next, single },
    }
}

// Puts the rows of the file's lines, in order, in front of the old bytes behind them. The file was judged: none of its lines is refused.
pub fn fill_rows(f: &[u8], sh: Sheet, today: u64, rows: &mut [u8])
    requires today_value { real_day today ≡ true }
    requires most_bound { (sh.text.most ≤ 4) × (sh.itemdigits ≤ 19) × (sh.itemmax ≤ most14) }
    requires all_said { AllSaid sh today false (lines_of 0 f.now) }
    requires f_in_bounds { length (rows_bytes (lines_rows sh today false (lines_of 0 f.now))) ≤ length rows.old }
    ensures { rows.new ≡ rows_bytes (lines_rows sh today false (lines_of 0 f.now)) ++ drop (length (rows_bytes (lines_rows sh today false (lines_of 0 f.now)))) rows.old }
{
    let mut at = 0;
    let mut next = 0;
    let mut single = false;
    while at < f.len() {
        let cut = scan::line::next_line(f, at);
        let stop = cut.stop;
        let step = fill_line(&f[at..stop], at, sh, today, single, rows, next);
        next = step.next;
        single = step.single;
        at = cut.next;
    }
}
