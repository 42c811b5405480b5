// The second pass of writing: the lines of rows that were judged and accepted, put into lent bytes.
ghost use Rattle.std.specs.Prelude.{◌≡◌, ◌+◌, ◌-◌, ◌≤◌, length, drop};
ghost use Rattle.base.specs.Put.{Wrote};
ghost use Rattle.paper.specs.Batch.{most14};
ghost use Rattle.paper.specs.Proper.{need_file, fine, batch_proper};
ghost use Rattle.paper.specs.Words.{words};
ghost use Rattle.paper.specs.Rows.{thing_in, rows_in, things_in};
ghost use Rattle.roundtrip.specs.flat.Flat.{group_ends, file_ends, flat};
ghost use Rattle.out.specs.word.Places.{rows_from};
ghost use Rattle.rows.specs.list.From.{things_from};
ghost use Rattle.spelling.specs.file.Sum.{item_sum};
ghost use Rattle.spelling.specs.file.Passing.{Passing};
ghost use Rattle.spelling.specs.file.Lines.{stage_when, Filled};

use rows::read::Row;
use sheet::Sheet;

// What a row leaves: where the next line goes, and whether closing lines are due before the next group or account file.
#[derive(Clone, Copy)]
pub struct Step {
    pub next: usize,
    pub due: bool,
}

// The sum of the items whose rows stand at `from` and behind it, up to the next row of another kind.
fn group_sum(rows: &[u8], from: usize) -> u64
    requires from_in_bounds { from ≤ length rows.now }
    requires from_bound { item_sum (rows_from 24 rows.now from) ≤ most14 }
    ensures { result ≡ item_sum (rows_from 24 rows.now from) }
{
    let mut sum: u64 = 0;
    for i in 0..(rows.len() - from) / 192 {
        let at = from + i * 192;
        if out::word::word_at(rows, at) != 3 {
            return sum;
        }
        sum += out::word::word_at(rows, at + 48);
    }
    sum
}

// Puts the line that closes a group, where it is due.
fn end_group(out: &mut [u8], at: usize, due: bool) -> usize
    requires { at + length (group_ends (stage_when due)) ≤ length out.old }
    ensures { Wrote out.old at (group_ends (stage_when due)) out.new result }
{
    if due {
        return crate::putlines::put_close(out, at, b'3');
    }
    at
}

// Puts the lines that close a group and its account file, where they are due.
fn end_file(out: &mut [u8], at: usize, due: bool) -> usize
    requires { at + length (file_ends (stage_when due)) ≤ length out.old }
    ensures { Wrote out.old at (file_ends (stage_when due)) out.new result }
{
    if due {
        let e = crate::putlines::put_close(out, at, b'3');
        return crate::putlines::put_close(out, e, b'5');
    }
    at
}

// Puts the closing lines that are due before the row at `row`, and the row's own line.
fn fill_row(
    rows: &[u8],
    row: usize,
    texts: &[u8],
    sh: Sheet,
    due: bool,
    out: &mut [u8],
    at: usize,
) -> Step
    requires in_bounds { 192 ≤ length rows.now - row }
    requires passing { Passing (things_from texts.now rows.now row) }
    requires row_in_bounds { at + length (flat sh (stage_when due) (things_from texts.now rows.now row)) ≤ length out.old }
    ensures { Filled sh due (thing_in texts.now (words 24 (drop row rows.now))) (things_from texts.now rows.now (row + 192)) out.old at out.new result }
{
    match rows::read::take_row(rows, row) {
        Row::File { kind, number } => {
            let e = end_file(out, at, due);
            let next = crate::putlines::put_file_line(out, e, sh, kind, number);
            Step { next, due: false }
        }
        Row::Group { date, prefix, base } => {
            let total = group_sum(rows, row + 192);
            let e = end_group(out, at, due);
            let next = crate::putlines::put_group_line(out, e, sh, prefix, base, total, date);
            Step { next, due: false }
        }
        Row::Item(x) => {
            let next = crate::putitem::put_item_line(out, at, sh, texts, x);
            Step { next, due: true }
        }
    }
}

// Puts the lines of all rows, the closing lines among them, from `at` on, and returns the next place.
pub fn fill_file(rows: &[u8], texts: &[u8], sh: Sheet, out: &mut [u8], at: usize) -> usize
    requires rows_value { batch_proper (things_in texts.now (rows_in rows.now)) ≡ fine }
    requires rows_in_bounds { at + length (flat sh need_file (things_in texts.now (rows_in rows.now))) ≤ length out.old }
    ensures { Wrote out.old at (flat sh need_file (things_in texts.now (rows_in rows.now))) out.new result }
{
    let mut step = Step {
        next: at,
        due: false,
    };
    for i in 0..rows.len() / 192 {
        step = fill_row(rows, i * 192, texts, sh, step.due, out, step.next);
    }
    end_file(out, step.next, step.due)
}
