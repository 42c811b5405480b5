// Writing statements: the rows are judged in one pass; if nothing is wrong and there is room, the file is put in another.
ghost use Rattle.std.specs.Prelude.{◌≡◌, ◌+◌, ◌≤◌, length};
ghost use Rattle.paper.specs.Writing.{written_in, output_after};
ghost use Rattle.write.specs.Told.{told};
ghost use Rattle.gpc.specs.StatementRows.{things_in};
ghost use Rattle.gpc.specs.Answers.{judge_rows, statement_draft};
ghost use Rattle.statement.specs.run.Follows.{Tells};
ghost use Rattle.statement.specs.Forms.{in_rows, Puts, Putable, PutAll};
ghost use Rattle.statement.specs.writing.Accepted.{Accepted};

use crate::run::{Fault, Spots};
use record::Entry;
use refusal::{Flaw, Refusal};
use write::AboWritten;

// In a row, the words that sums are refused at.
const WORDS: Spots = Spots {
    new: 4,
    debit: 5,
    credit: 6,
};

// One pass over the rows, which only judges. Bytes that are left over are no row.
fn judge_rows(rows: &[u8]) -> Result<u64, Fault>
    ensures { Tells (length (things_in rows.now)) (judge_rows rows.now) result }
{
    let mut run = crate::run::start();
    let mut at: usize = 0;
    let mut k: u64 = 0;
    while 136 <= rows.len() - at {
        let end = at + 136;
        let e = record::row::read_row(&rows[at..end]);
        run = Some(crate::run::next(run, e, k, WORDS)?);
        at = end;
        k = k + 1;
    }
    if at < rows.len() {
        return Err(crate::run::stray(k));
    }
    crate::run::finish(run, k, WORDS)
}

// Puts the record of a row that was judged, and returns the next place.
fn put_record(out: &mut [u8], next: usize, r: &[u8]) -> usize
    requires { (length r.now ≡ 136) × (next + 130 ≤ length out.old) }
    ensures { Puts in_rows out.old next r.now out.new result }
{
    match record::row::read_row(r) {
        Entry::Movement(Ok(x)) => {
            record::file::put_movement(out, next, x, &r[64..77], &r[77..134])
        }
        Entry::Head(Ok(x)) => record::file::put_head(out, next, x, &r[64..90], &r[90..113]),
        Entry::Movement(Err(_)) => next,
        Entry::Head(Err(_)) => next,
        Entry::Nothing => next,
    }
}

// Puts the records of all rows. They were judged: each can be written.
fn fill_file(rows: &[u8], out: &mut [u8])
    requires { Putable in_rows rows.now (length out.old) }
    ensures { PutAll in_rows rows.now out.old out.new }
{
    let mut at: usize = 0;
    let mut next: usize = 0;
    while at < rows.len() {
        let end = at + 136;
        next = put_record(out, next, &rows[at..end]);
        at = end;
    }
}

// Nothing is wrong with the rows, and there are so many: their file is put if there is room for all of it.
fn accept(rows: &[u8], count: u64, out: &mut [u8]) -> AboWritten
    requires { Accepted rows.now count }
    ensures result_value { told result ≡ written_in (length out.old) (statement_draft rows.now) }
    ensures out_after { out.new ≡ output_after out.old (statement_draft rows.now) }
{
    let bytes = 130 * count;
    if (out.len() as u64) < bytes {
        return write::counted(Some(Refusal::NoRoom), bytes);
    }
    fill_file(rows, out);
    write::counted(None, bytes)
}

// The whole answer of writing the statements that rows hold, and the output, which a refusal leaves as it was.
pub fn write_statements(rows: &[u8], out: &mut [u8]) -> AboWritten
    ensures result_value { told result ≡ written_in (length out.old) (statement_draft rows.now) }
    ensures out_after { out.new ≡ output_after out.old (statement_draft rows.now) }
{
    match judge_rows(rows) {
        Err(fault) => {
            let Flaw(refusal, field) = fault.flaw;
            write::refusal(refusal, fault.behind + 1, field as u64)
        }
        Ok(count) => accept(rows, count, out),
    }
}
