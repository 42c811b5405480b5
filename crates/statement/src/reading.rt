// Reading statements: the file is judged in one pass; if nothing is wrong and there is room, its rows are put in another.
ghost use Rattle.std.specs.Prelude.{◌≡◌, ◌+◌, ◌*◌, ◌≤◌, ◌<◌, length};
ghost use Rattle.refusal.specs.Numbers.{number_of};
ghost use Rattle.gpc.specs.Records.{records_in};
ghost use Rattle.gpc.specs.Answers.{refused_at, judge_file, statement_answer, statement_rows};
ghost use Rattle.statement.specs.run.Follows.{Tells};
ghost use Rattle.statement.specs.Forms.{in_file, Puts, Putable, PutAll};
ghost use Rattle.statement.specs.reading.Told.{told, Accepted};

use crate::run::{Fault, Spots};
use record::Entry;
use refusal::{Flaw, Refusal};

// The whole answer: the number, its line and byte; the count of rows; the rows needed where there is no room.
#[repr(C)]
#[derive(Clone, Copy)]
pub struct AboStatement {
    pub number: u64,
    pub line: u64,
    pub byte: u64,
    pub rows: u64,
    pub needed: u64,
}

// In a record, the fields that sums are refused at begin here.
const PLACES: Spots = Spots {
    new: 60,
    debit: 75,
    credit: 90,
};

// One pass over the file, which only judges. Bytes that are left over are no record.
fn judge_file(f: &[u8]) -> Result<u64, Fault>
    ensures { Tells (length (records_in f.now)) (judge_file f.now) result }
{
    let mut run = crate::run::start();
    let mut at: usize = 0;
    let mut k: u64 = 0;
    while 130 <= f.len() - at {
        let end = at + 130;
        let e = record::file::read_record(&f[at..end]);
        run = Some(crate::run::next(run, e, k, PLACES)?);
        at = end;
        k = k + 1;
    }
    if at < f.len() {
        return Err(crate::run::stray(k));
    }
    crate::run::finish(run, k, PLACES)
}

// Puts the row of a record that was judged, and returns the next place.
fn put_row(rows: &mut [u8], next: usize, s: &[u8]) -> usize
    requires { (length s.now ≡ 130) × (next + 136 ≤ length rows.old) }
    ensures { Puts in_file rows.old next s.now rows.new result }
{
    match record::file::read_record(s) {
        Entry::Movement(Ok(x)) => {
            record::row::put_movement(rows, next, x, &s[35..48], &s[71..128])
        }
        Entry::Head(Ok(x)) => record::row::put_head(rows, next, x, &s[19..45], &s[105..128]),
        Entry::Movement(Err(_)) => next,
        Entry::Head(Err(_)) => next,
        Entry::Nothing => next,
    }
}

// Puts the rows of all records in front of the old bytes behind them. The file was judged: each record is read.
fn fill_rows(f: &[u8], rows: &mut [u8])
    requires { Putable in_file f.now (length rows.old) }
    ensures { PutAll in_file f.now rows.old rows.new }
{
    let mut at: usize = 0;
    let mut next: usize = 0;
    while at < f.len() {
        let end = at + 130;
        next = put_row(rows, next, &f[at..end]);
        at = end;
    }
}

// A refusal: the record counts from 1, the byte from the file's start.
fn refusal(fault: Fault) -> AboStatement
    requires { 130 * fault.behind + fault.flaw.1 < 18446744073709551616 }
    ensures { told result ≡ refused_at (number_of fault.flaw.0) fault.behind fault.flaw.1 }
{
    let k = fault.behind;
    let Flaw(refusal, off) = fault.flaw;
    AboStatement {
        number: refusal.number(),
        line: k + 1,
        byte: 130 * k + off as u64,
        rows: 0,
        needed: 0,
    }
}

// Nothing is wrong with the file, and it has so many records: their rows are put if there is room for all of them.
fn accept(file: &[u8], count: u64, rows: &mut [u8]) -> AboStatement
    requires { Accepted file.now count }
    ensures result_value { told result ≡ statement_answer file.now rows.old }
    ensures rows_after { rows.new ≡ statement_rows file.now rows.old }
{
    let room = rows.len() / 136;
    if (room as u64) < count {
        return AboStatement {
            number: Refusal::NoRoom.number(),
            line: 0,
            byte: 0,
            rows: 0,
            needed: count,
        };
    }
    fill_rows(file, rows);
    AboStatement {
        number: 0,
        line: 0,
        byte: 0,
        rows: count,
        needed: 0,
    }
}

// The whole answer of reading a file of statements, and the rows, which a refusal leaves as they were.
pub fn read_statements(file: &[u8], rows: &mut [u8]) -> AboStatement
    ensures result_value { told result ≡ statement_answer file.now rows.old }
    ensures rows_after { rows.new ≡ statement_rows file.now rows.old }
{
    match judge_file(file) {
        Err(fault) => refusal(fault),
        Ok(count) => accept(file, count, rows),
    }
}
