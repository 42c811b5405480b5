// Writing a batch of lent rows as a file, with the whole answer in one struct. The header and all rows are judged first; the output is
// written only if nothing is wrong and it has room for the whole file.
#![tactic(auto)]

ghost use Rattle.std.specs.Prelude.{◌≡◌, true, ◌+◌, ◌≤◌, length, Some, Ok};
ghost use Rattle.base.specs.Pick.{pick};
ghost use Rattle.refusal.specs.Numbers.{number_of, answered};
ghost use Rattle.paper.specs.Days.{real_day};
ghost use Rattle.paper.specs.Batch.{Header, batch_of};
ghost use Rattle.paper.specs.Proper.{fine, header_proper, batch_proper};
ghost use Rattle.paper.specs.Carried.{header_carried};
ghost use Rattle.paper.specs.FirstLine.{spell_first};
ghost use Rattle.paper.specs.Rows.{rows_in, things_in};
ghost use Rattle.paper.specs.Canonical.{canon};
ghost use Rattle.paper.specs.Writing.{Draft, on_verdict, draft_of, draft_with, draft, written_in, output_after};
ghost use Rattle.rows.specs.field.Numbers.{number_of as field_number};
ghost use Rattle.rows.specs.read.After.{after};
ghost use Rattle.write.specs.Told.{header_of, told, refused_at, counted_as, Tells, rows_draft, Named, before};

use refusal::Refusal;
use rows::field::{Field, Wrong};
use sheet::Sheet;
use survey::Unwritable;
use survey::state::Found;

// The whole answer of writing: the number, its row and field; the bytes written or, where there is no room, needed.
#[repr(C)]
#[derive(Clone, Copy)]
pub struct AboWritten {
    pub number: u64,
    pub row: u64,
    pub field: u64,
    pub bytes: u64,
}

// Why a batch is not written, and what is wrong first.
#[derive(Clone, Copy)]
pub struct Refused {
    pub refusal: Refusal,
    pub at: Found,
}

// A refusal writes nothing and names no bytes.
pub fn refusal(refusal: Refusal, row: u64, field: u64) -> AboWritten
    ensures { told result ≡ refused_at (number_of refusal) row field }
{
    AboWritten {
        number: refusal.number(),
        row,
        field,
        bytes: 0,
    }
}

// The file's bytes: written where there is no refusal, needed with 16.
pub fn counted(refusal: Option<Refusal>, bytes: u64) -> AboWritten
    ensures { told result ≡ counted_as (answered refusal) bytes }
{
    let number = match refusal {
        None => 0,
        Some(refusal) => refusal.number(),
    };
    AboWritten {
        number,
        row: 0,
        field: 0,
        bytes,
    }
}

// What is wrong, with its field by its number.
fn by_number(wrong: Wrong) -> Found
    ensures row { result.row ≡ wrong.row }
    ensures field { result.field ≡ field_number wrong.field }
{
    Found {
        row: wrong.row,
        field: wrong.field.number(),
    }
}

// 20 of the header, where the sheet has one.
fn header_proper(
    sh: Sheet,
    date: u64,
    name: &[u8],
    client: u64,
    from: u64,
    to: u64,
) -> Result<(), Field>
    ensures { after 0 result fine ≡ pick sh.header (header_proper (header_of date name.now client from to)) fine }
{
    if sh.header {
        return rows::proper::header_check(date, name, client, from, to);
    }
    Ok(())
}

// 21 of the header, where the sheet has one: the interval's start is not above its end.
fn header_carried(sh: Sheet, from: u64, to: u64) -> Result<(), Field>
    ensures { (h : Header) → h.from ≡ from → h.to ≡ to → after 0 result fine ≡ pick sh.header (header_carried sh.interval h) fine }
{
    if !sh.header {
        return Ok(());
    }
    if sh.interval {
        if to < from {
            return Err(Field::HeaderTo);
        }
    }
    Ok(())
}

// What the sheet cannot carry of the header comes before `next`, which is what the rows are judged to be.
fn carry(sh: Sheet, from: u64, to: u64, next: Result<u64, Refused>) -> Result<u64, Refused>
    ensures { (h : Header) (d : Draft) → h.from ≡ from → h.to ≡ to → Tells next d → Tells result (on_verdict 21 (pick sh.header (header_carried sh.interval h) fine) d) }
{
    match header_carried(sh, from, to) {
        Err(field) => Err(Refused {
            refusal: Refusal::NotCarried,
            at: by_number(Wrong { row: 0, field }),
        }),
        Ok(()) => next,
    }
}

// How many bytes the whole file has, where its lines behind the first have `rest` bytes.
fn file_len(sh: Sheet, rest: u64) -> u64
    requires { rest ≤ 200000000000 }
    ensures { (h : Header) → Named sh h → result ≡ length (spell_first sh h) + 2 + rest }
{
    spelling::linelen::first_len(sh) as u64 + 2 + rest
}

// The rows, behind a header that is as "The batch" says; 20 of the rows comes before 21 of the header.
fn judge_rows(
    rows: &[u8],
    texts: &[u8],
    sh: Sheet,
    today: u64,
    from: u64,
    to: u64,
) -> Result<u64, Refused>
    requires { real_day today ≡ true }
    ensures { (h : Header) → h.from ≡ from → h.to ≡ to → Named sh h → Tells result (rows_draft sh today h (things_in texts.now (rows_in rows.now))) }
{
    match survey::survey(rows, texts, sh, today, from, to) {
        Err(Unwritable::NotABatch(wrong)) => {
            let refusal = Refusal::NotABatch;
            let at = by_number(wrong);
            Err(Refused { refusal, at })
        }
        Err(Unwritable::NotCarried(at)) => {
            let refusal = Refusal::NotCarried;
            carry(sh, from, to, Err(Refused { refusal, at }))
        }
        Ok(rest) => carry(sh, from, to, Ok(file_len(sh, rest))),
    }
}

// The whole batch.
fn judge(
    rows: &[u8],
    texts: &[u8],
    date: u64,
    name: &[u8],
    client: u64,
    from: u64,
    to: u64,
    sh: Sheet,
    today: u64,
) -> Result<u64, Refused>
    requires { real_day today ≡ true }
    ensures { Tells result (draft_of sh today (header_of date name.now client from to) (things_in texts.now (rows_in rows.now))) }
{
    match header_proper(sh, date, name, client, from, to) {
        Err(field) => Err(Refused {
            refusal: Refusal::NotABatch,
            at: by_number(Wrong { row: 0, field }),
        }),
        Ok(()) => judge_rows(rows, texts, sh, today, from, to),
    }
}

// Puts the file: its first line, then the lines of the rows.
fn fill(
    rows: &[u8],
    texts: &[u8],
    date: u64,
    name: &[u8],
    client: u64,
    from: u64,
    to: u64,
    sh: Sheet,
    out: &mut [u8],
)
    requires rows_value { batch_proper (things_in texts.now (rows_in rows.now)) ≡ fine }
    requires rows_in_bounds { length (canon sh (header_of date name.now client from to) (batch_of (things_in texts.now (rows_in rows.now)))) ≤ length out.old }
    ensures { out.new ≡ before (canon sh (header_of date name.now client from to) (batch_of (things_in texts.now (rows_in rows.now)))) out.old }
{
    let at = spelling::putlines::put_first(out, 0, sh, date, name, client, from, to);
    spelling::file::fill_file(rows, texts, sh, out, at);
}

// Nothing is wrong, and the file has so many bytes: it is put if there is room for all of them.
fn accept(
    rows: &[u8],
    texts: &[u8],
    date: u64,
    name: &[u8],
    client: u64,
    from: u64,
    to: u64,
    sh: Sheet,
    today: u64,
    bytes: u64,
    out: &mut [u8],
) -> AboWritten
    requires { Tells (Ok bytes) (draft_of sh today (header_of date name.now client from to) (things_in texts.now (rows_in rows.now))) }
    ensures result_value { told result ≡ written_in (length out.old) (draft_of sh today (header_of date name.now client from to) (things_in texts.now (rows_in rows.now))) }
    ensures out_after { out.new ≡ output_after out.old (draft_of sh today (header_of date name.now client from to) (things_in texts.now (rows_in rows.now))) }
{
    if (out.len() as u64) < bytes {
        return counted(Some(Refusal::NoRoom), bytes);
    }
    fill(rows, texts, date, name, client, from, to, sh, out);
    counted(None, bytes)
}

// The answer on the sheet sh: 2, or what the batch is judged to be.
fn write_on(
    rows: &[u8],
    texts: &[u8],
    date: u64,
    name: &[u8],
    client: u64,
    from: u64,
    to: u64,
    sh: Sheet,
    today: u64,
    out: &mut [u8],
) -> AboWritten
    ensures result_value { told result ≡ written_in (length out.old) (draft_with (Some sh) today (header_of date name.now client from to) (things_in texts.now (rows_in rows.now))) }
    ensures out_after { out.new ≡ output_after out.old (draft_with (Some sh) today (header_of date name.now client from to) (things_in texts.now (rows_in rows.now))) }
{
    if calendar::real_day(today) {
        match judge(rows, texts, date, name, client, from, to, sh, today) {
            Err(refused) => refusal(refused.refusal, refused.at.row, refused.at.field),
            Ok(bytes) => accept(
                rows, texts, date, name, client, from, to, sh, today, bytes, out,
            ),
        }
    } else {
        refusal(Refusal::BadToday, 0, 0)
    }
}

// The whole answer of writing a batch on the sheet of that number, and the output, which a refusal leaves as it was.
pub fn write_file(
    rows: &[u8],
    texts: &[u8],
    date: u64,
    name: &[u8],
    client: u64,
    from: u64,
    to: u64,
    sheet: u64,
    today: u64,
    out: &mut [u8],
) -> AboWritten
    ensures result_value { told result ≡ written_in (length out.old) (draft sheet today (header_of date name.now client from to) rows.now texts.now) }
    ensures out_after { out.new ≡ output_after out.old (draft sheet today (header_of date name.now client from to) rows.now texts.now) }
{
    match sheet::sheet_of(sheet) {
        Some(sh) => write_on(rows, texts, date, name, client, from, to, sh, today, out),
        None => refusal(Refusal::BadSheet, 0, 0),
    }
}
