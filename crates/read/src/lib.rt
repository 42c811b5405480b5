// Reading a whole file into lent rows, with the whole answer in one struct. The file is judged first; rows are put only if it is accepted and
// they have room.
#![tactic(auto)]

ghost use Rattle.std.specs.Prelude.{◌≡◌, true, ◌/◌, ◌≤◌, length, take, drop, Some};
ghost use Rattle.refusal.specs.Numbers.{number_of};
ghost use Rattle.sheet.proofs.Laws.{Sane};
ghost use Rattle.paper.specs.Days.{real_day};
ghost use Rattle.paper.specs.Rows.{row_size};
ghost use Rattle.paper.specs.Reading.{refused_at, needs, read_with, rows_with, read_answer, rows_after};
ghost use Rattle.tally.specs.Short.{Yes, tally};
ghost use Rattle.judge.specs.file.Answer.{head_of, NameIn, Sound};
ghost use Rattle.read.specs.Told.{told_header, told};

use firstline::Header;
use judge::file::Accepted;
use judge::refused::Refused;
use refusal::Refusal;
use sheet::Sheet;

// The header of a file. The name is 20 bytes.
#[repr(C)]
#[derive(Clone, Copy)]
pub struct AboHeader {
    pub date: u64,
    pub client: u64,
    pub from: u64,
    pub to: u64,
    pub name: [u8; 20],
}

// The whole answer of reading: the number, its line and byte; counts of rows and warnings; the rows needed where there is no room; the header.
#[repr(C)]
#[derive(Clone, Copy)]
pub struct AboAnswer {
    pub number: u64,
    pub line: u64,
    pub byte: u64,
    pub rows: u64,
    pub warnings: u64,
    pub needed: u64,
    pub header: AboHeader,
}

// The header where none is read: C's.
const NO_HEADER: AboHeader = AboHeader {
    date: 0,
    client: 0,
    from: 0,
    to: 0,
    name: [32; 20],
};

// A refusal. Numbers that are not named are 0, and no header is read.
pub fn refusal(refused: Refused) -> AboAnswer
    ensures { told result ≡ refused_at (number_of refused.refusal) refused.line refused.byte }
{
    AboAnswer {
        number: refused.refusal.number(),
        line: refused.line,
        byte: refused.byte,
        rows: 0,
        warnings: 0,
        needed: 0,
        header: NO_HEADER,
    }
}

// There is no room: the rows needed.
fn no_room(count: u64) -> AboAnswer
    ensures { told result ≡ needs count }
{
    AboAnswer {
        number: Refusal::NoRoom.number(),
        line: 0,
        byte: 0,
        rows: 0,
        warnings: 0,
        needed: count,
        header: NO_HEADER,
    }
}

// The name: the 20 bytes of the file behind `UHL1` and the date.
fn name_of(file: &[u8]) -> [u8; 20]
    requires { 30 ≤ length file.now }
    ensures { result ≡ take 20 (drop 10 file.now) }
{
    let mut name = [32u8; 20];
    name.copy_from_slice(&file[10..30]);
    name
}

// The header as it was read, if there is one.
fn header_of(file: &[u8], head: Option<Header>) -> AboHeader
    requires { NameIn file.now head }
    ensures { told_header result ≡ head_of file.now head }
{
    match head {
        Some(header) => AboHeader {
            date: header.date,
            client: header.client,
            from: header.from,
            to: header.to,
            name: name_of(file),
        },
        None => NO_HEADER,
    }
}

// The file was judged and accepted. Rows are put if there is room for all of them.
pub fn accept(file: &[u8], sh: Sheet, today: u64, accepted: Accepted, rows: &mut [u8]) -> AboAnswer
    requires sane { Sane sh × (real_day today ≡ true) }
    requires file_value { tally sh today file.now ≡ Yes (head_of file.now accepted.head) accepted.rows accepted.warnings }
    requires sound { Sound file.now accepted.head accepted.rows accepted.warnings }
    ensures result_value { told result ≡ read_with (Some sh) today file.now (length rows.old / row_size) }
    ensures rows_after { rows.new ≡ rows_with (Some sh) today file.now rows.old }
{
    let count = accepted.rows;
    let room = rows.len() / 192;
    if (room as u64) < count {
        return no_room(count);
    }
    fill::file::fill_rows(file, sh, today, rows);
    AboAnswer {
        number: 0,
        line: 0,
        byte: 0,
        rows: count,
        warnings: accepted.warnings,
        needed: 0,
        header: header_of(file, accepted.head),
    }
}

// The answer on the sheet sh: a day that is not real is refused, else it is what the file is judged to be.
pub fn read_on(file: &[u8], sh: Sheet, today: u64, rows: &mut [u8]) -> AboAnswer
    requires { Sane sh }
    ensures result_value { told result ≡ read_with (Some sh) today file.now (length rows.old / row_size) }
    ensures rows_after { rows.new ≡ rows_with (Some sh) today file.now rows.old }
{
    if calendar::real_day(today) {
        match judge::file::judge_file(file, sh, today) {
            Ok(accepted) => accept(file, sh, today, accepted, rows),
            Err(refused) => refusal(refused),
        }
    } else {
        refusal(Refused {
            refusal: Refusal::BadToday,
            line: 0,
            byte: 0,
        })
    }
}

// The whole answer of reading a file on the sheet of that number, and the rows, which a refusal leaves as they were.
pub fn read_file(file: &[u8], sheet: u64, today: u64, rows: &mut [u8]) -> AboAnswer
    ensures result_value { told result ≡ read_answer sheet today file.now rows.old }
    ensures rows_after { rows.new ≡ rows_after sheet today file.now rows.old }
{
    match sheet::sheet_of(sheet) {
        Some(sh) => read_on(file, sh, today, rows),
        None => refusal(Refused {
            refusal: Refusal::BadSheet,
            line: 0,
            byte: 0,
        }),
    }
}
