// What a C program links of `abo`: each of its calls under the same name and contract, on numbers and byte slices; a slice is a pointer and a count of
// bytes.
#![tactic(auto)]

ghost use Rattle.std.specs.Prelude.{◌≡◌, length};
ghost use Rattle.paper.specs.Reading.{read_answer, rows_after};
ghost use Rattle.paper.specs.Writing.{draft, written_in, output_after};
ghost use Rattle.gpc.specs.Answers.{statement_answer, statement_rows, statement_draft};
ghost use Rattle.read.specs.Told.{told as told_read};
ghost use Rattle.write.specs.Told.{told as told_written, header_of};
ghost use Rattle.reader.specs.Named.{told as told_line, line_answer};
ghost use Rattle.statement.specs.reading.Told.{told as told_statement};

use read::AboAnswer;
use reader::AboLine;
use statement::reading::AboStatement;
use write::AboWritten;

// Reads a file on a sheet (1 K, 2 S, 3 C, 4 E, 5 P) with today's date, YYYYMMDD, into lent rows. A refusal leaves the rows as they were.
#[unsafe(no_mangle)]
pub extern "C" fn abo_read(file: &[u8], sheet: u64, today: u64, rows: &mut [u8]) -> AboAnswer
    ensures result_value { told_read result ≡ read_answer sheet today file.now rows.old }
    ensures rows_after { rows.new ≡ rows_after sheet today file.now rows.old }
{
    abo::abo_read(file, sheet, today, rows)
}

// Writes the batch that lent rows hold, their texts in lent bytes, with a header, into a lent output. A refusal leaves the output as it was.
#[unsafe(no_mangle)]
pub extern "C" fn abo_write(
    rows: &[u8],
    texts: &[u8],
    date: u64,
    name: &[u8],
    client: u64,
    from: u64,
    to: u64,
    sheet: u64,
    today: u64,
    out: &mut [u8],
) -> AboWritten
    ensures result_value { told_written result ≡ written_in (length out.old) (draft sheet today (header_of date name.now client from to) rows.now texts.now) }
    ensures out_after { out.new ≡ output_after out.old (draft sheet today (header_of date name.now client from to) rows.now texts.now) }
{
    abo::abo_write(rows, texts, date, name, client, from, to, sheet, today, out)
}

// Finds the line of a number, as refusals count lines: from 1, and the file's end is one more, empty.
#[unsafe(no_mangle)]
pub extern "C" fn abo_line(file: &[u8], line: u64) -> AboLine
    ensures { told_line result ≡ line_answer line file.now }
{
    abo::abo_line(file, line)
}

// Reads a file of statements (GPC records 074 and 075) into lent rows. A refusal leaves the rows as they were.
#[unsafe(no_mangle)]
pub extern "C" fn abo_statement_read(file: &[u8], rows: &mut [u8]) -> AboStatement
    ensures result_value { told_statement result ≡ statement_answer file.now rows.old }
    ensures rows_after { rows.new ≡ statement_rows file.now rows.old }
{
    abo::abo_statement_read(file, rows)
}

// Writes the statements that lent rows hold into a lent output. A refusal leaves the output as it was.
#[unsafe(no_mangle)]
pub extern "C" fn abo_statement_write(rows: &[u8], out: &mut [u8]) -> AboWritten
    ensures result_value { told_written result ≡ written_in (length out.old) (statement_draft rows.now) }
    ensures out_after { out.new ≡ output_after out.old (statement_draft rows.now) }
{
    abo::abo_statement_write(rows, out)
}
