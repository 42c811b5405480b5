// The calls for a C program, on numbers and byte slices; `abo_c` exports them. Each is the call of the same contract in a crate of its own. Those that say
// what is found in a file are in `tell`.
#![tactic(auto)]

ghost use Rattle.std.specs.Prelude.{◌≡◌, length};
ghost use Rattle.paper.specs.Reading.{read_answer, rows_after};
ghost use Rattle.paper.specs.Writing.{draft, written_in, output_after};
ghost use Rattle.gpc.specs.Answers.{statement_answer, statement_rows, statement_draft};
ghost use Rattle.read.specs.Told.{told as told_read};
ghost use Rattle.write.specs.Told.{told as told_written, header_of};
ghost use Rattle.reader.specs.Named.{told as told_line, line_answer};
ghost use Rattle.statement.specs.reading.Told.{told as told_statement};

use read::AboAnswer;
use reader::AboLine;
use statement::reading::AboStatement;
use write::AboWritten;

// Reads a file on a sheet (1 K, 2 S, 3 C, 4 E, 5 P) with today's date, YYYYMMDD, into lent rows. A refusal leaves the rows as they were.
pub fn abo_read(file: &[u8], sheet: u64, today: u64, rows: &mut [u8]) -> AboAnswer
    ensures result_value { told_read result ≡ read_answer sheet today file.now rows.old }
    ensures rows_after { rows.new ≡ rows_after sheet today file.now rows.old }
{
    read::read_file(file, sheet, today, rows)
}

// Writes the batch that lent rows hold, their texts in lent bytes, with a header, into a lent output. A refusal leaves the output as it was.
pub fn abo_write(
    rows: &[u8],
    texts: &[u8],
    date: u64,
    name: &[u8],
    client: u64,
    from: u64,
    to: u64,
    sheet: u64,
    today: u64,
    out: &mut [u8],
) -> AboWritten
    ensures result_value { told_written result ≡ written_in (length out.old) (draft sheet today (header_of date name.now client from to) rows.now texts.now) }
    ensures out_after { out.new ≡ output_after out.old (draft sheet today (header_of date name.now client from to) rows.now texts.now) }
{
    write::write_file(rows, texts, date, name, client, from, to, sheet, today, out)
}

// Finds the line of a number, as refusals count lines: from 1, and the file's end is one more, empty.
pub fn abo_line(file: &[u8], line: u64) -> AboLine
    ensures { told_line result ≡ line_answer line file.now }
{
    reader::line_of(file, line)
}

// Reads a file of statements (GPC records 074 and 075) into lent rows. A refusal leaves the rows as they were.
pub fn abo_statement_read(file: &[u8], rows: &mut [u8]) -> AboStatement
    ensures result_value { told_statement result ≡ statement_answer file.now rows.old }
    ensures rows_after { rows.new ≡ statement_rows file.now rows.old }
{
    statement::reading::read_statements(file, rows)
}

// Writes the statements that lent rows hold into a lent output. A refusal leaves the output as it was.
pub fn abo_statement_write(rows: &[u8], out: &mut [u8]) -> AboWritten
    ensures result_value { told_written result ≡ written_in (length out.old) (statement_draft rows.now) }
    ensures out_after { out.new ≡ output_after out.old (statement_draft rows.now) }
{
    statement::writing::write_statements(rows, out)
}
