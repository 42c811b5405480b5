// What a sheet says of a file on a day: which answer it is (`Verdict`), and the line of a refusal.
#![tactic(auto)]

pub mod sheets;

ghost use Rattle.std.specs.Prelude.{◌≡◌, ◌++◌, length, Some};
ghost use Rattle.sheet.specs.Sheets.{sheet_of};
ghost use Rattle.sheet.proofs.Laws.{Sane};
ghost use Rattle.paper.specs.Numerals.{decimal};
ghost use Rattle.paper.specs.Reading.{read_with};
ghost use Rattle.paper.specs.Explaining.{refused_line};
ghost use Rattle.numeral.specs.counted.Counted.{Counted};
ghost use Rattle.verdict.specs.Told.{verdict_of, verdict_in};

use sheet::Sheet;
use tracing::file::Outcome;

// What is to be said of a file: a refusal's number, line and byte; or number 0, and the counts of rows and warnings.
#[derive(Clone, Copy)]
pub struct Verdict {
    pub number: u64,
    pub line: u64,
    pub byte: u64,
    pub rows: u64,
    pub warnings: u64,
}

// ---- which answer it is

// What a pass over the file came to, as a verdict.
pub fn verdict_of(o: Outcome) -> Verdict
    ensures { result ≡ verdict_in o }
{
    match o {
        Err(x) => Verdict {
            number: x.number,
            line: x.line,
            byte: x.byte,
            rows: 0,
            warnings: 0,
        },
        Ok(tallied) => Verdict {
            number: 0,
            line: 0,
            byte: 0,
            rows: tallied.rows,
            warnings: tallied.warnings,
        },
    }
}

// The verdict on the sheet sh: 2, or what the file comes to. It is the pass that also says what is found, so that each sheet takes what the sheet asked
// for takes.
fn verdict_on(file: &[u8], sh: Sheet, today: u64) -> Verdict
    requires { Sane sh }
    ensures { result ≡ verdict_of (read_with (Some sh) today file.now (length file.now)) }
{
    if calendar::real_day(today) {
        return verdict_of(tracing::file::follow(file, sh, today));
    }
    Verdict {
        number: 2,
        line: 0,
        byte: 0,
        rows: 0,
        warnings: 0,
    }
}

// The verdict on the sheet of that number.
pub fn verdict_for(file: &[u8], sheet: u64, today: u64) -> Verdict
    ensures { result ≡ verdict_of (read_with (sheet_of sheet) today file.now (length file.now)) }
{
    match sheet::sheet_of(sheet) {
        Some(sh) => verdict_on(file, sh, today),
        None => Verdict {
            number: 1,
            line: 0,
            byte: 0,
            rows: 0,
            warnings: 0,
        },
    }
}

// ---- how it is worded

// A word and a number behind it.
pub fn put_said(out: &mut [u8], at: usize, word: &[u8], n: u64) -> usize
    ensures { Counted out.old at (word.now ++ decimal n) out.new result }
{
    let e = numeral::counted::put_bytes(out, at, word);
    numeral::counted::put_number(out, e, n)
}

// The line of a refusal.
pub fn put_refused(out: &mut [u8], at: usize, number: u64, line: u64, byte: u64) -> usize
    ensures { Counted out.old at (refused_line number line byte) out.new result }
{
    let e = put_said(out, at, b"refused ", number);
    let f = put_said(out, e, b" line ", line);
    let g = put_said(out, f, b" byte ", byte);
    numeral::counted::put_byte(out, g, 10)
}
