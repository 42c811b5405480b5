// What is found in a file, in sentences for the clerk: whether it is refused, why or what it warns of, and what each sheet says of it.
#![tactic(auto)]

ghost use Rattle.std.specs.Prelude.{◌≡◌, true, ◌≤◌, length, Some};
ghost use Rattle.sheet.specs.Sheets.{sheet_of};
ghost use Rattle.sheet.proofs.Laws.{Sane};
ghost use Rattle.paper.specs.Days.{real_day};
ghost use Rattle.paper.specs.Writing.{drafted, written_in, output_after};
ghost use Rattle.numeral.specs.counted.Counted.{Counted};
ghost use Rattle.tracing.specs.file.Comes.{Comes};
ghost use Rattle.explain.specs.Explanation.{refused_heading, counts_words, accepted_heading, text_on, explanation_with, explanation};
ghost use Rattle.explain.specs.Parts.{heading_in, text_in};
ghost use Rattle.explain.specs.Told.{text_answer, told};

use listing::Telling;
use sheet::Sheet;
use tracing::file::Outcome;

// The whole answer: number 0 and the bytes written, or 16 and the bytes needed; 1 and 2 with none.
#[repr(C)]
#[derive(Clone, Copy)]
pub struct AboText {
    pub number: u64,
    pub bytes: u64,
}

// ---- the text

// `Refused on sheet K.`
fn put_refused(out: &mut [u8], at: usize, letter: u8) -> usize
    ensures { Counted out.old at (refused_heading letter) out.new result }
{
    let d = numeral::counted::put_bytes(out, at, b"Refused on sheet ");
    let e = numeral::counted::put_byte(out, d, letter);
    numeral::counted::put_bytes(out, e, b".\n")
}

// `, rows R, warnings W.`
fn put_counts(out: &mut [u8], at: usize, rows: u64, warnings: u64) -> usize
    ensures { Counted out.old at (counts_words rows warnings) out.new result }
{
    let e = verdict::put_said(out, at, b", rows ", rows);
    let f = verdict::put_said(out, e, b", warnings ", warnings);
    numeral::counted::put_bytes(out, f, b".\n")
}

// `Accepted on sheet K, rows R, warnings W.`
fn put_accepted(out: &mut [u8], at: usize, letter: u8, rows: u64, warnings: u64) -> usize
    ensures { Counted out.old at (accepted_heading letter rows warnings) out.new result }
{
    let c = numeral::counted::put_bytes(out, at, b"Accepted on sheet ");
    let d = numeral::counted::put_byte(out, c, letter);
    put_counts(out, d, rows, warnings)
}

// The one or the other.
fn put_heading(out: &mut [u8], at: usize, letter: u8, o: Outcome) -> usize
    ensures { Counted out.old at (heading_in letter o) out.new result }
{
    match o {
        Err(_) => put_refused(out, at, letter),
        Ok(tallied) => put_accepted(out, at, letter, tallied.rows, tallied.warnings),
    }
}

// All of it, with the sheets' lines at its end.
fn put_text(out: &mut [u8], at: usize, t: Telling, file: &[u8], o: Outcome, lines: &[u8]) -> usize
    requires sane { Sane t.sheet × (real_day t.today ≡ true) }
    requires comes { Comes t.sheet t.today file.now o }
    ensures { Counted out.old at (text_in t file.now o lines.now) out.new result }
{
    let d = put_heading(out, at, t.sheet.letter, o);
    let e = findings::outcome::put_findings(out, d, t, file, o);
    numeral::counted::put_bytes(out, e, lines)
}

// How many bytes it has: it is put where nothing is lent.
fn text_len(t: Telling, file: &[u8], o: Outcome, lines: &[u8]) -> usize
    requires sane { Sane t.sheet × (real_day t.today ≡ true) }
    requires comes { Comes t.sheet t.today file.now o }
    requires words_value { t.words ≡ true }
    requires lines_len_bound { length lines.now ≤ 1024 }
    ensures { result ≡ length (text_in t file.now o lines.now) }
{
    let mut nothing = [0; 0];
    put_text(&mut nothing, 0, t, file, o, lines)
}

// ---- where it has room

// The text, or that it has no room.
fn put_whole(t: Telling, file: &[u8], o: Outcome, lines: &[u8], out: &mut [u8]) -> AboText
    requires sane { Sane t.sheet × (real_day t.today ≡ true) }
    requires comes { Comes t.sheet t.today file.now o }
    requires words_value { t.words ≡ true }
    requires lines_len_bound { length lines.now ≤ 1024 }
    ensures result_value { told result ≡ text_answer (written_in (length out.old) (drafted (text_in t file.now o lines.now))) }
    ensures out_after { out.new ≡ output_after out.old (drafted (text_in t file.now o lines.now)) }
{
    let n = text_len(t, file, o, lines);
    if out.len() < n {
        return AboText {
            number: 16,
            bytes: n as u64,
        };
    }
    put_text(out, 0, t, file, o, lines);
    AboText {
        number: 0,
        bytes: n as u64,
    }
}

// On the sheet sh, which the number names, on a real day. The sheets' lines are put aside first, so that no sheet judges the file twice.
fn explain_that_day(file: &[u8], sheet: u64, sh: Sheet, today: u64, out: &mut [u8]) -> AboText
    requires sane { Sane sh × (real_day today ≡ true) }
    requires sheet_value { sheet_of sheet ≡ Some sh }
    ensures result_value { told result ≡ text_answer (written_in (length out.old) (drafted (text_on sh today file.now))) }
    ensures out_after { out.new ≡ output_after out.old (drafted (text_on sh today file.now)) }
{
    let o = tracing::file::follow(file, sh, today);
    let v = verdict::verdict_of(o);
    let mut lines = [0u8; 1024];
    let n = verdict::sheets::put_sheets(&mut lines, 0, file, today, sheet, v);
    let t = Telling {
        words: true,
        sheet: sh,
        today,
    };
    put_whole(t, file, o, &lines[0..n], out)
}

// On the sheet sh: 2, or the text.
fn explain_on(file: &[u8], sheet: u64, sh: Sheet, today: u64, out: &mut [u8]) -> AboText
    requires sane { Sane sh }
    requires sheet_value { sheet_of sheet ≡ Some sh }
    ensures result_value { told result ≡ text_answer (written_in (length out.old) (explanation_with (Some sh) today file.now)) }
    ensures out_after { out.new ≡ output_after out.old (explanation_with (Some sh) today file.now) }
{
    if calendar::real_day(today) {
        return explain_that_day(file, sheet, sh, today, out);
    }
    no_text(2)
}

// 1 or 2, and no text.
fn no_text(number: u64) -> AboText
    ensures { told result ≡ record { number = number; bytes = 0 } }
{
    AboText { number, bytes: 0 }
}

// Explains a file on the sheet of that number, in the front of the output; where the text has no room, the output is left as it was.
pub fn explain_file(file: &[u8], sheet: u64, today: u64, out: &mut [u8]) -> AboText
    ensures result_value { told result ≡ text_answer (written_in (length out.old) (explanation sheet today file.now)) }
    ensures out_after { out.new ≡ output_after out.old (explanation sheet today file.now) }
{
    match sheet::sheet_of(sheet) {
        Some(sh) => explain_on(file, sheet, sh, today, out),
        None => no_text(1),
    }
}
