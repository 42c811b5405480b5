// What each known sheet says of a file on a day: a line for each, and a bit for each that accepts it.
ghost use Rattle.std.specs.Prelude.{◌≡◌, true, ◌∷◌, ◌++◌, eqb, length};
ghost use Rattle.base.specs.Pick.{pick};
ghost use Rattle.sheet.specs.Sheets.{sheet_of};
ghost use Rattle.paper.specs.Bytes.{bytes};
ghost use Rattle.paper.specs.Days.{real_day};
ghost use Rattle.paper.specs.Reading.{read_with};
ghost use Rattle.numeral.specs.counted.Counted.{Counted};
ghost use Rattle.verdict.specs.Told.{verdict_of};
ghost use Rattle.verdict.specs.Sheets.{accepted_words, refused_words, verdict_words, sheet_lines, accepting};

use crate::Verdict;

// The verdict on the sheet n. That of the sheet asked for is known already, so that the file is not judged by it again.
fn verdict_at(file: &[u8], n: u64, today: u64, asked: u64, v: Verdict) -> Verdict
    requires { v ≡ verdict_of (read_with (sheet_of asked) today file.now (length file.now)) }
    ensures { result ≡ verdict_of (read_with (sheet_of n) today file.now (length file.now)) }
{
    if n == asked {
        return v;
    }
    crate::verdict_for(file, n, today)
}

// ---- in lines

// Of a sheet that accepts the file.
fn put_accepted(out: &mut [u8], at: usize, warnings: u64) -> usize
    ensures { Counted out.old at (accepted_words warnings) out.new result }
{
    let e = crate::put_said(out, at, b": accepted, warnings ", warnings);
    numeral::counted::put_bytes(out, e, b".\n")
}

// Of one that refuses it.
fn put_refused(out: &mut [u8], at: usize, number: u64, line: u64, byte: u64) -> usize
    ensures { Counted out.old at (refused_words number line byte) out.new result }
{
    let e = crate::put_said(out, at, b": refused (", number);
    let f = crate::put_said(out, e, b") at line ", line);
    let g = crate::put_said(out, f, b", byte ", byte);
    numeral::counted::put_bytes(out, g, b".\n")
}

// Of either.
fn put_verdict(out: &mut [u8], at: usize, v: Verdict) -> usize
    ensures { Counted out.old at (verdict_words v) out.new result }
{
    if v.number == 0 {
        return put_accepted(out, at, v.warnings);
    }
    put_refused(out, at, v.number, v.line, v.byte)
}

// The line: the sheet's letter, and what it says.
fn put_sheet(out: &mut [u8], at: usize, letter: u8, v: Verdict) -> usize
    ensures { Counted out.old at (bytes "Sheet " ++ (letter ∷ verdict_words v)) out.new result }
{
    let d = numeral::counted::put_bytes(out, at, b"Sheet ");
    let e = numeral::counted::put_byte(out, d, letter);
    put_verdict(out, e, v)
}

// The lines of all known sheets, whose numbers are 1, 2, .. up to the first that names none; v is the verdict on the sheet asked for.
pub fn put_sheets(
    out: &mut [u8],
    at: usize,
    file: &[u8],
    today: u64,
    asked: u64,
    v: Verdict,
) -> usize
    requires { v ≡ verdict_of (read_with (sheet_of asked) today file.now (length file.now)) }
    ensures { Counted out.old at (sheet_lines today file.now) out.new result }
{
    let mut next = at;
    let mut k: u64 = 0;
    while let Some(sh) = sheet::sheet_of(k + 1) {
        let said = verdict_at(file, k + 1, today, asked, v);
        next = put_sheet(out, next, sh.letter, said);
        k += 1;
    }
    next
}

// ---- in bits

// The bit, if the verdict is that the file is accepted.
fn bit_if(v: Verdict, bit: u64) -> u64
    ensures { result ≡ pick (eqb v.number 0) bit 0 }
{
    if v.number == 0 {
        return bit;
    }
    0
}

// The bits of all known sheets; `bit` is the one at `place`.
pub fn accepting(file: &[u8], today: u64, asked: u64, v: Verdict) -> u64
    requires today_value { real_day today ≡ true }
    requires v_value { v ≡ verdict_of (read_with (sheet_of asked) today file.now (length file.now)) }
    ensures { result ≡ accepting today file.now }
{
    let mut set: u64 = 0;
    let mut bit: u64 = 1;
    let mut place: u64 = 0;
    while let Some(_) = sheet::sheet_of(place + 1) {
        let judged = verdict_at(file, place + 1, today, asked, v);
        set += bit_if(judged, bit);
        bit *= 2;
        place += 1;
    }
    set
}
