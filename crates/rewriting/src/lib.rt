// The rewriting program's work on lent bytes: an input of a line and a file is answered by the canonical file, or by the line of a refusal.
#![tactic(auto)]

pub mod request;

ghost use Rattle.std.specs.Prelude.{◌≡◌, true, List, ℕ, ◌*◌, ◌≤◌, length, Some};
ghost use Rattle.base.specs.Put.{Wrote};
ghost use Rattle.sheet.specs.Sheets.{sheet_of};
ghost use Rattle.paper.specs.Days.{real_day};
ghost use Rattle.paper.specs.Judge.{judge};
ghost use Rattle.paper.specs.Writing.{drafted, draft};
ghost use Rattle.paper.specs.Rewriting.{rewritten, rewriting};
ghost use Rattle.read.specs.Told.{told_header};
ghost use Rattle.bounds.specs.Most.{most_input, most_rows, most_output};

use read::AboHeader;
use sheet::Sheet;

// Writes what the rows say, where nothing is refused and there is room: the file s stands at the output's front.
fn write_back(
    rows: &[u8],
    file: &[u8],
    h: AboHeader,
    sheet: u64,
    today: u64,
    out: &mut [u8],
) -> usize
    ensures { (s : List ℕ) → draft sheet today (told_header h) rows.now file.now ≡ drafted s → length s ≤ length out.old → Wrote out.old 0 s out.new result }
{
    let w = write::write_file(
        rows, file, h.date, &h.name, h.client, h.from, h.to, sheet, today, out,
    );
    w.bytes as usize
}

// Rewrites a file on a known sheet and a real day.
fn rewrite_file(file: &[u8], sh: Sheet, today: u64, rows: &mut [u8], out: &mut [u8]) -> usize
    requires number_value { (sheet_of sh.number ≡ Some sh) × (real_day today ≡ true) × (length file.now ≤ most_input) }
    requires most_rows_in_bounds { (192 * most_rows ≤ length rows.old) × (most_output ≤ length out.old) }
    ensures { Wrote out.old 0 (rewritten sh (judge sh today file.now)) out.new result }
{
    let a = read::read_file(file, sh.number, today, rows);
    if a.number == 0 {
        let end = 192 * (a.rows as usize);
        return write_back(&rows[0..end], file, a.header, sh.number, today, out);
    }
    verdict::put_refused(out, 0, a.number, a.line, a.byte)
}

// Puts at the output's front what the program writes for the input; the rows are room to work in. A line that gives a row has 8 bytes or
// more, so that 8 KiB give 1,024 rows at most; and a row's lines have at most 345 bytes in the canonical file.
pub fn rewrite(input: &[u8], rows: &mut [u8], out: &mut [u8]) -> usize
    requires { (192 * most_rows ≤ length rows.old) × (most_output ≤ length out.old) }
    ensures { Wrote out.old 0 (rewriting input.now) out.new result }
{
    match crate::request::read_request(input) {
        Ok(asked) => rewrite_file(&input[asked.at..], asked.sh, asked.today, rows, out),
        Err(refusal) => verdict::put_refused(out, 0, refusal.number(), 0, 0),
    }
}
