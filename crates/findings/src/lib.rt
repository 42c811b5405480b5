// What is found in a file, as numbers: the one finding of a refused file, every warning of an accepted one; and which sheets accept it.
#![tactic(auto)]

pub mod outcome;

ghost use Rattle.std.specs.Prelude.{◌≡◌, true, ◌/◌, length, Some};
ghost use Rattle.sheet.specs.Sheets.{sheet_of};
ghost use Rattle.sheet.proofs.Laws.{Sane};
ghost use Rattle.paper.specs.Days.{real_day};
ghost use Rattle.findings.specs.Lists.{no_list, needs_room, list_in, filled_in, list_with, filled_with, list_answer, list_after};
ghost use Rattle.findings.specs.Told.{told};

use listing::Telling;
use sheet::Sheet;

// The whole answer: number 0, 1, 2 or 16; whether the file is refused; how many findings there are or, with 16, are needed; and the sheets that
// accept the file, bit n - 1 for sheet n.
#[repr(C)]
#[derive(Clone, Copy)]
pub struct AboList {
    pub number: u64,
    pub refused: u64,
    pub count: u64,
    pub needed: u64,
    pub sheets: u64,
}

// No list: 1 or 2.
fn no_list(number: u64) -> AboList
    ensures { told result ≡ no_list number }
{
    AboList {
        number,
        refused: 0,
        count: 0,
        needed: 0,
        sheets: 0,
    }
}

// There is no room: 16, and how many findings there are.
fn no_room(needed: u64) -> AboList
    ensures { told result ≡ needs_room needed }
{
    AboList {
        number: 16,
        refused: 0,
        count: 0,
        needed,
        sheets: 0,
    }
}

// The list on the sheet sh, which the number names, on a real day.
fn list_that_day(file: &[u8], sheet: u64, sh: Sheet, today: u64, out: &mut [u8]) -> AboList
    requires sane { Sane sh × (real_day today ≡ true) }
    requires sheet_value { sheet_of sheet ≡ Some sh }
    ensures result_value { told result ≡ list_in (length out.old / 64) sh today file.now }
    ensures out_after { out.new ≡ filled_in out.old sh today file.now }
{
    let o = tracing::file::follow(file, sh, today);
    let count = crate::outcome::count_of(o);
    if ((out.len() / 64) as u64) < count {
        return no_room(count);
    }
    let v = verdict::verdict_of(o);
    let refused = crate::outcome::refused_of(o);
    let sheets = verdict::sheets::accepting(file, today, sheet, v);
    let t = Telling {
        words: false,
        sheet: sh,
        today,
    };
    crate::outcome::put_findings(out, 0, t, file, o);
    AboList {
        number: 0,
        refused,
        count,
        needed: 0,
        sheets,
    }
}

// The list on the sheet sh: 2, or what is found.
fn list_on(file: &[u8], sheet: u64, sh: Sheet, today: u64, out: &mut [u8]) -> AboList
    requires sane { Sane sh }
    requires sheet_value { sheet_of sheet ≡ Some sh }
    ensures result_value { told result ≡ list_with (Some sh) today file.now (length out.old / 64) }
    ensures out_after { out.new ≡ filled_with (Some sh) today file.now out.old }
{
    if calendar::real_day(today) {
        return list_that_day(file, sheet, sh, today, out);
    }
    no_list(2)
}

// Lists what is found in a file on the sheet of that number, in the front of what is lent; a refusal leaves it as it was.
pub fn list_file(file: &[u8], sheet: u64, today: u64, out: &mut [u8]) -> AboList
    ensures result_value { told result ≡ list_answer sheet today file.now out.old }
    ensures out_after { out.new ≡ list_after sheet today file.now out.old }
{
    match sheet::sheet_of(sheet) {
        Some(sh) => list_on(file, sheet, sh, today, out),
        None => no_list(1),
    }
}
