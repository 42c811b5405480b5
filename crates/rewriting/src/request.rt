// The first line of the rewriting program's input: the sheet's letter, a space, and today.
ghost use Rattle.std.specs.Prelude.{◌≡◌, ◌<◌, length, get_or, Some};
ghost use Rattle.sheet.specs.Sheets.{sheet_by};
ghost use Rattle.paper.specs.Rewriting.{day_field, rewriting};
ghost use Rattle.numeral.specs.Told.{told};
ghost use Rattle.rewriting.specs.request.Asked.{answer, Sound};

use refusal::Refusal;
use sheet::Sheet;

// The file that is asked for, on a sheet and a day: it begins at `at` of the input.
#[derive(Clone, Copy)]
pub struct Request {
    pub sh: Sheet,
    pub today: u64,
    pub at: usize,
}

// A space, and today as DDMMRR.
fn read_today(s: &[u8]) -> Result<u64, Refusal>
    ensures { told result ≡ day_field s.now }
{
    if s.len() == 0 {
        return Err(Refusal::BadToday);
    }
    if s[0] == 32 {
        return calendar::read_day(&s[1..], false);
    }
    Err(Refusal::BadToday)
}

// Behind the letter, which names the sheet sh: 2, then 16, then the file.
fn on_sheet(input: &[u8], sh: Sheet) -> Result<Request, Refusal>
    requires input_nonzero { 0 < length input.now }
    requires input_value { sheet_by (get_or input.now 0 0) ≡ Some sh }
    ensures result_value { answer input.now result ≡ rewriting input.now }
    ensures sound { Sound input.now result }
{
    let cut = scan::line::next_line(input, 0);
    let stop = cut.stop;
    let at = cut.next;
    let Ok(today) = read_today(&input[1..stop]) else {
        return Err(Refusal::BadToday);
    };
    if 8192 < input.len() {
        return Err(Refusal::NoRoom);
    }
    Ok(Request { sh, today, at })
}

// What the whole input asks for; or what its first line or its length is refused for.
pub fn read_request(input: &[u8]) -> Result<Request, Refusal>
    ensures result_value { answer input.now result ≡ rewriting input.now }
    ensures sound { Sound input.now result }
{
    if input.len() == 0 {
        return Err(Refusal::BadSheet);
    }
    let Some(sh) = sheet::sheet_by(input[0]) else {
        return Err(Refusal::BadSheet);
    };
    on_sheet(input, sh)
}
