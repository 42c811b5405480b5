// The first line of a file: its fields by place, from left to right.
#![tactic(auto)]

ghost use Rattle.std.specs.Prelude.{◌≡◌, ◌≤◌, length, drop};
ghost use Rattle.numeral.specs.Told as num;
ghost use Rattle.paper.specs.FirstLine.{rest_length, read_to, read_first};
ghost use Rattle.firstline.specs.Stages.{name_in, on_date, on_name, on_client, on_from, on_to, rest_taken};
ghost use Rattle.firstline.specs.Told.{told, told_header, Sound};

use refusal::{Flaw, Refusal, placed};
use sheet::Sheet;

// The fields of a first line, but for the name, which stands in the line from byte 10 to byte 30.
#[derive(Clone, Copy)]
pub struct Header {
    pub date: u64,
    pub client: u64,
    pub from: u64,
    pub to: u64,
}

// The first line s on the sheet sh: its fields, or none, where the sheet reads none.
pub fn first_line(s: &[u8], sh: Sheet) -> Result<Option<Header>, Flaw>
    ensures result_value { told s.now result ≡ read_first sh s.now }
    ensures sound { Sound s.now result }
{
    if sh.header {
        let header = read_date(s, sh.interval, sh.short)?;
        return Ok(Some(header));
    }
    Ok(None)
}

// The creation date, and what follows it.
fn read_date(s: &[u8], ordered: bool, short: bool) -> Result<Header, Flaw>
    ensures { told_header s.now result ≡ on_date ordered short 4 (drop 4 s.now) }
{
    if s.len() < 10 {
        return Err(Flaw(Refusal::BadField, 4));
    }
    let date = placed(calendar::read_day(&s[4..10], false), 4)?;
    read_name(s, ordered, short, date)
}

// The name, and what follows it.
fn read_name(s: &[u8], ordered: bool, short: bool, date: u64) -> Result<Header, Flaw>
    requires { 10 ≤ length s.now }
    ensures { told_header s.now result ≡ on_name ordered short date 10 (drop 10 s.now) }
{
    if s.len() < 30 {
        return Err(Flaw(Refusal::BadField, 10));
    }
    if scan::seek::all_text(&s[10..30], 0) {
        return read_client(s, ordered, short, date);
    }
    Err(Flaw(Refusal::BadField, 10))
}

// The client number, and what follows it.
fn read_client(s: &[u8], ordered: bool, short: bool, date: u64) -> Result<Header, Flaw>
    requires { 30 ≤ length s.now }
    ensures { told_header s.now result ≡ on_client ordered short date (name_in s.now) 30 (drop 30 s.now) }
{
    if s.len() < 40 {
        return Err(Flaw(Refusal::BadField, 30));
    }
    let client = placed(numeral::read_digits(&s[30..40], 10, 10), 30)?;
    read_start(s, ordered, short, date, client)
}

// The interval's start, and what follows it.
fn read_start(s: &[u8], ordered: bool, short: bool, date: u64, client: u64) -> Result<Header, Flaw>
    requires { 40 ≤ length s.now }
    ensures { told_header s.now result ≡ on_from ordered short date (name_in s.now) client 40 (drop 40 s.now) }
{
    if s.len() < 43 {
        return Err(Flaw(Refusal::BadField, 40));
    }
    let from = placed(numeral::read_digits(&s[40..43], 3, 3), 40)?;
    read_stop(s, ordered, short, date, client, from)
}

// The interval's end, and the rest.
fn read_stop(
    s: &[u8],
    ordered: bool,
    short: bool,
    date: u64,
    client: u64,
    from: u64,
) -> Result<Header, Flaw>
    requires { 43 ≤ length s.now }
    ensures { told_header s.now result ≡ on_to ordered short date (name_in s.now) client from 43 (drop 43 s.now) }
{
    if s.len() < 46 {
        return Err(Flaw(Refusal::BadField, 43));
    }
    let to = placed(last_number(&s[43..46], ordered, from), 43)?;
    if rest_taken(s, short) {
        return Ok(Header {
            date,
            client,
            from,
            to,
        });
    }
    Err(Flaw(Refusal::BadField, 46))
}

// The interval's end by itself: where `ordered`, it is not below the start.
fn last_number(f: &[u8], ordered: bool, from: u64) -> Result<u64, Refusal>
    ensures { num.told result ≡ read_to ordered from f.now }
{
    let to = numeral::read_digits(f, 3, 3)?;
    if ordered {
        if to < from {
            return Err(Refusal::BadNumber);
        }
    }
    Ok(to)
}

// May the line have as many bytes as it has, and are those behind byte 46 text?
fn rest_taken(s: &[u8], short: bool) -> bool
    requires { 46 ≤ length s.now }
    ensures { result ≡ rest_taken short (drop 46 s.now) }
{
    if rest_length(s.len() - 46, short) {
        return scan::seek::all_text(s, 46);
    }
    false
}

// May the rest have n bytes: twelve, on K (`short`) also six or none?
pub fn rest_length(n: usize, short: bool) -> bool
    ensures { result ≡ rest_length short n }
{
    n == 12 || short && (n == 6 || n == 0)
}
