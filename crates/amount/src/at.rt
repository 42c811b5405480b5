// Amounts in a line: read at their place with the field's end, and taken where the line was judged before.
ghost use Rattle.std.specs.Prelude.{◌≡◌, ◌≤◌, ◌<◌, length};
ghost use Rattle.base.specs.Pick.{pick};
ghost use Rattle.base.specs.Seek.{seek};
ghost use Rattle.paper.specs.Read.{value, fault};
ghost use Rattle.paper.specs.Bytes.{comma};
ghost use Rattle.paper.specs.Amounts.{with_comma, read_amount, amount_proper, read_item_amount, read_total};
ghost use Rattle.numeral.specs.Told.{told as number};
ghost use Rattle.numeral.specs.field.At.{ending, field_at};
ghost use Rattle.numeral.specs.field.Told.{told};
ghost use Rattle.numeral.specs.placed.Known.{There};
ghost use Rattle.numeral.specs.placed.Told.{told_number};

use numeral::field::Run;
use refusal::Refusal;

// Crowns, the comma at d, and two digits.
fn with_comma(f: &[u8], d: usize) -> Result<u64, Refusal>
    requires { (d < length f.now) × (d ≡ seek comma f.now) }
    ensures { number result ≡ with_comma f.now }
{
    let crowns = numeral::read_digits(&f[0..d], 1, 11)?;
    let from = d + 1;
    let rest = numeral::read_digits(&f[from..], 2, 2)?;
    Ok(crowns * 100 + rest)
}

// An amount of 1 to `most` digits; if it `may`, one with a comma too.
pub fn read_amount(f: &[u8], may: bool, most: usize) -> Result<u64, Refusal>
    requires { most ≤ 19 }
    ensures { number result ≡ read_amount may most f.now }
{
    if may {
        let d = scan::find::find_byte(f, 0, 44);
        if d < f.len() {
            return with_comma(f, d);
        }
        return numeral::read_digits(f, 1, most);
    }
    numeral::read_digits(f, 1, most)
}

// The amount at `at`, by the bytes of the whole field.
fn whole_amount(s: &[u8], at: usize, may: bool, most: usize) -> Result<Run, Refusal>
    requires { (at ≤ length s.now) × (most ≤ 19) }
    ensures { told result ≡ field_at (read_amount may most) s.now at }
{
    let end = scan::line::field_end(s, at);
    let value = read_amount(&s[at..end], may, most)?;
    Ok(Run { value, end })
}

// The amount of an item, refused where it is zero or over its limit.
fn in_limit(amount: Run, max: u64) -> Result<Run, Refusal>
    ensures { told result ≡ ending amount.end (pick (amount_proper max amount.value) (value amount.value) (fault 6)) }
{
    if crate::amount_proper(max, amount.value) {
        return Ok(amount);
    }
    Err(Refusal::BadAmount)
}

// An item's amount at `at`, by the bytes of the whole field.
fn other_amount(s: &[u8], at: usize, may: bool, most: usize, max: u64) -> Result<Run, Refusal>
    requires { (at ≤ length s.now) × (most ≤ 19) }
    ensures { told result ≡ field_at (read_item_amount may most max) s.now at }
{
    let amount = whole_amount(s, at, may, most)?;
    in_limit(amount, max)
}

// An item's amount at `at`. Nearly all are digits alone; any other, one with a comma too, is left to the reader of whole fields.
pub fn amount_at(s: &[u8], at: usize, may: bool, most: usize, max: u64) -> Result<Run, Refusal>
    requires { (at ≤ length s.now) × (most ≤ 19) }
    ensures { told result ≡ field_at (read_item_amount may most max) s.now at }
{
    let Ok(amount) = numeral::field::number_at(s, at, 1, most) else {
        return other_amount(s, at, may, most, max);
    };
    in_limit(amount, max)
}

// A group's total at `at`, read as an item's amount is: digits alone first.
pub fn total_at(s: &[u8], at: usize, may: bool) -> Result<Run, Refusal>
    requires { at ≤ length s.now }
    ensures { told result ≡ field_at (read_total may) s.now at }
{
    let Ok(total) = numeral::field::number_at(s, at, 1, 14) else {
        return whole_amount(s, at, may, 14);
    };
    Ok(total)
}

// An item's amount at `at`: two digits may follow a comma. What the sheet allows was judged.
pub fn take_amount(s: &[u8], at: usize, may: bool, most: usize, max: u64) -> Run
    requires most_bound { most ≤ 19 }
    requires there { There (read_item_amount may most max) s.now at }
    ensures { told_number result ≡ field_at (read_item_amount may most max) s.now at }
{
    let first = numeral::placed::take_run(s, at);
    let end = first.end;
    if s[end] == 44 {
        let rest = numeral::placed::take_run(s, end + 1);
        return Run {
            value: first.value * 100 + rest.value,
            end: rest.end,
        };
    }
    first
}
