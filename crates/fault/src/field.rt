// The rules of a field tested in their order, over the field's bytes.
ghost use Rattle.std.specs.Prelude.{◌≡◌, true, List, [], ◌∷◌, ℕ, ◌≤◌, ◌<◌};
ghost use Rattle.why.specs.Rule.{within, first_broken};
ghost use Rattle.paper.specs.Batch.{Header};
ghost use Rattle.paper.specs.FileLine.{series};
ghost use Rattle.paper.specs.Spells.{after};
ghost use Rattle.fileline.specs.seen.Bits.{Holds};
ghost use Rattle.why.specs.Forms.{spelled};
ghost use Rattle.why.specs.Fields.{digit_rules, day_rules, name_rules, end_rules, rest_rules, kind_rules, number_rules, is_inside, is_unused, code_rules, symbol_rules, total_rules, amount_rules};
ghost use Rattle.fault.specs.field.Ruled.{ruling, broken};

use fileline::seen::Seen;
use sheet::Sheet;

// The first rule of a field that is broken: the refusal's number, the cause, and from what to what was allowed.
#[derive(Clone, Copy)]
pub struct Broken {
    pub number: u64,
    pub cause: u64,
    pub least: u64,
    pub most: u64,
}

// A rule that is broken and has no bounds.
pub fn broke(number: u64, cause: u64) -> Broken
    ensures { result ≡ broken number cause 0 0 }
{
    Broken {
        number,
        cause,
        least: 0,
        most: 0,
    }
}

// `least` to `most` digits.
pub fn check_digits(f: &[u8], least: usize, most: usize) -> Result<(), Broken>
    requires { most ≤ 19 }
    ensures { result ≡ ruling (first_broken (digit_rules least most) f.now) }
{
    let Ok(_) = numeral::read_digits(f, least, most) else {
        return Err(broke(4, 40));
    };
    Ok(())
}

// KIND: four digits, one of the sheet's kinds.
pub fn check_kind(f: &[u8], sh: Sheet) -> Result<(), Broken>
    ensures { result ≡ ruling (first_broken (kind_rules sh) f.now) }
{
    let Ok(kind) = numeral::read_digits(f, 4, 4) else {
        return Err(broke(4, 40));
    };
    if sh.kind_allowed(kind) {
        return Ok(());
    }
    Err(Broken {
        number: 7,
        cause: 70,
        least: 1501,
        most: sh.lastkind,
    })
}

// The first three digits of an account file's number, where they are judged.
fn check_series(first: u64, from: u64, to: u64, seen: Seen) -> Result<(), Broken>
    requires { first < 1000 }
    ensures { (l s : List ℕ) → Holds seen.words l → series (spelled s) ≡ first → result ≡ ruling (first_broken (within 9 91 from to (is_inside true from to) ∷ within 9 92 from to (is_unused true l) ∷ []) s) }
{
    if first < from {
        return Err(Broken {
            number: 9,
            cause: 91,
            least: from,
            most: to,
        });
    }
    if to < first {
        return Err(Broken {
            number: 9,
            cause: 91,
            least: from,
            most: to,
        });
    }
    if seen.has(first) {
        return Err(Broken {
            number: 9,
            cause: 92,
            least: from,
            most: to,
        });
    }
    Ok(())
}

// NUMBER: six digits, of which on K (`interval`) the first three lie from `from` to `to` and are not in the set of earlier ones.
pub fn check_number(f: &[u8], interval: bool, from: u64, to: u64, seen: Seen) -> Result<(), Broken>
    ensures { (h : Header) (l : List ℕ) → Holds seen.words l → h.from ≡ from → h.to ≡ to → result ≡ ruling (first_broken (number_rules interval (after h l)) f.now) }
{
    let Ok(number) = numeral::read_digits(f, 6, 6) else {
        return Err(broke(4, 40));
    };
    if interval {
        return check_series(number / 1000, from, to, seen);
    }
    Ok(())
}

// BANK: four digits, the sheet's bank.
pub fn check_code(f: &[u8], sh: Sheet) -> Result<(), Broken>
    ensures { result ≡ ruling (first_broken (code_rules sh) f.now) }
{
    let Ok(code) = numeral::read_digits(f, 4, 4) else {
        return Err(broke(4, 40));
    };
    if sh.bank_allowed(code) {
        return Ok(());
    }
    Err(Broken {
        number: 8,
        cause: 80,
        least: sh.bank,
        most: sh.bank,
    })
}

// The interval's end: three digits, on K (`ordered`) not below its start.
pub fn check_end(f: &[u8], ordered: bool, start: u64) -> Result<(), Broken>
    ensures { result ≡ ruling (first_broken (end_rules ordered start) f.now) }
{
    let Ok(end) = numeral::read_digits(f, 3, 3) else {
        return Err(broke(4, 40));
    };
    if ordered {
        if end < start {
            return Err(Broken {
                number: 9,
                cause: 90,
                least: start,
                most: 999,
            });
        }
    }
    Ok(())
}

// The day is not real.
pub fn not_real() -> Broken
    ensures { result ≡ broken 11 110 20000101 20991231 }
{
    Broken {
        number: 11,
        cause: 110,
        least: 20000101,
        most: 20991231,
    }
}

// The creation date: six digits, a real day.
pub fn check_day(f: &[u8]) -> Result<(), Broken>
    ensures { result ≡ ruling (first_broken day_rules f.now) }
{
    let Ok(n) = numeral::read_digits(f, 6, 6) else {
        return Err(broke(4, 40));
    };
    let d = (2000 + n % 100) * 10000 + n / 100 % 100 * 100 + n / 10000;
    if calendar::real_day(d) {
        return Ok(());
    }
    Err(not_real())
}

// n bytes of text.
pub fn check_name(f: &[u8], n: usize) -> Result<(), Broken>
    ensures { result ≡ ruling (first_broken (name_rules n) f.now) }
{
    if f.len() != n {
        return Err(broke(4, 40));
    }
    if scan::seek::all_text(f, 0) {
        return Ok(());
    }
    Err(broke(4, 40))
}

// The first line's rest, of text bytes.
pub fn check_rest(f: &[u8], short: bool) -> Result<(), Broken>
    ensures { result ≡ ruling (first_broken (rest_rules short) f.now) }
{
    if firstline::rest_length(f.len(), short) {
        if scan::seek::all_text(f, 0) {
            return Ok(());
        }
        return Err(broke(4, 40));
    }
    Err(broke(4, 40))
}

// A symbol: 1 to 10 digits, on S (`none`) also nothing.
pub fn check_symbol(f: &[u8], none: bool) -> Result<(), Broken>
    ensures { result ≡ ruling (first_broken (symbol_rules none) f.now) }
{
    if none {
        if f.len() == 0 {
            return Ok(());
        }
        return check_digits(f, 1, 10);
    }
    check_digits(f, 1, 10)
}

// TOTAL: an amount of up to 14 digits.
pub fn check_total(f: &[u8], may: bool) -> Result<(), Broken>
    ensures { result ≡ ruling (first_broken (total_rules may) f.now) }
{
    let Ok(_) = amount::at::read_amount(f, may, 14) else {
        return Err(broke(4, 40));
    };
    Ok(())
}

// An item's amount: not zero, and not over its limit.
pub fn check_amount(f: &[u8], may: bool, most: usize, max: u64) -> Result<(), Broken>
    requires { most ≤ 19 }
    ensures { result ≡ ruling (first_broken (amount_rules may most max) f.now) }
{
    let Ok(v) = amount::at::read_amount(f, may, most) else {
        return Err(broke(4, 40));
    };
    if v < 1 {
        return Err(Broken {
            number: 6,
            cause: 60,
            least: 1,
            most: max,
        });
    }
    if max < v {
        return Err(Broken {
            number: 6,
            cause: 61,
            least: 1,
            most: max,
        });
    }
    Ok(())
}
