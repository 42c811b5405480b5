// An item's line as judging needs it: all its fields are tested, its amount and its warnings are kept.
ghost use Rattle.std.specs.Prelude.{◌≡◌, Ok, List, ℕ, ◌+◌, ◌≤◌, length, drop};
ghost use Rattle.paper.specs.Entries.{Counted, counted};
ghost use Rattle.paper.specs.ItemLine.{read_item};
ghost use Rattle.calendar.specs.term.Allows.{allows};
ghost use Rattle.itemline.specs.tail.Told.{tail_of};
ghost use Rattle.itemline.specs.Walk.{from_bank, from_variable, from_amount, payer_first};
ghost use Rattle.itemline.specs.judge.Brief.{kept, kept_texts, kept_bank, kept_variable, any_payer, brief};
ghost use Rattle.itemline.specs.judge.Told.{told, told_from, InsideFrom};

use calendar::term::Banks;
use refusal::{Flaw, Refusal, placed};
use sheet::{Sheet, Style};

// What judging keeps of an item: its amount, and how many warnings its line gives.
#[derive(Clone, Copy)]
pub struct Judged {
    pub amount: u64,
    pub warnings: u64,
}

// The item with the warnings of its bank field and its texts.
fn with_texts(amount: u64, warnings: u64, more: u64) -> Judged
    requires { (warnings ≤ 1) × (more ≤ 5) }
    ensures { told (Ok result) ≡ kept amount (warnings + more) }
{
    Judged {
        amount,
        warnings: warnings + more,
    }
}

// The tail at `at`, behind an amount and the bank field's warnings.
fn with_tail(
    s: &[u8],
    at: usize,
    y: Style,
    fixed: bool,
    bare: bool,
    amount: u64,
    warnings: u64,
) -> Result<Judged, Flaw>
    requires most_bound { y.most ≤ 4 }
    requires at_in_bounds { at ≤ length s.now }
    requires warnings_bound { warnings ≤ 1 }
    ensures { told result ≡ tail_of y fixed bare (kept_texts amount warnings) at (drop at s.now) }
{
    let tail = crate::tail::read_tail(s, at, fixed, bare)?;
    match tail.text {
        None => Ok(Judged { amount, warnings }),
        Some(from) => {
            let texts = placed(text::read_text(y, s, from), from)?;
            Ok(with_texts(amount, warnings, texts.warnings))
        }
    }
}

// The bank field at `at` and the tail, behind the variable symbol.
fn from_bank(s: &[u8], at: usize, sh: Sheet, banks: Banks, amount: u64) -> Result<Judged, Flaw>
    requires most_bound { sh.text.most ≤ 4 }
    requires at_in_bounds { at ≤ length s.now }
    ensures { told result ≡ from_bank sh (allows banks sh.bank) (kept_bank amount) at (drop at s.now) }
{
    let bank = placed(
        bank::at::judge_bank(s, at, sh.priority, sh.bank_code(), banks),
        at,
    )?;
    with_tail(
        s,
        bank.end,
        sh.text,
        sh.fixedtail,
        sh.bare,
        amount,
        bank.warnings,
    )
}

// The variable symbol at `at`, and what follows.
fn from_variable(s: &[u8], at: usize, sh: Sheet, banks: Banks, amount: u64) -> Result<Judged, Flaw>
    requires most_bound { sh.text.most ≤ 4 }
    requires at_in_bounds { at ≤ length s.now }
    ensures { told result ≡ from_variable sh (allows banks sh.bank) (kept_variable amount) at (drop at s.now) }
{
    let end = placed(numeral::field::pass_symbol(s, at, 1), at)?;
    if s.len() <= end {
        return Err(Flaw(Refusal::BadField, end));
    }
    from_bank(s, end + 1, sh, banks, amount)
}

// The amount at `at`, and what follows.
fn from_amount(s: &[u8], at: usize, sh: Sheet, banks: Banks) -> Result<Judged, Flaw>
    requires most_bound { (sh.text.most ≤ 4) × (sh.itemdigits ≤ 19) }
    requires at_in_bounds { at ≤ length s.now }
    ensures { told result ≡ from_amount sh (allows banks sh.bank) kept_variable at (drop at s.now) }
{
    let limits = sh.limits();
    let read = amount::at::amount_at(s, at, sh.comma, limits.digits, limits.amount);
    let amount = placed(read, at)?;
    if s.len() <= amount.end {
        return Err(Flaw(Refusal::BadField, amount.end));
    }
    from_variable(s, amount.end + 1, sh, banks, amount.value)
}

// Where the payee begins: behind the payer and a space, where the group is single.
fn payer_first(s: &[u8], joined: bool, least: usize, single: bool) -> Result<usize, Flaw>
    ensures by_index { (k : ℕ → List ℕ → Counted) → told_from s.now result k ≡ payer_first joined least single s.now (any_payer k) }
    ensures inside_from { InsideFrom s.now result }
{
    if single {
        let end = placed(account::at::judge_account(s, 0, joined, least), 0)?;
        if s.len() <= end {
            return Err(Flaw(Refusal::BadField, end));
        }
        return Ok(end + 1);
    }
    Ok(0)
}

// The whole line; the payer's account comes first where the group is single. `banks` may be due on the group's day.
pub fn judge_item(s: &[u8], sh: Sheet, banks: Banks, single: bool) -> Result<Judged, Flaw>
    requires { (sh.text.most ≤ 4) × (sh.itemdigits ≤ 19) }
    ensures { told result ≡ brief (counted (read_item sh (allows banks sh.bank) single s.now)) }
{
    let at = payer_first(s, sh.joined, sh.basemin, single)?;
    let end = placed(account::at::judge_account(s, at, sh.joined, sh.basemin), at)?;
    if s.len() <= end {
        return Err(Flaw(Refusal::BadField, end));
    }
    from_amount(s, end + 1, sh, banks)
}
