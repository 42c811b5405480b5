// Refusal 20 of the header and of one row: each field is tested in its order, and the first that is wrong is told.
ghost use Rattle.std.specs.Prelude.{◌≡◌, false, ℕ, ◌+◌, ◌≤◌, eqb, ltb, leb, length};
ghost use Rattle.base.specs.Pick.{pick};
ghost use Rattle.base.specs.Seek.{all};
ghost use Rattle.paper.specs.Bytes.{is_text};
ghost use Rattle.paper.specs.Days.{real_day};
ghost use Rattle.paper.specs.Accounts.{account};
ghost use Rattle.paper.specs.Amounts.{amount_proper};
ghost use Rattle.paper.specs.Texts.{name_proper, part_proper};
ghost use Rattle.paper.specs.Batch.{most14};
ghost use Rattle.paper.specs.Proper.{Verdict, fine, check, header_proper, kind_proper, payer_proper, item_payer_proper};
ghost use Rattle.paper.specs.Rows.{reference_proper};
ghost use Rattle.rows.specs.read.Told.{text_of_span};
ghost use Rattle.rows.specs.read.After.{after};
ghost use Rattle.rows.specs.proper.Stages.{money_proper, symbols_proper, texts_proper, ItemTested};

use crate::field::Field;
use crate::read::ItemRow;
use text::span::Span;

// The header's name: 20 text bytes.
fn name_full(name: &[u8]) -> bool
    ensures { result ≡ pick (eqb (length name.now) 20) (all is_text name.now) false }
{
    if name.len() == 20 {
        return scan::seek::all_text(name, 0);
    }
    false
}

// The header.
pub fn header_check(date: u64, name: &[u8], client: u64, from: u64, to: u64) -> Result<(), Field>
    ensures { after 0 result fine ≡ header_proper (record { date = date; name = name.now; client = client; from = from; to = to }) }
{
    if !calendar::real_day(date) {
        return Err(Field::HeaderDate);
    }
    if !name_full(name) {
        return Err(Field::HeaderName);
    }
    if 10000000000 <= client {
        return Err(Field::HeaderClient);
    }
    if 1000 <= from {
        return Err(Field::HeaderFrom);
    }
    if 1000 <= to {
        return Err(Field::HeaderTo);
    }
    Ok(())
}

// A kind is 1501 to 1504.
fn kind_proper(kind: u64) -> bool
    ensures { result ≡ kind_proper kind }
{
    matches!(kind, 1501..=1504)
}

// An account file's row.
pub fn file_check(kind: u64, number: u64) -> Result<(), Field>
    ensures { (k : ℕ) (rest : Verdict) → after k result rest ≡ check k 1 (kind_proper kind) (check k 2 (ltb number 1000000) rest) }
{
    if !kind_proper(kind) {
        return Err(Field::FileKind);
    }
    if 1000000 <= number {
        return Err(Field::FileNumber);
    }
    Ok(())
}

// A group's payer is nobody or a valid account.
fn payer_proper(prefix: u64, base: u64) -> bool
    ensures { result ≡ payer_proper (account prefix base) }
{
    if account::is_nobody(prefix, base) {
        return true;
    }
    account::account_proper(prefix, base)
}

// A group's row.
pub fn group_check(date: u64, prefix: u64, base: u64) -> Result<(), Field>
    ensures { (k : ℕ) (rest : Verdict) → after k result rest ≡ check k 1 (real_day date) (check k 2 (payer_proper (account prefix base)) rest) }
{
    if !calendar::real_day(date) {
        return Err(Field::GroupDue);
    }
    if !payer_proper(prefix, base) {
        return Err(Field::GroupPayer);
    }
    Ok(())
}

// An item has a payer exactly in a single group.
fn item_payer_proper(single: bool, prefix: u64, base: u64) -> bool
    ensures { result ≡ item_payer_proper single (account prefix base) }
{
    if single {
        return account::account_proper(prefix, base);
    }
    account::is_nobody(prefix, base)
}

// An amount, and with it the sum of its group, has at most 14 digits.
fn amount_fits(sum: u64, amount: u64) -> bool
    requires { sum ≤ most14 }
    ensures { result ≡ pick (amount_proper most14 amount) (leb (sum + amount) most14) false }
{
    if amount::amount_proper(99999999999999, amount) {
        return sum + amount <= 99999999999999;
    }
    false
}

// Fields 1 to 6 of an item: who pays whom how much.
fn money_check(x: ItemRow, single: bool, sum: u64) -> Result<(), Field>
    requires { sum ≤ most14 }
    ensures { (k : ℕ) (rest : Verdict) → after k result rest ≡ money_proper k single sum x rest }
{
    if !item_payer_proper(single, x.payerprefix, x.payerbase) {
        return Err(Field::ItemPayer);
    }
    if !account::account_proper(x.payeeprefix, x.payeebase) {
        return Err(Field::ItemPayee);
    }
    if !bank::bank_proper(x.bank) {
        return Err(Field::ItemBank);
    }
    if !amount_fits(sum, x.amount) {
        return Err(Field::ItemAmount);
    }
    Ok(())
}

// Fields 7 to 10: the symbols and the priority.
fn symbols_check(x: ItemRow) -> Result<(), Field>
    ensures { (k : ℕ) (rest : Verdict) → after k result rest ≡ symbols_proper k x rest }
{
    if 10000000000 <= x.variable {
        return Err(Field::ItemVariable);
    }
    if 10000000000 <= x.specific {
        return Err(Field::ItemSpecific);
    }
    if 10000 <= x.constant {
        return Err(Field::ItemConstant);
    }
    if !bank::priority_proper(x.priority) {
        return Err(Field::ItemPriority);
    }
    Ok(())
}

// A part of the message: it lies inside what was lent, and is one. Most are empty, which their length tells.
fn part_fine(texts: &[u8], p: Span) -> bool
    ensures { result ≡ part_proper (text_of_span texts.now p) }
{
    if p.len == 0 {
        return p.at <= texts.len();
    }
    if crate::read::lies(texts, p) {
        let from = p.at;
        let to = from + p.len;
        return text::fits::part_proper(&texts[0..to], from);
    }
    false
}

// The name, likewise.
fn name_fine(texts: &[u8], p: Span) -> bool
    ensures { result ≡ name_proper (text_of_span texts.now p) }
{
    if p.len == 0 {
        return p.at <= texts.len();
    }
    if crate::read::lies(texts, p) {
        let from = p.at;
        let to = from + p.len;
        return text::fits::name_proper(&texts[0..to], from);
    }
    false
}

// Fields 11 to 19: the four parts and the name.
fn texts_check(texts: &[u8], x: ItemRow) -> Result<(), Field>
    ensures { (k : ℕ) (rest : Verdict) → after k result rest ≡ texts_proper k texts.now x rest }
{
    if !part_fine(texts, x.part1) {
        return Err(Field::ItemPart1);
    }
    if !part_fine(texts, x.part2) {
        return Err(Field::ItemPart2);
    }
    if !part_fine(texts, x.part3) {
        return Err(Field::ItemPart3);
    }
    if !part_fine(texts, x.part4) {
        return Err(Field::ItemPart4);
    }
    if !name_fine(texts, x.name) {
        return Err(Field::ItemName);
    }
    Ok(())
}

// Field 21: the reference.
fn reference_check(x: ItemRow) -> Result<(), Field>
    ensures { (k : ℕ) (rest : Verdict) → after k result rest ≡ check k 21 (reference_proper x.reference) rest }
{
    if 4294967296 <= x.reference {
        return Err(Field::ItemReference);
    }
    Ok(())
}

// An item's row, in a group that is single or not and whose items before it have this sum.
pub fn item_check(texts: &[u8], x: ItemRow, single: bool, sum: u64) -> Result<(), Field>
    requires { sum ≤ most14 }
    ensures { ItemTested texts.now x single sum result }
{
    money_check(x, single, sum)?;
    symbols_check(x)?;
    texts_check(texts, x)?;
    reference_check(x)
}
