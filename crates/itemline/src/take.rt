// An item's line that was judged before: its fields are taken one after the other, and its texts found by their places.
ghost use Rattle.std.specs.Prelude.{◌≡◌, true, false, List, ℕ, ◌+◌, ◌≤◌, ◌<◌, length, drop};
ghost use Rattle.base.specs.Pick.{pick};
ghost use Rattle.paper.specs.Accounts as paper;
ghost use Rattle.paper.specs.Accounts.{read_account};
ghost use Rattle.paper.specs.Amounts.{read_item_amount};
ghost use Rattle.paper.specs.Batch.{most14};
ghost use Rattle.paper.specs.Entries.{Counted, counted};
ghost use Rattle.paper.specs.ItemLine.{is_value, read_item};
ghost use Rattle.paper.specs.Read.{value};
ghost use Rattle.paper.specs.Texts.{others, message, read_text};
ghost use Rattle.text.specs.span.Held.{texts_at, Held};
ghost use Rattle.text.specs.span.Places.{part_at, four_from};
ghost use Rattle.text.specs.division.Unnamed.{unnamed};
ghost use Rattle.text.specs.Told.{count_text};
ghost use Rattle.text.specs.Begun.{of_text, Begins};
ghost use Rattle.itemline.specs.tail.Told.{tail_of};
ghost use Rattle.itemline.specs.Told.{no_spans, told, Sound};
ghost use Rattle.itemline.specs.Walk.{any_bank, from_bank, from_variable, from_amount, from_payee, payer_first, item_said};
ghost use Rattle.numeral.specs.field.At.{field_at};
ghost use Rattle.numeral.specs.placed.Known.{There};
ghost use Rattle.numeral.specs.placed.Told.{told_number};
ghost use Rattle.numeral.specs.placed.Said.{is_said};
ghost use Rattle.itemline.specs.take.Told.{told_tail, Inside};
ghost use Rattle.itemline.specs.take.Named.{with_name};
ghost use Rattle.itemline.specs.take.Made.{taken, made_paid, made, Small, with_texts};

use crate::Fields;
use crate::tail::Tail;
use account::at::Account;
use numeral::field::Run;
use refusal::Refusal;
use sheet::{Sheet, Style};
use text::division::{first_part, next_part};
use text::span::{Part, Span, Spans, gather, one_part, part_at};
use text::{Begun, begin_text, name_at};

// Who pays whom how much.
#[derive(Clone, Copy)]
pub struct Paid {
    pub payerprefix: u64,
    pub payerbase: u64,
    pub payeeprefix: u64,
    pub payeebase: u64,
    pub amount: u64,
}

// The fields before the tail.
#[derive(Clone, Copy)]
pub struct Front {
    pub paid: Paid,
    pub variable: u64,
    pub bank: u64,
    pub constant: u64,
    pub priority: u64,
    pub warnings: u64,
}

// No message and no name.
fn no_spans() -> Spans
    ensures { result ≡ no_spans }
{
    Spans {
        part1: Span { at: 0, len: 0 },
        part2: Span { at: 0, len: 0 },
        part3: Span { at: 0, len: 0 },
        part4: Span { at: 0, len: 0 },
        name: Span { at: 0, len: 0 },
        warnings: 0,
    }
}

// May the text have a name, or a message without `AV:`?
fn varied(y: Style) -> bool
    ensures { result ≡ pick y.names true y.may }
{
    let names = y.names;
    if names {
        return true;
    }
    y.may
}

// Where the message of another text begins: behind its `AV:`, where the sheet has it.
fn message_start(y: Style, s: &[u8], from: usize) -> usize
    requires from_in_bounds { from ≤ length s.now }
    requires may_value { pick y.names true y.may ≡ false }
    requires s_value { is_value (read_text y from (drop from s.now)) ≡ true }
    ensures { result ≡ pick y.av (from + 3) from }
{
    let av = y.av;
    if av {
        return from + 3;
    }
    from
}

// The parts of a message with no name, from a, the first, on.
fn take_more(s: &[u8], a: Part) -> Spans
    requires at_in_bounds { a.at ≤ length s.now }
    requires a_value { a ≡ part_at s.now a.at }
    ensures { result ≡ four_from s.now a.at 0 0 }
{
    let b = part_at(s, a.next);
    let c = part_at(s, b.next);
    let d = part_at(s, c.next);
    gather(a, b, c, d, 0, 0)
}

// All of them. Most messages have one part, and no more than that is looked for where it ends the line.
fn take_parts(s: &[u8], from: usize) -> Spans
    requires { from ≤ length s.now }
    ensures { result ≡ four_from s.now from 0 0 }
{
    let a = part_at(s, from);
    if from + a.len == s.len() {
        return one_part(from, a.len, 0, 0);
    }
    take_more(s, a)
}

// The parts of a message from a, the first, on, and the name behind them.
fn take_others(s: &[u8], a: Part) -> Spans
    requires at_in_bounds { a.at ≤ length s.now }
    requires a_value { a ≡ part_at (unnamed s.now a.at) a.at }
    requires at_len_bound { length (others a.at (drop a.at (unnamed s.now a.at))) < 4 }
    ensures { result ≡ with_name s.now a.at }
{
    let b = next_part(s, a);
    let c = next_part(s, b);
    let d = next_part(s, c);
    let name = name_at(d.next, s.len());
    gather(a, b, c, d, name.at, name.len)
}

// The parts of a message, no more than four, and the name behind them. Most messages have one part and no name.
fn take_named(s: &[u8], from: usize) -> Spans
    requires from_in_bounds { from ≤ length s.now }
    requires from_len_bound { length (others from (drop from (unnamed s.now from))) < 4 }
    ensures { result ≡ with_name s.now from }
{
    let a = first_part(s, from);
    if from + a.len == s.len() {
        return one_part(from, a.len, 0, 0);
    }
    take_others(s, a)
}

// The message that begins at `from`, and the name behind it.
fn take_message(y: Style, s: &[u8], from: usize) -> Spans
    requires most_bound { y.most ≤ 4 }
    requires from_in_bounds { from ≤ length s.now }
    requires s_value { is_value (message y from (drop from s.now)) ≡ true }
    ensures result_value { value (texts_at s.now result) ≡ count_text (message y from (drop from s.now)) }
    ensures held { Held s.now result }
{
    let names = y.names;
    if names {
        return take_named(s, from);
    }
    take_parts(s, from)
}

// Where what a judged text says begins. Only a text that may have a name, or a message without `AV:`, is looked at.
fn start_of(y: Style, s: &[u8], from: usize) -> Result<Begun, Refusal>
    requires from_in_bounds { from ≤ length s.now }
    requires s_value { is_value (read_text y from (drop from s.now)) ≡ true }
    ensures { Begins y s.now from result (of_text y from (drop from s.now)) }
{
    if varied(y) {
        return begin_text(y, s, from);
    }
    Ok(Begun::Message(message_start(y, s, from)))
}

// The text that begins at `from`. It was judged before: neither its bytes nor its limits are tested again.
fn take_text(y: Style, s: &[u8], from: usize) -> Spans
    requires most_bound { y.most ≤ 4 }
    requires from_in_bounds { from ≤ length s.now }
    requires s_value { is_value (read_text y from (drop from s.now)) ≡ true }
    ensures result_value { value (texts_at s.now result) ≡ count_text (read_text y from (drop from s.now)) }
    ensures held { Held s.now result }
{
    match start_of(y, s, from) {
        Err(_) => no_spans(),
        Ok(Begun::Name) => one_part(from, 0, from + 3, s.len() - from - 3),
        Ok(Begun::Message(at)) => take_message(y, s, at),
    }
}

// The tail at `at`, behind the fields x. A symbol has digits, except where both spaces always stand there (`fixed`); what is no symbol
// is the text.
fn take_tail(s: &[u8], at: usize, y: Style, fixed: bool, bare: bool, x: Front) -> Tail
    requires at_in_bounds { at ≤ length s.now }
    requires s_value { is_said (tail_of y fixed bare (made x) at (drop at s.now)) ≡ true }
    ensures x_value { told_tail y s.now result (made x) ≡ tail_of y fixed bare (made x) at (drop at s.now) }
    ensures inside { Inside s.now result }
{
    if s.len() <= at {
        return Tail {
            specific: 0,
            text: None,
        };
    }
    let from = at + 1;
    let got = numeral::field::digit_run(s, from, 10);
    let end = got.end;
    if from < end {
        if s.len() <= end {
            return Tail {
                specific: got.value,
                text: None,
            };
        }
        if s[end] == 32 {
            return Tail {
                specific: got.value,
                text: Some(end + 1),
            };
        }
        return Tail {
            specific: 0,
            text: Some(from),
        };
    }
    if fixed {
        return Tail {
            specific: got.value,
            text: Some(end + 1),
        };
    }
    Tail {
        specific: 0,
        text: Some(from),
    }
}

// The item with its specific symbol and its texts.
fn whole(x: Front, specific: u64, texts: Spans) -> Fields
    requires { (x.warnings ≤ 1) × (texts.warnings ≤ 5) }
    ensures { result ≡ with_texts x specific texts }
{
    Fields {
        payerprefix: x.paid.payerprefix,
        payerbase: x.paid.payerbase,
        payeeprefix: x.paid.payeeprefix,
        payeebase: x.paid.payeebase,
        bank: x.bank,
        amount: x.paid.amount,
        variable: x.variable,
        specific,
        constant: x.constant,
        priority: x.priority,
        warnings: x.warnings + texts.warnings,
        texts,
    }
}

// The tail at `at`, behind the other fields.
fn from_tail(s: &[u8], at: usize, y: Style, fixed: bool, bare: bool, x: Front) -> Fields
    requires most_bound { y.most ≤ 4 }
    requires at_in_bounds { at ≤ length s.now }
    requires small { Small x }
    requires s_value { is_said (tail_of y fixed bare (made x) at (drop at s.now)) ≡ true }
    ensures result_value { told s.now result ≡ tail_of y fixed bare (made x) at (drop at s.now) }
    ensures sound { Sound s.now result }
{
    let tail = take_tail(s, at, y, fixed, bare, x);
    match tail.text {
        None => whole(x, tail.specific, no_spans()),
        Some(from) => whole(x, tail.specific, take_text(y, s, from)),
    }
}

// The bank field at `at` and the tail, behind the variable symbol.
fn from_bank(s: &[u8], at: usize, sh: Sheet, paid: Paid, variable: u64) -> Fields
    requires most_bound { sh.text.most ≤ 4 }
    requires at_in_bounds { at ≤ length s.now }
    requires amount_le_most14 { paid.amount ≤ most14 }
    requires s_value { is_said (from_bank sh any_bank (made_paid paid variable) at (drop at s.now)) ≡ true }
    ensures result_value { told s.now result ≡ from_bank sh any_bank (made_paid paid variable) at (drop at s.now) }
    ensures sound { Sound s.now result }
{
    let bank = bank::at::take_bank(s, at, sh.priority);
    let x = Front {
        paid,
        variable,
        bank: bank.bank,
        constant: bank.constant,
        priority: bank.priority,
        warnings: bank.warnings,
    };
    from_tail(s, bank.end, sh.text, sh.fixedtail, sh.bare, x)
}

// The variable symbol at `at`, and what follows.
fn from_variable(s: &[u8], at: usize, sh: Sheet, paid: Paid) -> Fields
    requires most_bound { sh.text.most ≤ 4 }
    requires amount_le_most14 { paid.amount ≤ most14 }
    requires s_value { is_said (from_variable sh any_bank (made_paid paid) at (drop at s.now)) ≡ true }
    ensures result_value { told s.now result ≡ from_variable sh any_bank (made_paid paid) at (drop at s.now) }
    ensures sound { Sound s.now result }
{
    let variable = numeral::placed::take_symbol(s, at);
    from_bank(s, variable.end + 1, sh, paid, variable.value)
}

// The amount at `at`, within the sheet's limits.
fn item_amount(s: &[u8], at: usize, sh: Sheet) -> Run
    requires itemdigits_bound { sh.itemdigits ≤ 19 }
    requires there { There (read_item_amount sh.comma sh.itemdigits sh.itemmax) s.now at }
    ensures { told_number result ≡ field_at (read_item_amount sh.comma sh.itemdigits sh.itemmax) s.now at }
{
    let limits = sh.limits();
    amount::at::take_amount(s, at, sh.comma, limits.digits, limits.amount)
}

// The amount at `at`, and what follows.
fn from_amount(s: &[u8], at: usize, sh: Sheet, payer: Account, payee: Account) -> Fields
    requires most_bound { (sh.text.most ≤ 4) × (sh.itemdigits ≤ 19) × (sh.itemmax ≤ most14) }
    requires s_value { is_said (from_amount sh any_bank (item_said (taken payer) (taken payee)) at (drop at s.now)) ≡ true }
    ensures result_value { told s.now result ≡ from_amount sh any_bank (item_said (taken payer) (taken payee)) at (drop at s.now) }
    ensures sound { Sound s.now result }
{
    let amount = item_amount(s, at, sh);
    let paid = Paid {
        payerprefix: payer.prefix,
        payerbase: payer.base,
        payeeprefix: payee.prefix,
        payeebase: payee.base,
        amount: amount.value,
    };
    from_variable(s, amount.end + 1, sh, paid)
}

// The payee at `at`, and what follows.
fn from_payee(s: &[u8], at: usize, sh: Sheet, payer: Account) -> Fields
    requires most_bound { (sh.text.most ≤ 4) × (sh.itemdigits ≤ 19) × (sh.itemmax ≤ most14) }
    requires s_value { is_said (from_payee sh any_bank (item_said (taken payer)) at (drop at s.now)) ≡ true }
    ensures result_value { told s.now result ≡ from_payee sh any_bank (item_said (taken payer)) at (drop at s.now) }
    ensures sound { Sound s.now result }
{
    let payee = account::at::take_account(s, at, sh.joined, sh.basemin);
    from_amount(s, payee.end + 1, sh, payer, payee)
}

// The payer, where the group is single, and where the payee begins.
fn take_payer(s: &[u8], joined: bool, least: usize, single: bool) -> Account
    requires { single ≡ true → There (read_account joined least) s.now 0 }
    ensures { (k : paper.Account → ℕ → List ℕ → Counted) → k (taken result) result.end (drop result.end s.now) ≡ payer_first joined least single s.now k }
{
    if single {
        let payer = account::at::take_account(s, 0, joined, least);
        return Account {
            prefix: payer.prefix,
            base: payer.base,
            end: payer.end + 1,
        };
    }
    Account {
        prefix: 0,
        base: 0,
        end: 0,
    }
}

// The whole line, which is known to be an item's.
pub fn take_item(s: &[u8], sh: Sheet, single: bool) -> Fields
    requires most_bound { (sh.text.most ≤ 4) × (sh.itemdigits ≤ 19) × (sh.itemmax ≤ most14) }
    requires s_value { is_said (read_item sh any_bank single s.now) ≡ true }
    ensures result_value { told s.now result ≡ counted (read_item sh any_bank single s.now) }
    ensures sound { Sound s.now result }
{
    let payer = take_payer(s, sh.joined, sh.basemin, single);
    from_payee(s, payer.end, sh, payer)
}
