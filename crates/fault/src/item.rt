// An item's line walked from its left: the accounts, the amount, the variable symbol, the bank field, and the tail.
ghost use Rattle.std.specs.Prelude.{◌≡◌, true, false, ℕ, ◌≤◌, length, drop};
ghost use Rattle.base.specs.Pick.{pick};
ghost use Rattle.paper.specs.Bytes.{field_of};
ghost use Rattle.paper.specs.Days.{real_day};
ghost use Rattle.paper.specs.Spells.{Context};
ghost use Rattle.why.specs.Forms.{are_digits};
ghost use Rattle.why.specs.Walk.{why_behind, why_open, why_payee, why_item};
ghost use Rattle.fault.specs.line.Walks.{walk};
ghost use Rattle.fault.specs.item.Stages.{from_text, from_symbol, from_fixed, from_tail, from_bank, from_variable, from_amount, from_single};

use crate::line::{Fault, in_line, malformed, to_next};
use sheet::Sheet;

// A text to the line's end.
fn walk_text(s: &[u8], at: usize, sh: Sheet) -> Result<(), Fault>
    requires { at ≤ length s.now }
    ensures { (today : ℕ) (c : Context) → result ≡ walk (from_text sh today c s.now at (drop at s.now)) }
{
    let n = s.len();
    in_line(crate::texts::check_text(&s[at..n], sh.text), at, n - at, 36)
}

// Behind a symbol: nothing, or a space and a text.
fn walk_behind(s: &[u8], at: usize, sh: Sheet) -> Result<(), Fault>
    requires { at ≤ length s.now }
    ensures { (today : ℕ) (c : Context) → result ≡ walk (why_behind sh today c s.now at (drop at s.now)) }
{
    if at < s.len() {
        return walk_text(s, at + 1, sh);
    }
    Ok(())
}

// A symbol, and what follows it off S.
fn walk_symbol(s: &[u8], at: usize, sh: Sheet) -> Result<(), Fault>
    requires { at ≤ length s.now }
    ensures { (today : ℕ) (c : Context) → result ≡ walk (from_symbol sh today c s.now at (drop at s.now)) }
{
    let end = scan::line::field_end(s, at);
    in_line(
        crate::field::check_symbol(&s[at..end], sh.fixedtail),
        at,
        end - at,
        35,
    )?;
    walk_behind(s, end, sh)
}

// A symbol or none, a space and a text (S).
fn walk_fixed_symbol(s: &[u8], at: usize, sh: Sheet) -> Result<(), Fault>
    requires { at ≤ length s.now }
    ensures { (today : ℕ) (c : Context) → result ≡ walk (from_fixed sh today c s.now at (drop at s.now)) }
{
    let end = scan::line::field_end(s, at);
    let ruling = crate::field::check_symbol(&s[at..end], sh.fixedtail);
    let next = to_next(s.len(), ruling, at, end, 35)?;
    walk_text(s, next, sh)
}

// Whether what stands at `at` is no symbol, where a text may stand for it (`bare`).
fn no_symbol(s: &[u8], at: usize, bare: bool) -> bool
    requires { at ≤ length s.now }
    ensures { result ≡ pick bare (pick (are_digits 1 10 (field_of (drop at s.now))) false true) false }
{
    if bare {
        let end = scan::line::field_end(s, at);
        return crate::field::check_digits(&s[at..end], 1, 10).is_err();
    }
    false
}

// The tail on K, C, E and P.
fn walk_open(s: &[u8], at: usize, sh: Sheet) -> Result<(), Fault>
    requires { at ≤ length s.now }
    ensures { (today : ℕ) (c : Context) → result ≡ walk (why_open sh today c s.now at (drop at s.now)) }
{
    if at < s.len() {
        let from = at + 1;
        if no_symbol(s, from, sh.bare) {
            return walk_text(s, from, sh);
        }
        return walk_symbol(s, from, sh);
    }
    Ok(())
}

// The tail: on S a space always, elsewhere it may be missing.
fn walk_tail(s: &[u8], at: usize, sh: Sheet) -> Result<(), Fault>
    requires { at ≤ length s.now }
    ensures { (today : ℕ) (c : Context) → result ≡ walk (from_tail sh today c s.now at (drop at s.now)) }
{
    let fixed = sh.fixedtail;
    if fixed {
        if at < s.len() {
            return walk_fixed_symbol(s, at + 1, sh);
        }
        return Err(malformed(41, at, 0, 35));
    }
    walk_open(s, at, sh)
}

// The bank field, in an account file of that kind and a group of that date, and the tail.
fn walk_bank(s: &[u8], at: usize, sh: Sheet, today: u64, kind: u64, date: u64) -> Result<(), Fault>
    requires at_in_bounds { at ≤ length s.now }
    requires today_value { real_day today ≡ true }
    ensures { (c : Context) → c.kind ≡ kind → c.date ≡ date → result ≡ walk (from_bank sh today c s.now at (drop at s.now)) }
{
    let end = scan::line::field_end(s, at);
    let ruling = crate::banks::check_bank(
        &s[at..end],
        sh.priority,
        calendar::term::is_collection(sh, kind),
        sh.bank,
        today,
        date,
    );
    in_line(ruling, at, end - at, 34)?;
    walk_tail(s, end, sh)
}

// The variable symbol and what follows it.
fn walk_variable(
    s: &[u8],
    at: usize,
    sh: Sheet,
    today: u64,
    kind: u64,
    date: u64,
) -> Result<(), Fault>
    requires at_in_bounds { at ≤ length s.now }
    requires today_value { real_day today ≡ true }
    ensures { (c : Context) → c.kind ≡ kind → c.date ≡ date → result ≡ walk (from_variable sh today c s.now at (drop at s.now)) }
{
    let end = scan::line::field_end(s, at);
    let ruling = crate::field::check_digits(&s[at..end], 1, 10);
    let next = to_next(s.len(), ruling, at, end, 33)?;
    walk_bank(s, next, sh, today, kind, date)
}

// The amount and what follows it.
fn walk_amount(
    s: &[u8],
    at: usize,
    sh: Sheet,
    today: u64,
    kind: u64,
    date: u64,
) -> Result<(), Fault>
    requires at_in_bounds { at ≤ length s.now }
    requires today_value { real_day today ≡ true }
    requires itemdigits_bound { sh.itemdigits ≤ 19 }
    ensures { (c : Context) → c.kind ≡ kind → c.date ≡ date → result ≡ walk (from_amount sh today c s.now at (drop at s.now)) }
{
    let end = scan::line::field_end(s, at);
    let ruling = crate::field::check_amount(&s[at..end], sh.comma, sh.itemdigits, sh.itemmax);
    let next = to_next(s.len(), ruling, at, end, 32)?;
    walk_variable(s, next, sh, today, kind, date)
}

// The payee's account and what follows it.
fn walk_payee(s: &[u8], at: usize, sh: Sheet, today: u64, kind: u64, date: u64) -> Result<(), Fault>
    requires at_in_bounds { at ≤ length s.now }
    requires today_value { real_day today ≡ true }
    requires itemdigits_bound { sh.itemdigits ≤ 19 }
    ensures { (c : Context) → c.kind ≡ kind → c.date ≡ date → result ≡ walk (why_payee sh today c s.now at (drop at s.now)) }
{
    let end = scan::line::field_end(s, at);
    let ruling = crate::accounts::check_account(&s[at..end], sh.joined, sh.basemin);
    let next = to_next(s.len(), ruling, at, end, 31)?;
    walk_amount(s, next, sh, today, kind, date)
}

// The payer's account of an item, and what follows it.
fn walk_single(s: &[u8], sh: Sheet, today: u64, kind: u64, date: u64) -> Result<(), Fault>
    requires today_value { real_day today ≡ true }
    requires itemdigits_bound { sh.itemdigits ≤ 19 }
    ensures { (c : Context) → c.kind ≡ kind → c.date ≡ date → result ≡ walk (from_single sh today c s.now 0 s.now) }
{
    let end = scan::line::field_end(s, 0);
    let ruling = crate::accounts::check_account(&s[..end], sh.joined, sh.basemin);
    let next = to_next(s.len(), ruling, 0, end, 30)?;
    walk_payee(s, next, sh, today, kind, date)
}

// An item: the payer's account comes first where the group is single.
pub fn walk_item(
    s: &[u8],
    sh: Sheet,
    today: u64,
    kind: u64,
    date: u64,
    single: bool,
) -> Result<(), Fault>
    requires today_value { real_day today ≡ true }
    requires itemdigits_bound { sh.itemdigits ≤ 19 }
    ensures { (c : Context) → c.kind ≡ kind → c.date ≡ date → c.single ≡ single → result ≡ walk (why_item sh today c s.now) }
{
    if single {
        return walk_single(s, sh, today, kind, date);
    }
    walk_payee(s, 0, sh, today, kind, date)
}
