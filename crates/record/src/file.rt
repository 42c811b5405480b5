// A record in a file: its type, its fields read by place, and all of it put in its one spelling.
ghost use Rattle.std.specs.Prelude.{◌≡◌, ◌∷◌, ◌++◌, ◌+◌, ◌≤◌, ◌<◌, length};
ghost use Rattle.base.specs.Put.{Wrote};
ghost use Rattle.paper.specs.Numerals.{digits, fixed};
ghost use Rattle.paper.specs.Accounts.{account};
ghost use Rattle.paper.specs.Entries.{got};
ghost use Rattle.numeral.specs.Told.{told as told_number};
ghost use Rattle.gpc.specs.Parts.{slice};
ghost use Rattle.turnover.specs.signed.Told.{said};
ghost use Rattle.gpc.specs.Internal.{spell_internal};
ghost use Rattle.gpc.specs.Signed.{on_signed, spell_signed};
ghost use Rattle.gpc.specs.Turnovers.{is_code};
ghost use Rattle.gpc.specs.Records.{read_code, read_head, read_movement, crlf, read_record, spell_head, spell_movement};
ghost use Rattle.record.specs.Told.{in_file, head_with, movement_with, told_head, told_movement, told, SmallHeadRead, SmallMovementRead, Small};
ghost use Rattle.record.specs.file.Told.{told_signed, SmallSigned, told_pair, SmallPair, pair_at, read_as};

use crate::{Entry, HeadFields, MovementFields};
use refusal::{Flaw, Refusal, placed};
use turnover::signed::Signed;

// Two numbers with a sign, one behind the other.
#[derive(Clone, Copy)]
pub struct Pair {
    pub first: Signed,
    pub second: Signed,
}

// The type of a record.
#[derive(Clone, Copy)]
pub enum Kind {
    Head,
    Movement,
}

// The digits of a field of k bytes.
fn digits_at(s: &[u8], at: usize, k: usize) -> Result<u64, Refusal>
    requires { (at + k ≤ length s.now) × (k ≤ 19) }
    ensures { told_number result ≡ digits k k (slice at k s.now) }
{
    let end = at + k;
    numeral::read_digits(&s[at..end], k, k)
}

// Fourteen digits at `at`, and the sign behind them, a minus or `plus`.
fn read_signed(s: &[u8], at: usize, plus: u8) -> Result<Signed, Flaw>
    requires { at + 15 ≤ length s.now }
    ensures result_value { told_signed result ≡ on_signed plus at s.now got }
    ensures small_signed { SmallSigned result }
{
    let Ok(size) = digits_at(s, at, 14) else {
        return Err(Flaw(Refusal::BadValue, at));
    };
    let sign = s[at + 14];
    if sign == 45 {
        return Ok(Signed::of(true, size));
    }
    if sign == plus {
        return Ok(Signed::of(false, size));
    }
    Err(Flaw(Refusal::BadValue, at + 14))
}

// Two numbers with the same signs, the first at `at`.
fn read_pair(s: &[u8], at: usize, plus: u8) -> Result<Pair, Flaw>
    requires { at + 30 ≤ length s.now }
    ensures result_value { told_pair result ≡ pair_at plus at s.now }
    ensures small_pair { SmallPair result }
{
    let first = read_signed(s, at, plus)?;
    let second = read_signed(s, at + 15, plus)?;
    Ok(Pair { first, second })
}

// The bytes of a head.
fn read_head(s: &[u8]) -> Result<HeadFields, Flaw>
    requires { 128 ≤ length s.now }
    ensures result_value { told_head (in_file s.now) result ≡ read_head s.now }
    ensures small_head_read { SmallHeadRead result }
{
    let account = placed(internal::read_internal(s, 3), 3)?;
    let balances = read_pair(s, 45, 43)?;
    let turnovers = read_pair(s, 75, 48)?;
    Ok(HeadFields {
        prefix: account.prefix,
        base: account.base,
        old: balances.first,
        new: balances.second,
        debit: turnovers.first,
        credit: turnovers.second,
    })
}

// Is it a posting code?
pub fn is_code(c: u64) -> bool
    ensures { result ≡ is_code c }
{
    if c == 1 {
        return true;
    }
    if c == 2 {
        return true;
    }
    if c == 4 {
        return true;
    }
    c == 5
}

// The posting code at `at`.
fn read_code(s: &[u8], at: usize) -> Result<u64, Refusal>
    requires { at + 1 ≤ length s.now }
    ensures { told_number result ≡ read_code (slice at 1 s.now) }
{
    let b = s[at];
    if b == 49 {
        return Ok(1);
    }
    if b == 50 {
        return Ok(2);
    }
    if b == 52 {
        return Ok(4);
    }
    if b == 53 {
        return Ok(5);
    }
    Err(Refusal::BadValue)
}

// The bytes of a movement.
fn read_movement(s: &[u8]) -> Result<MovementFields, Flaw>
    requires { 128 ≤ length s.now }
    ensures result_value { told_movement (in_file s.now) result ≡ read_movement s.now }
    ensures small_movement_read { SmallMovementRead result }
{
    let own = placed(internal::read_internal(s, 3), 3)?;
    let other = placed(internal::read_internal(s, 19), 19)?;
    let Ok(amount) = digits_at(s, 48, 12) else {
        return Err(Flaw(Refusal::BadValue, 48));
    };
    let code = placed(read_code(s, 60), 60)?;
    let Ok(variable) = digits_at(s, 61, 10) else {
        return Err(Flaw(Refusal::BadValue, 61));
    };
    Ok(MovementFields {
        prefix: own.prefix,
        base: own.base,
        otherprefix: other.prefix,
        otherbase: other.base,
        amount,
        code,
        variable,
    })
}

// A record's type, if it is whole and has one.
fn kind_of(s: &[u8]) -> Option<Kind>
    requires { length s.now ≡ 130 }
    ensures { read_as result s.now ≡ read_record s.now }
{
    if s[128] != 13 {
        return None;
    }
    if s[129] != 10 {
        return None;
    }
    if s[0] != 48 {
        return None;
    }
    if s[1] != 55 {
        return None;
    }
    if s[2] == 52 {
        return Some(Kind::Head);
    }
    if s[2] == 53 {
        return Some(Kind::Movement);
    }
    None
}

// The 130 bytes of a record.
pub fn read_record(s: &[u8]) -> Entry
    requires { length s.now ≡ 130 }
    ensures result_value { told (in_file s.now) result ≡ read_record s.now }
    ensures small { Small result }
{
    match kind_of(s) {
        Some(Kind::Movement) => Entry::Movement(read_movement(s)),
        Some(Kind::Head) => Entry::Head(read_head(s)),
        None => Entry::Nothing,
    }
}

// ---- put

// Writes fourteen digits and the sign, a minus or `plus`.
fn put_signed(out: &mut [u8], at: usize, x: Signed, plus: u8) -> usize
    requires { at + 15 ≤ length out.old }
    ensures { Wrote out.old at (spell_signed plus (said x)) out.new result }
{
    let e = numeral::put_fixed(out, at, 14, x.size);
    if x.minus {
        return out::put::put_byte(out, e, 45);
    }
    out::put::put_byte(out, e, plus)
}

// Writes two numbers with the same signs.
fn put_pair(out: &mut [u8], at: usize, x: Signed, y: Signed, plus: u8) -> usize
    requires { at + 30 ≤ length out.old }
    ensures { Wrote out.old at (spell_signed plus (said x) ++ spell_signed plus (said y)) out.new result }
{
    let e = put_signed(out, at, x, plus);
    put_signed(out, e, y, plus)
}

// Writes the type, whose last digit is `last`, and the account.
fn put_front(out: &mut [u8], at: usize, last: u8, prefix: u64, base: u64) -> usize
    requires { (at + 19 ≤ length out.old) × (prefix < 1000000) × (base < 10000000000) }
    ensures { Wrote out.old at (48 ∷ 55 ∷ last ∷ spell_internal (account prefix base)) out.new result }
{
    let e = out::put::put_bytes(out, at, b"07");
    let f = out::put::put_byte(out, e, last);
    internal::put_internal(out, f, prefix, base)
}

// Writes the kept bytes at the end of a record, and CR LF.
fn put_end(out: &mut [u8], at: usize, kept: &[u8]) -> usize
    requires { at + length kept.now + 2 ≤ length out.old }
    ensures { Wrote out.old at (kept.now ++ crlf) out.new result }
{
    let e = out::put::put_bytes(out, at, kept);
    out::put::put_bytes(out, e, b"\r\n")
}

// Writes a head, with the kept bytes before and behind what is read.
pub fn put_head(out: &mut [u8], at: usize, x: HeadFields, before: &[u8], behind: &[u8]) -> usize
    requires at_in_bounds { (at + 130 ≤ length out.old) × (length before.now ≡ 26) × (length behind.now ≡ 23) }
    requires prefix_bound { (x.prefix < 1000000) × (x.base < 10000000000) }
    ensures { Wrote out.old at (spell_head (head_with before.now behind.now x)) out.new result }
{
    let a = put_front(out, at, 52, x.prefix, x.base);
    let b = out::put::put_bytes(out, a, before);
    let c = put_pair(out, b, x.old, x.new, 43);
    let d = put_pair(out, c, x.debit, x.credit, 48);
    put_end(out, d, behind)
}

// Writes amount, posting code and variable symbol.
fn put_numbers(out: &mut [u8], at: usize, amount: u64, code: u64, variable: u64) -> usize
    requires { at + 23 ≤ length out.old }
    ensures { Wrote out.old at (fixed 12 amount ++ (fixed 1 code ++ fixed 10 variable)) out.new result }
{
    let e = numeral::put_fixed(out, at, 12, amount);
    let f = numeral::put_fixed(out, e, 1, code);
    numeral::put_fixed(out, f, 10, variable)
}

// Writes a movement, with the kept bytes before and behind what is read.
pub fn put_movement(
    out: &mut [u8],
    at: usize,
    x: MovementFields,
    before: &[u8],
    behind: &[u8],
) -> usize
    requires at_in_bounds { (at + 130 ≤ length out.old) × (length before.now ≡ 13) × (length behind.now ≡ 57) }
    requires prefix_bound { (x.prefix < 1000000) × (x.base < 10000000000) × (x.otherprefix < 1000000) × (x.otherbase < 10000000000) }
    ensures { Wrote out.old at (spell_movement (movement_with before.now behind.now x)) out.new result }
{
    let a = put_front(out, at, 53, x.prefix, x.base);
    let b = internal::put_internal(out, a, x.otherprefix, x.otherbase);
    let c = out::put::put_bytes(out, b, before);
    let d = put_numbers(out, c, x.amount, x.code, x.variable);
    put_end(out, d, behind)
}
