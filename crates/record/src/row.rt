// A record in a row: its words read and tested, and all of it put.
ghost use Rattle.std.specs.Prelude.{◌≡◌, ◌+◌, ◌≤◌, length};
ghost use Rattle.base.specs.Put.{Wrote};
ghost use Rattle.gpc.specs.StatementRows.{head_in, movement_in, thing_in, head_tested, movement_tested, tested, head_row, movement_row};
ghost use Rattle.record.specs.Told.{Kept, in_row, head_with, movement_with, head_of, movement_of, told_head, told_movement, told, SmallHeadRead, SmallMovementRead, Small, FitsHeadRead, FitsMovementRead, Fits};

use crate::{Entry, HeadFields, MovementFields};
use refusal::{Flaw, Refusal};
use turnover::signed::Signed;

// The numbers of a head: the first word that passes its digits is refused.
fn head_tested(x: HeadFields) -> Result<HeadFields, Flaw>
    ensures result_value { (k : Kept) → told_head k result ≡ head_tested (head_of k x) }
    ensures small_head_read { SmallHeadRead result }
    ensures fits_head_read { FitsHeadRead result }
{
    if 999999 < x.prefix {
        return Err(Flaw(Refusal::BadValue, 1));
    }
    if 9999999999 < x.base {
        return Err(Flaw(Refusal::BadValue, 2));
    }
    let old = x.old;
    if 99999999999999 < old.size {
        return Err(Flaw(Refusal::BadValue, 3));
    }
    let new = x.new;
    if 99999999999999 < new.size {
        return Err(Flaw(Refusal::BadValue, 4));
    }
    let debit = x.debit;
    if 99999999999999 < debit.size {
        return Err(Flaw(Refusal::BadValue, 5));
    }
    let credit = x.credit;
    if 99999999999999 < credit.size {
        return Err(Flaw(Refusal::BadValue, 6));
    }
    Ok(x)
}

// The words of a head's row.
fn read_head(r: &[u8]) -> Result<HeadFields, Flaw>
    requires { 136 ≤ length r.now }
    ensures result_value { told_head (in_row r.now) result ≡ head_tested (head_in r.now) }
    ensures small_head_read { SmallHeadRead result }
    ensures fits_head_read { FitsHeadRead result }
{
    let prefix = out::word::word_at(r, 8);
    let base = out::word::word_at(r, 16);
    let old = Signed::in_word(out::word::word_at(r, 24));
    let new = Signed::in_word(out::word::word_at(r, 32));
    let debit = Signed::in_word(out::word::word_at(r, 40));
    let credit = Signed::in_word(out::word::word_at(r, 48));
    head_tested(HeadFields {
        prefix,
        base,
        old,
        new,
        debit,
        credit,
    })
}

// The numbers of a movement: the first word that passes its digits, or is no code, is refused.
fn movement_tested(x: MovementFields) -> Result<MovementFields, Flaw>
    ensures result_value { (k : Kept) → told_movement k result ≡ movement_tested (movement_of k x) }
    ensures small_movement_read { SmallMovementRead result }
    ensures fits_movement_read { FitsMovementRead result }
{
    if 999999 < x.prefix {
        return Err(Flaw(Refusal::BadValue, 1));
    }
    if 9999999999 < x.base {
        return Err(Flaw(Refusal::BadValue, 2));
    }
    if 999999 < x.otherprefix {
        return Err(Flaw(Refusal::BadValue, 3));
    }
    if 9999999999 < x.otherbase {
        return Err(Flaw(Refusal::BadValue, 4));
    }
    if 999999999999 < x.amount {
        return Err(Flaw(Refusal::BadValue, 5));
    }
    if crate::file::is_code(x.code) {
        if 9999999999 < x.variable {
            return Err(Flaw(Refusal::BadValue, 7));
        }
        return Ok(x);
    }
    Err(Flaw(Refusal::BadValue, 6))
}

// The words of a movement's row.
fn read_movement(r: &[u8]) -> Result<MovementFields, Flaw>
    requires { 136 ≤ length r.now }
    ensures result_value { told_movement (in_row r.now) result ≡ movement_tested (movement_in r.now) }
    ensures small_movement_read { SmallMovementRead result }
    ensures fits_movement_read { FitsMovementRead result }
{
    movement_tested(MovementFields {
        prefix: out::word::word_at(r, 8),
        base: out::word::word_at(r, 16),
        otherprefix: out::word::word_at(r, 24),
        otherbase: out::word::word_at(r, 32),
        amount: out::word::word_at(r, 40),
        code: out::word::word_at(r, 48),
        variable: out::word::word_at(r, 56),
    })
}

// The 136 bytes of a row.
pub fn read_row(r: &[u8]) -> Entry
    requires { length r.now ≡ 136 }
    ensures result_value { told (in_row r.now) result ≡ tested (thing_in r.now) }
    ensures small { Small result }
    ensures fits { Fits result }
{
    let kind = out::word::word_at(r, 0);
    if kind == 75 {
        return Entry::Movement(read_movement(r));
    }
    if kind == 74 {
        return Entry::Head(read_head(r));
    }
    Entry::Nothing
}

// Puts a head's row, with the kept bytes before and behind what is read.
pub fn put_head(rows: &mut [u8], at: usize, x: HeadFields, before: &[u8], behind: &[u8]) -> usize
    requires { (at + 136 ≤ length rows.old) × (length before.now ≡ 26) × (length behind.now ≡ 23) }
    ensures { Wrote rows.old at (head_row (head_with before.now behind.now x)) rows.new result }
{
    let old = x.old;
    let new = x.new;
    let debit = x.debit;
    let credit = x.credit;
    let words = [
        74,
        x.prefix,
        x.base,
        old.word(),
        new.word(),
        debit.word(),
        credit.word(),
        0,
    ];
    let a = out::word::put_words(rows, at, &words);
    let b = out::put::put_bytes(rows, a, before);
    let c = out::put::put_bytes(rows, b, behind);
    let unused = [0u8; 23];
    out::put::put_bytes(rows, c, &unused)
}

// Puts a movement's row, with the kept bytes before and behind what is read.
pub fn put_movement(
    rows: &mut [u8],
    at: usize,
    x: MovementFields,
    before: &[u8],
    behind: &[u8],
) -> usize
    requires { (at + 136 ≤ length rows.old) × (length before.now ≡ 13) × (length behind.now ≡ 57) }
    ensures { Wrote rows.old at (movement_row (movement_with before.now behind.now x)) rows.new result }
{
    let words = [
        75,
        x.prefix,
        x.base,
        x.otherprefix,
        x.otherbase,
        x.amount,
        x.code,
        x.variable,
    ];
    let a = out::word::put_words(rows, at, &words);
    let b = out::put::put_bytes(rows, a, before);
    let c = out::put::put_bytes(rows, b, behind);
    let unused = [0u8; 2];
    out::put::put_bytes(rows, c, &unused)
}
