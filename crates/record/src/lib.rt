// One record of a statement: what is read of it, as bytes of a file and as a row, and put from the one to the other.
#![tactic(auto)]

pub mod file;
pub mod row;

use refusal::Flaw;
use turnover::signed::Signed;

// What is read of a head.
#[derive(Clone, Copy)]
pub struct HeadFields {
    pub prefix: u64,
    pub base: u64,
    pub old: Signed,
    pub new: Signed,
    pub debit: Signed,
    pub credit: Signed,
}

// What is read of a movement.
#[derive(Clone, Copy)]
pub struct MovementFields {
    pub prefix: u64,
    pub base: u64,
    pub otherprefix: u64,
    pub otherbase: u64,
    pub amount: u64,
    pub code: u64,
    pub variable: u64,
}

// What stands where a record is due: a head or a movement, read or refused at a place in it; or no record.
#[derive(Clone, Copy)]
pub enum Entry {
    Head(Result<HeadFields, Flaw>),
    Movement(Result<MovementFields, Flaw>),
    Nothing,
}
