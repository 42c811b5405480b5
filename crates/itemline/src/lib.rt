// What an item's line says, for its readers: `itemline::judge` keeps its amount and warnings, `itemline::take` takes its fields. No code: see specs/ and proofs/.
#![tactic(auto)]

pub mod judge;
pub mod tail;
pub mod take;

use text::span::Spans;

// The fields of an item, its texts by their places in the line, and how many warnings the line gives. No payer is prefix and base 0.
#[derive(Clone, Copy)]
pub struct Fields {
    pub payerprefix: u64,
    pub payerbase: u64,
    pub payeeprefix: u64,
    pub payeebase: u64,
    pub bank: u64,
    pub amount: u64,
    pub variable: u64,
    pub specific: u64,
    pub constant: u64,
    pub priority: u64,
    pub warnings: u64,
    pub texts: Spans,
}
