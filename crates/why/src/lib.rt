// Why a file is refused, and what an accepted one warns of: the rules of each field as a list in testing order, the fields of each line, and what
// is found in a file; and that reading goes by them.
#![tactic(auto)]

// A finding: the refusal's number, 0 for a warning; the cause, which tells apart what shares a number; the line and the byte, as reading gives
// them; how many bytes were found there; the field; and what was allowed, 0 where there are no such bounds.
#[derive(Clone, Copy)]
pub struct Finding {
    pub number: u64,
    pub cause: u64,
    pub line: u64,
    pub byte: u64,
    pub length: u64,
    pub field: u64,
    pub least: u64,
    pub most: u64,
}
