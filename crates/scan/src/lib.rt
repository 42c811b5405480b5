// Bytes found in a slice: a block at a time, one byte, a pattern, a line's end, a line's kind.
#![tactic(auto)]

pub mod block;
pub mod find;
pub mod kind;
pub mod line;
pub mod seek;
