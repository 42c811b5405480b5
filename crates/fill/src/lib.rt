// The rows of a judged file filled: one row, an item's row, all of them.
#![tactic(auto)]

pub mod file;
pub mod itemrow;
pub mod row;
