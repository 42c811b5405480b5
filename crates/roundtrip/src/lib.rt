// What is written is read back: line by line, and the whole file, row by row. No code.
#![tactic(auto)]

pub mod flat;
pub mod lineback;
pub mod linesound;
pub mod whole;
