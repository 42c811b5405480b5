// Bytes and little-endian words put into an output.
#![tactic(auto)]

pub mod put;
pub mod word;
