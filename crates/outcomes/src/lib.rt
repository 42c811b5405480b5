// What the answers of reading and writing say, together with the bytes that the calls leave. No code.
#![tactic(auto)]

pub mod firstwrong;
pub mod numbers;
