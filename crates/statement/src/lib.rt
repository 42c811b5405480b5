// Statements read from a file into rows, and written from rows into a file: the order of the rules, which both share, and the two calls.
#![tactic(auto)]

pub mod reading;
pub mod run;
pub mod writing;
