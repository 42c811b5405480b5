// A whole file judged: its groups, its account files, all of it.
#![tactic(auto)]

pub mod accountfile;
pub mod file;
pub mod group;
pub mod refused;
