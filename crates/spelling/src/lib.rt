// Canonical lines of rows: how long, put into the output, and the whole file.
#![tactic(auto)]

pub mod file;
pub mod itemlen;
pub mod linelen;
pub mod putitem;
pub mod putlines;
