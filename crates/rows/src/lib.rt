// Lent rows: one after another, decoded, tested by 20 and by 21, and walked over by 20.
#![tactic(auto)]

pub mod carried;
pub mod clean;
pub mod field;
pub mod list;
pub mod proper;
pub mod read;
pub mod walk;
