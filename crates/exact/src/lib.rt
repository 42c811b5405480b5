// Which files are accepted: exactly those that spell a batch, and no file spells two. No code.
#![tactic(auto)]

pub mod faults;
pub mod named;
