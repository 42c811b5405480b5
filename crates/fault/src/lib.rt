// Which rule a line breaks first, worked out: the rules of each field tested in their order, and the fields of a line walked from the left.
#![tactic(auto)]

pub mod accounts;
pub mod banks;
pub mod closing;
pub mod due;
pub mod field;
pub mod first;
pub mod item;
pub mod known;
pub mod line;
pub mod texts;
