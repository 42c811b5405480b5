// Where a pass over a file stands from line to line: judging's own numbers, kept by whoever goes over the file once more.
#![tactic(auto)]

pub mod line;

use judge::group::{Counts, Held, Shelf};

// Before the first line; between account files; in an account file, between groups; in a group.
#[derive(Clone, Copy)]
pub enum Stage {
    First,
    File(Counts),
    Group(Counts, Shelf),
    Item(Held),
}

// Besides, the interval of the first line, 0 where there is none.
#[derive(Clone, Copy)]
pub struct Course {
    pub from: u64,
    pub to: u64,
    pub stage: Stage,
}
