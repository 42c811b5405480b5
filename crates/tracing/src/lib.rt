// A pass over a whole file that keeps where it stands: what is found in a refused file, and what an accepted one warns of.
#![tactic(auto)]

pub mod file;
pub mod group;
pub mod warnings;
