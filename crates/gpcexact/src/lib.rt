// Judging statements is exact: accepted exactly as the statements that the records say, refused exactly at the first fault. No code.
#![tactic(auto)]
