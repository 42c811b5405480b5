// A file judged against a register of the day's numbers: the definitions, and what holds of them. No code.
#![tactic(auto)]
