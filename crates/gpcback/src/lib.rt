// What is written is read back: records and rows of statements, and their spelling. No code.
#![tactic(auto)]
