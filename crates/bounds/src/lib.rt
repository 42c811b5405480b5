// How many rows and how many bytes rewriting a file can need, and how many bytes of an input matter. No code.
#![tactic(auto)]
