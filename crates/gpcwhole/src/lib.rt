// What both calls on statements answer, told of the files and the rows themselves. No code.
#![tactic(auto)]
