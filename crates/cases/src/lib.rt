// Document 01's cases and its sample run, and worked examples of every rule, computed from the definitions. No code.
#![tactic(auto)]
