// Document 02's statements (W-204) as definitions: see specs/. No code.
#![tactic(auto)]
