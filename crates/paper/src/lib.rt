// Document 01 as definitions, in the document's order: see specs/. No code.
#![tactic(auto)]
