// The judging of a file over numbers in the place of the batch: definitions, the law that it gives the judge's answer, and how large its
// numbers get. No code.
#![tactic(auto)]
