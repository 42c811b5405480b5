// The rows that reading leaves: how many, how long, and that they hold the batch. No code.
#![tactic(auto)]
