// What a firm keeps that moves from one sheet to another: its files are accepted there, and read as the same batches where no text holds ` NP:`. No code.
#![tactic(auto)]
