// The rewriting program. Standard input has a line with the sheet's letter, a space and today as DDMMRR, and then a file; standard output gets
// the canonical file, or the line of a refusal.
#![tactic(auto)]

// One byte more than the program takes, so that a longer input is seen.
fn input_room() -> [u8; 8193] {
    [0; 8193]
}

// 1,024 rows of 192 bytes: no file of 8 KiB has more.
fn row_room() -> [u8; 196608] {
    [0; 196608]
}

// No output for an input of 8 KiB is longer.
fn output_room() -> [u8; 353370] {
    [0; 353370]
}

fn main() {
    let mut input = input_room();
    let mut rows = row_room();
    let mut out = output_room();
    let n = io::read_full(0, &mut input);
    let end = rewriting::rewrite(&input[0..n], &mut rows, &mut out);
    io::write_all(1, &out[0..end]);
}
