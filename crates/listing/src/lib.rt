// What an accepted file warns of, line by line: findings as numbers or as sentences, counted, and put where they have room.
#![tactic(auto)]

pub mod group;
pub mod item;

ghost use Rattle.std.specs.Prelude.{◌≡◌};
ghost use Rattle.numeral.specs.counted.Counted.{Counted};
ghost use Rattle.listing.specs.Listed.{entry, spelled};

use sheet::Sheet;
use why::Finding;

// How findings are told: in words or as numbers, on which sheet and which day.
#[derive(Clone, Copy)]
pub struct Telling {
    pub words: bool,
    pub sheet: Sheet,
    pub today: u64,
}

// A finding as eight words of 64 bits.
fn eight_words(x: Finding) -> [u8; 64]
    ensures { result ≡ entry x }
{
    let words = [
        x.number, x.cause, x.line, x.byte, x.length, x.field, x.least, x.most,
    ];
    let mut row = [0u8; 64];
    out::word::put_words(&mut row, 0, &words);
    row
}

// These words, put.
fn put_entry(out: &mut [u8], at: usize, x: Finding) -> usize
    ensures { Counted out.old at (entry x) out.new result }
{
    let row = eight_words(x);
    numeral::counted::put_bytes(out, at, &row)
}

// A finding of the file f, in words or as numbers.
pub fn put_finding(out: &mut [u8], at: usize, t: Telling, f: &[u8], x: Finding) -> usize
    ensures { Counted out.old at (spelled t f.now x) out.new result }
{
    if t.words {
        return sentences::put_sentence(out, at, t.sheet, t.today, f, x);
    }
    put_entry(out, at, x)
}
