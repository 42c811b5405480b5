// The row of an item put into lent bytes: numbers as they were read, texts by their places in the file.
ghost use Rattle.std.specs.Prelude.{◌≡◌, List, ℕ, ◌+◌, ◌≤◌, ◌<◌, length};
ghost use Rattle.base.specs.Put.{Wrote};
ghost use Rattle.paper.specs.ItemLine.{places};
ghost use Rattle.paper.specs.Words.{words_bytes};
ghost use Rattle.paper.specs.Rows.{item_row, text_spots};
ghost use Rattle.text.specs.span.Held.{texts_at, Held};
ghost use Rattle.itemline.specs.Told.{item_at};
ghost use Rattle.fill.specs.itemrow.Place.{place_word, Reached};

use itemline::Fields;
use text::span::Span;

// The place in the file of a text of the line that starts at `start`; that of an empty one is 0.
fn place_word(start: usize, p: Span) -> u64
    requires { start + p.at < 18446744073709551616 }
    ensures { result ≡ place_word start p }
{
    if p.len == 0 {
        return 0;
    }
    (start + p.at) as u64
}

// Puts the row of the item whose line starts at `start` of the file, and returns the next place.
pub fn put_item_row(rows: &mut [u8], at: usize, x: Fields, start: usize) -> usize
    requires at_in_bounds { at + 192 ≤ length rows.old }
    requires reached { Reached start x.texts }
    ensures { (s : List ℕ) → Held s x.texts → Wrote rows.old at (words_bytes (item_row start (text_spots (places (texts_at s x.texts))) (item_at s x))) rows.new result }
{
    let t = x.texts;
    let a = place_word(start, t.part1);
    let b = place_word(start, t.part2);
    let c = place_word(start, t.part3);
    let d = place_word(start, t.part4);
    let n = place_word(start, t.name);
    crate::row::put_row(
        rows,
        at,
        [
            3,
            x.payerprefix,
            x.payerbase,
            x.payeeprefix,
            x.payeebase,
            x.bank,
            x.amount,
            x.variable,
            x.specific,
            x.constant,
            x.priority,
            a,
            t.part1.len as u64,
            b,
            t.part2.len as u64,
            c,
            t.part3.len as u64,
            d,
            t.part4.len as u64,
            n,
            t.name.len as u64,
            0,
            0,
            0,
        ],
    )
}
