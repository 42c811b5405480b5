// The tail of an item's line: its specific symbol, and where its text begins.
ghost use Rattle.std.specs.Prelude.{◌≡◌, ℕ, ◌≤◌, length, drop};
ghost use Rattle.sheet.specs.declared.Style.{Style};
ghost use Rattle.paper.specs.Texts.{Noted};
ghost use Rattle.paper.specs.Entries.{Counted};
ghost use Rattle.paper.specs.ItemLine.{fixed_tail, open_tail};
ghost use Rattle.itemline.specs.tail.Told.{told, Inside, tail_of};

use refusal::{Flaw, Refusal, placed};

// The tail of an item's line: its specific symbol, which is 0 where it is missing, and where its text begins, if it has one.
#[derive(Clone, Copy)]
pub struct Tail {
    pub specific: u64,
    pub text: Option<usize>,
}

// A space, a symbol or none, a space, and a text that may be empty.
fn fixed_tail(s: &[u8], at: usize) -> Result<Tail, Flaw>
    requires { at ≤ length s.now }
    ensures k_value { (y : Style) (k : ℕ → Noted → Counted) → told y s.now result k ≡ fixed_tail y k at (drop at s.now) }
    ensures inside { Inside s.now result }
{
    if s.len() <= at {
        return Err(Flaw(Refusal::BadField, at));
    }
    let from = at + 1;
    let symbol = placed(numeral::field::number_at(s, from, 0, 10), from)?;
    if s.len() <= symbol.end {
        return Err(Flaw(Refusal::BadField, symbol.end));
    }
    Ok(Tail {
        specific: symbol.value,
        text: Some(symbol.end + 1),
    })
}

// Nothing; a space and a symbol; these, a space and a text; or, if `bare`, a space and a text, where what follows the space is no symbol.
fn open_tail(s: &[u8], at: usize, bare: bool) -> Result<Tail, Flaw>
    requires { at ≤ length s.now }
    ensures k_value { (y : Style) (k : ℕ → Noted → Counted) → told y s.now result k ≡ open_tail y k bare at (drop at s.now) }
    ensures inside { Inside s.now result }
{
    if s.len() <= at {
        return Ok(Tail {
            specific: 0,
            text: None,
        });
    }
    let from = at + 1;
    match numeral::field::number_at(s, from, 1, 10) {
        Ok(symbol) => {
            if s.len() <= symbol.end {
                return Ok(Tail {
                    specific: symbol.value,
                    text: None,
                });
            }
            Ok(Tail {
                specific: symbol.value,
                text: Some(symbol.end + 1),
            })
        }
        Err(refusal) => {
            if bare {
                return Ok(Tail {
                    specific: 0,
                    text: Some(from),
                });
            }
            Err(Flaw(refusal, from))
        }
    }
}

// The tail that begins at `at`. Its text is left to be read.
pub fn read_tail(s: &[u8], at: usize, fixed: bool, bare: bool) -> Result<Tail, Flaw>
    requires { at ≤ length s.now }
    ensures k_value { (y : Style) (k : ℕ → Noted → Counted) → told y s.now result k ≡ tail_of y fixed bare k at (drop at s.now) }
    ensures inside { Inside s.now result }
{
    if fixed {
        return fixed_tail(s, at);
    }
    open_tail(s, at, bare)
}
