// The lines that close a group and an account file.
#![tactic(auto)]

ghost use Rattle.std.specs.Prelude.{◌≡◌, drop};
ghost use Rattle.paper.specs.Entries.{Entry};
ghost use Rattle.paper.specs.ClosingLine.{plus_at, read_close};
ghost use Rattle.closing.specs.Told.{told};

use refusal::{Flaw, Refusal};

// A plus at `at`, and nothing more.
fn plus_at(s: &[u8], at: usize) -> Result<(), Flaw>
    ensures { (e : Entry) → told e result ≡ plus_at e at (drop at s.now) }
{
    if s.len() <= at {
        return Err(Flaw(Refusal::BadField, at));
    }
    if s[at] == 43 {
        let after = at + 1;
        if s.len() <= after {
            return Ok(());
        }
        return Err(Flaw(Refusal::BadField, after));
    }
    Err(Flaw(Refusal::BadField, at))
}

// A line that was known as a closing one by its first byte: behind it a space and a plus, or, where `near`, a plus at once.
pub fn close_line(s: &[u8], near: bool) -> Result<(), Flaw>
    ensures { (e : Entry) → told e result ≡ read_close near e s.now }
{
    if s.len() < 2 {
        return Err(Flaw(Refusal::BadField, 1));
    }
    if s[1] == 32 {
        return plus_at(s, 2);
    }
    if near {
        return plus_at(s, 1);
    }
    Err(Flaw(Refusal::BadField, 1))
}
