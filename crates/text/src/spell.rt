// Writing the text of an item in the canonical spelling.
ghost use Rattle.std.specs.Prelude.{[], ◌+◌, ◌≤◌, length};
ghost use Rattle.base.specs.Pick.{pick};
ghost use Rattle.base.specs.Put.{Wrote};
ghost use Rattle.paper.specs.Bytes.{av, np};
ghost use Rattle.paper.specs.Texts.{spell_name, spell_text};
ghost use Rattle.text.specs.extent.Four.{four};

use sheet::Style;

// Writes ` NP:` and the name, if it is not empty.
fn put_name(out: &mut [u8], at: usize, n: &[u8]) -> usize
    requires { at + length (spell_name n.now) ≤ length out.old }
    ensures { Wrote out.old at (spell_name n.now) out.new result }
{
    if n.len() == 0 {
        return at;
    }
    let e = out::put::put_bytes(out, at, b" NP:");
    out::put::put_bytes(out, e, n)
}

// Writes what a text begins with: `AV:`, or `NP:` where the name is `alone`; nothing where a message stands for itself.
fn put_mark(out: &mut [u8], at: usize, marked: bool, alone: bool) -> usize
    requires { at + length (pick marked (pick alone np av) []) ≤ length out.old }
    ensures { Wrote out.old at (pick marked (pick alone np av) []) out.new result }
{
    if marked {
        if alone {
            return out::put::put_bytes(out, at, b"NP:");
        }
        return out::put::put_bytes(out, at, b"AV:");
    }
    at
}

// Writes the name behind the parts or, where it is `alone`, behind its mark; nothing where there are no marks.
fn put_end(out: &mut [u8], at: usize, marked: bool, alone: bool, n: &[u8]) -> usize
    requires { at + length (pick marked (pick alone n.now (spell_name n.now)) []) ≤ length out.old }
    ensures { Wrote out.old at (pick marked (pick alone n.now (spell_name n.now)) []) out.new result }
{
    if marked {
        if alone {
            return out::put::put_bytes(out, at, n);
        }
        return put_name(out, at, n);
    }
    at
}

// Writes the text of four parts and a name in the canonical spelling, and returns the next place.
pub fn put_text(
    out: &mut [u8],
    at: usize,
    y: Style,
    a: &[u8],
    b: &[u8],
    c: &[u8],
    d: &[u8],
    n: &[u8],
) -> usize
    requires { at + length (spell_text y (four a.now b.now c.now d.now) n.now) ≤ length out.old }
    ensures { Wrote out.old at (spell_text y (four a.now b.now c.now d.now) n.now) out.new result }
{
    let alone = crate::extent::no_parts(a, b, c, d);
    let e = put_mark(out, at, y.av, alone);
    let f = crate::joins::put_parts(out, e, a, b, c, d);
    put_end(out, f, y.av, alone, n)
}
