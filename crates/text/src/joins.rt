// Writing the parts of a message, divided by `|`.
ghost use Rattle.std.specs.Prelude.{[], ◌∷◌, ◌+◌, ◌≤◌, length};
ghost use Rattle.base.specs.Put.{Wrote};
ghost use Rattle.paper.specs.Texts.{join_on, joined, trim};
ghost use Rattle.text.specs.extent.Four.{four};

// Writes two parts.
fn put_two(out: &mut [u8], at: usize, a: &[u8], b: &[u8]) -> usize
    requires { at + length (join_on a.now (b.now ∷ [])) ≤ length out.old }
    ensures { Wrote out.old at (join_on a.now (b.now ∷ [])) out.new result }
{
    let e = out::put::put_bytes(out, at, a);
    let f = out::put::put_byte(out, e, 124);
    out::put::put_bytes(out, f, b)
}

// Writes three parts.
fn put_three(out: &mut [u8], at: usize, a: &[u8], b: &[u8], c: &[u8]) -> usize
    requires { at + length (join_on a.now (b.now ∷ c.now ∷ [])) ≤ length out.old }
    ensures { Wrote out.old at (join_on a.now (b.now ∷ c.now ∷ [])) out.new result }
{
    let e = out::put::put_bytes(out, at, a);
    let f = out::put::put_byte(out, e, 124);
    put_two(out, f, b, c)
}

// Writes four parts.
fn put_four(out: &mut [u8], at: usize, a: &[u8], b: &[u8], c: &[u8], d: &[u8]) -> usize
    requires { at + length (join_on a.now (b.now ∷ c.now ∷ d.now ∷ [])) ≤ length out.old }
    ensures { Wrote out.old at (join_on a.now (b.now ∷ c.now ∷ d.now ∷ [])) out.new result }
{
    let e = out::put::put_bytes(out, at, a);
    let f = out::put::put_byte(out, e, 124);
    put_three(out, f, b, c, d)
}

// Writes the parts up to the last one not empty, and returns the next place.
pub fn put_parts(out: &mut [u8], at: usize, a: &[u8], b: &[u8], c: &[u8], d: &[u8]) -> usize
    requires { at + length (joined (trim (four a.now b.now c.now d.now))) ≤ length out.old }
    ensures { Wrote out.old at (joined (trim (four a.now b.now c.now d.now))) out.new result }
{
    if d.len() == 0 {
        if c.len() == 0 {
            if b.len() == 0 {
                return out::put::put_bytes(out, at, a);
            }
            return put_two(out, at, a, b);
        }
        return put_three(out, at, a, b, c);
    }
    put_four(out, at, a, b, c, d)
}
