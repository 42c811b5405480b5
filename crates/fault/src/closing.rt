// The lines that close a group and an account file, walked: a plus at its place, and nothing behind it.
ghost use Rattle.std.specs.Prelude.{◌≡◌, ◌≤◌, length, drop};
ghost use Rattle.why.specs.Names.{Name, field_number};
ghost use Rattle.why.specs.Walk.{closing_plus, why_close};
ghost use Rattle.fault.specs.line.Walks.{walk};

use crate::line::{Fault, malformed};

// A plus at `at`, and nothing more.
fn walk_plus(s: &[u8], at: usize, field: u64) -> Result<(), Fault>
    requires { at ≤ length s.now }
    ensures { (name : Name) → field_number name ≡ field → result ≡ walk (closing_plus name at (drop at s.now)) }
{
    let n = s.len();
    if n <= at {
        return Err(malformed(43, at, 0, field));
    }
    if s[at] == 43 {
        let after = at + 1;
        if n <= after {
            return Ok(());
        }
        return Err(malformed(43, after, n - after, field));
    }
    Err(malformed(43, at, n - at, field))
}

// A line that was known as a closing one by its first byte: behind it a space and a plus, or, where `near`, a plus at once.
pub fn walk_close(s: &[u8], near: bool, field: u64) -> Result<(), Fault>
    requires { 1 ≤ length s.now }
    ensures { (name : Name) → field_number name ≡ field → result ≡ walk (why_close near name s.now) }
{
    let n = s.len();
    if n < 2 {
        return Err(malformed(43, 1, 0, field));
    }
    if s[1] == 32 {
        return walk_plus(s, 2, field);
    }
    if near {
        return walk_plus(s, 1, field);
    }
    Err(malformed(43, 1, n - 1, field))
}
