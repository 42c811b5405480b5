// Where a byte stands in a text.
ghost use Rattle.std.specs.Prelude.{◌≡◌, [], ◌∷◌, ◌+◌, ◌≤◌, length, drop};
ghost use Rattle.base.specs.Seek.{seek};

use crate::block::skip_other;

// The index of the first b of s at or after `from`; s's length where there is none.
pub fn find_byte(s: &[u8], from: usize, b: u8) -> usize
    requires { from ≤ length s.now }
    ensures { result ≡ from + seek (b ∷ []) (drop from s.now) }
{
    for i in skip_other(s, from, b)..s.len() {
        if s[i] == b {
            return i;
        }
    }
    s.len()
}
