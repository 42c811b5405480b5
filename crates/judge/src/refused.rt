// Why a file is refused, and where in it.
ghost use Rattle.std.specs.Prelude.{◌≡◌, ◌+◌, ◌≤◌};
ghost use Rattle.judge.specs.refused.Lined.{Within, lined};

use refusal::{Flaw, Refusal};

// A refusal with its line's number and its byte in the file.
#[derive(Clone, Copy, PartialEq, Eq)]
pub struct Refused {
    pub refusal: Refusal,
    pub line: u64,
    pub byte: u64,
}

// The byte of the file at this offset of the line from `at` to `stop`.
pub fn byte_in(at: usize, off: usize, stop: usize) -> u64
    requires { at + off ≤ stop }
    ensures { result ≡ at + off }
{
    (at + off) as u64
}

// What the line from `at` to `stop` says, which has this number: a refusal takes along the number and its byte in the file.
pub fn lined<T>(answer: Result<T, Flaw>, line: u64, at: usize, stop: usize) -> Result<T, Refused>
    requires { Within answer at stop }
    ensures { result ≡ lined answer line at }
{
    match answer {
        Ok(value) => Ok(value),
        Err(Flaw(refusal, off)) => {
            let byte = byte_in(at, off, stop);
            Err(Refused {
                refusal,
                line,
                byte,
            })
        }
    }
}
