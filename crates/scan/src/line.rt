// The lines of a lent file one after the other, and the fields of a line.
ghost use Rattle.std.specs.Prelude.{◌≡◌, ◌+◌, ◌<◌, ◌≤◌, length, drop};
ghost use Rattle.base.specs.Seek.{seek};
ghost use Rattle.base.specs.Pick.{pick};
ghost use Rattle.paper.specs.Bytes.{space};
ghost use Rattle.paper.specs.Lines.{starts_lf};
ghost use Rattle.paper.specs.GroupLine.{space_count};
ghost use Rattle.scan.specs.line.Cutting.{Cuts};

use crate::block::skip_high;

// Where the bytes of a line stop, and where the next line starts.
#[derive(Clone, Copy)]
pub struct Cut {
    pub stop: usize,
    pub next: usize,
}

// The line that starts at `at`. A line ends with CR LF, LF or CR; the last one may lack its end.
pub fn next_line(f: &[u8], at: usize) -> Cut
    requires { at < length f.now }
    ensures { Cuts f.now at result }
{
    for i in skip_high(f, at)..f.len() {
        let b = f[i];
        if b == 13 {
            return Cut {
                stop: i,
                next: past_cr(f, i),
            };
        }
        if b == 10 {
            return Cut {
                stop: i,
                next: i + 1,
            };
        }
    }
    Cut {
        stop: f.len(),
        next: f.len(),
    }
}

// Where the next line starts when this one ends with the CR at `at`: an LF right behind belongs to it.
fn past_cr(f: &[u8], at: usize) -> usize
    requires { at < length f.now }
    ensures { result ≡ pick (starts_lf (drop (at + 1) f.now)) (at + 2) (at + 1) }
{
    let after = at + 1;
    if after < f.len() {
        if f[after] == 10 {
            return after + 1;
        }
    }
    after
}

// The end of the field that begins at `at`: the next space, or the line's end.
pub fn field_end(s: &[u8], at: usize) -> usize
    requires { at ≤ length s.now }
    ensures { result ≡ at + seek space (drop at s.now) }
{
    for stop in at..s.len() {
        if s[stop] == 32 {
            return stop;
        }
    }
    s.len()
}

// How many spaces a line has.
pub fn spaces(s: &[u8]) -> usize
    ensures { result ≡ space_count s.now }
{
    let mut n: usize = 0;
    for b in s {
        if *b == 32 {
            n = n + 1;
        }
    }
    n
}
