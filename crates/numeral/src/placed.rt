// A line that was judged before: digits at known places, and runs of them, taken with no test.
ghost use Rattle.std.specs.Prelude.{◌≡◌, take, drop};
ghost use Rattle.paper.specs.Read.{value};
ghost use Rattle.paper.specs.Numerals.{digits};
ghost use Rattle.paper.specs.ItemLine.{read_symbol};
ghost use Rattle.numeral.specs.field.At.{field_at};
ghost use Rattle.numeral.specs.placed.Placed.{Placed};
ghost use Rattle.numeral.specs.placed.Known.{Stops, Ran, There};
ghost use Rattle.numeral.specs.placed.Told.{told_number};

use crate::field::Run;

// The digit at `at`.
pub fn digit(s: &[u8], at: usize) -> u64
    requires { Placed 1 s.now at }
    ensures { digits 1 1 (take 1 (drop at s.now)) ≡ value result }
{
    s[at] as u64 - 48
}

// The two digits from `at` on.
pub fn two(s: &[u8], at: usize) -> u64
    requires { Placed 2 s.now at }
    ensures { digits 2 2 (take 2 (drop at s.now)) ≡ value result }
{
    digit(s, at) * 10 + digit(s, at + 1)
}

// The four digits from `at` on.
pub fn four(s: &[u8], at: usize) -> u64
    requires { Placed 4 s.now at }
    ensures { digits 4 4 (take 4 (drop at s.now)) ≡ value result }
{
    two(s, at) * 100 + two(s, at + 2)
}

// The digits from `at` on. They end in the line, before a byte below all digits, so that one test for each is enough.
pub fn take_run(s: &[u8], at: usize) -> Run
    requires { Stops s.now at }
    ensures { Ran s.now at result }
{
    let mut v: u64 = 0;
    let mut i = at;
    loop {
        let b = s[i];
        if b < 48 {
            return Run { value: v, end: i };
        }
        v = v * 10 + (b as u64 - 48);
        i += 1;
    }
}

// A symbol of one to ten digits at `at`.
pub fn take_symbol(s: &[u8], at: usize) -> Run
    requires { There read_symbol s.now at }
    ensures { told_number result ≡ field_at read_symbol s.now at }
{
    take_run(s, at)
}
