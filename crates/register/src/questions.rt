// What is asked of sixteen words that hold numbers below 1,000: how many are free, and which is the lowest; and a number taken out of them.
ghost use Rattle.std.specs.Prelude.{◌≡◌, true, ◌<◌};
ghost use Rattle.fileline.specs.seen.Bits.{bit};
ghost use Rattle.register.specs.Marks.{without, free, lowest};
ghost use Rattle.register.specs.Register.{none_above};

use fileline::seen::Seen;

// How many numbers are free: 1,000 less the ones of all words.
pub fn count_free(set: Seen) -> u64
    requires { none_above (bit set.words) ≡ true }
    ensures { result ≡ free (bit set.words) 1000 }
{
    let mut marked: u64 = 0;
    for word in set.words {
        marked = marked + u64::count_ones(word) as u64;
    }
    1000 - marked
}

// The lowest free number: the trailing zeros of the first complement that is not 0. In a full register that is bit 40 of the last word's, which
// stands for 1,000.
pub fn lowest_free(set: Seen) -> u64
    requires { none_above (bit set.words) ≡ true }
    ensures { result ≡ lowest (bit set.words) 1000 }
{
    for i in 0..16 {
        let rest = !set.words[i];
        if rest != 0 {
            return (64 * i) as u64 + u64::trailing_zeros(rest) as u64;
        }
    }
    1000
}

// The set without n, which is in it.
pub fn freed(set: Seen, n: u64) -> Seen
    requires n_bound { n < 1000 }
    requires n_value { bit set.words n ≡ true }
    ensures { bit result.words ≡ without n (bit set.words) }
{
    let i = (n / 64) as usize;
    let w = set.words[i];
    let mut next = set;
    next.words[i] = w ^ (1 << (n % 64));
    next
}
