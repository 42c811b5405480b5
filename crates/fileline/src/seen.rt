// The set of the first three digits of account files' numbers that came before: a bit for each number below 1,000.
ghost use Rattle.std.specs.Prelude.{◌≡◌, List, [], ◌∷◌, ℕ, ◌<◌};
ghost use Rattle.fileline.specs.seen.Bits.{bit, Marked, Holds};

#[derive(Clone, Copy)]
pub struct Seen {
    pub words: [u64; 16],
}

impl Seen {
    // The empty set.
    pub fn none() -> Seen
        ensures { Holds result.words [] }
    {
        Seen { words: [0; 16] }
    }

    // Is n in the set?
    pub fn has(self, n: u64) -> bool
        requires { n < 1000 }
        ensures { result ≡ bit self.words n }
    {
        let i = (n / 64) as usize;
        let w = self.words[i];
        (w >> (n % 64)) % 2 == 1
    }

    // The set with n besides.
    pub fn with(self, n: u64) -> Seen
        requires { n < 1000 }
        ensures marked { Marked self.words n result.words }
        ensures by_index { (l : List ℕ) → Holds self.words l → Holds result.words (n ∷ l) }
    {
        let i = (n / 64) as usize;
        let w = self.words[i];
        let mut next = self;
        next.words[i] = w | (1 << (n % 64));
        next
    }
}

// Puts n to the set where its words stand. They come by value too, as a lent array's type does not tell how long it is.
pub fn mark(words: &mut [u64; 16], set: Seen, n: u64)
    requires n_bound { n < 1000 }
    requires words_value { words.old ≡ set.words }
    ensures marked { Marked set.words n words.new }
    ensures by_index { (l : List ℕ) → Holds set.words l → Holds words.new (n ∷ l) }
{
    let i = (n / 64) as usize;
    let w = words[i];
    words[i] = w | (1 << (n % 64));
}
