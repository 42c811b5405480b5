// Numbers with a sign: as they are read, as words of a row, and in the rule of a balance.
ghost use Rattle.std.specs.Prelude.{◌≡◌, ◌≤◌};
ghost use Rattle.paper.specs.Batch.{most14};
ghost use Rattle.gpc.specs.Signed.{signed, above, below, side as side_of, signed_word, word_signed};
ghost use Rattle.gpc.specs.Turnovers.{balanced as balanced_of};
ghost use Rattle.turnover.specs.signed.Told.{said};

#[derive(Clone, Copy)]
pub struct Signed {
    pub minus: bool,
    pub size: u64,
}

impl Signed {
    // A sign and a size as they are read: minus before zero is zero.
    pub fn of(minus: bool, size: u64) -> Signed
        ensures { said result ≡ signed minus size }
    {
        if size == 0 {
            return Signed { minus: false, size };
        }
        Signed { minus, size }
    }

    // As a word of a row: two's complement.
    pub fn word(self) -> u64
        ensures { result ≡ signed_word (said self) }
    {
        if self.minus {
            return std::num::wrapping_sub_u64(0, self.size);
        }
        self.size
    }

    // What a word of a row says.
    pub fn in_word(w: u64) -> Signed
        ensures { said result ≡ word_signed w }
    {
        if w < 9223372036854775808 {
            return Signed {
                minus: false,
                size: w,
            };
        }
        Signed {
            minus: true,
            size: std::num::wrapping_sub_u64(0, w),
        }
    }

    // What it adds to its own side of an equation.
    fn over(self) -> u64
        ensures { (result ≡ above (said self)) × (result ≤ self.size) }
    {
        if self.minus {
            return 0;
        }
        self.size
    }

    // What its minus carries over to the other side.
    fn under(self) -> u64
        ensures { (result ≡ below (said self)) × (result ≤ self.size) }
    {
        if self.minus {
            return self.size;
        }
        0
    }
}

// The left side of a + b = c + d, with what is carried over to it.
fn side(a: Signed, b: Signed, c: Signed, d: Signed) -> u64
    requires { (a.size ≤ most14) × (b.size ≤ most14) × (c.size ≤ most14) × (d.size ≤ most14) }
    ensures { result ≡ side_of (said a) (said b) (said c) (said d) }
{
    a.over() + b.over() + (c.under() + d.under())
}

// Does the new balance follow from the old one and both turnovers?
pub fn balanced(old: Signed, new: Signed, debit: Signed, credit: Signed) -> bool
    requires { (old.size ≤ most14) × (new.size ≤ most14) × (debit.size ≤ most14) × (credit.size ≤ most14) }
    ensures { result ≡ balanced_of (said old) (said new) (said debit) (said credit) }
{
    side(new, debit, old, credit) == side(old, credit, new, debit)
}
