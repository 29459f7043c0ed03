// A letter as a set of base letters: bit b stands for base letter b.
ghost use Rattle.std.specs.Prelude.{◌≡◌};
ghost use Rattle.letters.specs.Letters.{member, shared, single};

#[derive(Clone, Copy, Debug, PartialEq, Eq)]
pub struct Letter {
    pub bits: u32,
}

// The letter with these bits.
impl From<u32> for Letter {
    ghost from_gives = { λ bits c. c.bits ≡ bits };

    fn from(bits: u32) -> Letter {
        Letter { bits }
    }
}

impl Letter {
    // The largest alphabet.
    pub const MAX_K: u32 = 32;

    // Whether base letter b is a member.
    pub fn has(self, b: u32) -> bool
        ensures { result ≡ member b self.bits }
    {
        if b < Letter::MAX_K {
            return (self.bits >> b) % 2 == 1;
        }
        false
    }

    // The letter of the common members.
    #[tactic(auto, unfolding(crate::specs::Letters::shared))]
    pub fn shared(self, other: Letter) -> Letter
        ensures { result.bits ≡ shared self.bits other.bits }
    {
        Letter::from(self.bits & other.bits)
    }

    // Whether there is one member, by the count of ones.
    #[tactic(auto, unfolding(crate::specs::Letters::single))]
    pub fn is_single(self) -> bool
        ensures { result ≡ single self.bits }
    {
        self.bits.count_ones() == 1
    }
}

// Two letters compared: the members that they have in common, 0 where they do not meet. A test is one such comparison.
pub fn common(a: u32, b: u32) -> u32
    ensures { result ≡ shared a b }
{
    Letter::from(a).shared(Letter::from(b)).bits
}

// Whether a letter of a lent string has one member.
pub fn lone(c: u32) -> bool
    ensures { result ≡ single c }
{
    Letter::from(c).is_single()
}
