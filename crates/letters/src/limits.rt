// The limits as numbers, and the test of a size against its limits.
ghost use Rattle.std.specs.Prelude.{◌≡◌};
ghost use Rattle.letters.specs.Sizes.{outside};

use crate::letter::Letter;
use crate::strings::{Pattern, Text};

#[derive(Clone, Copy, Debug, PartialEq, Eq)]
pub struct Limits {
    pub k: u32,
    pub m: usize,
    pub n: usize,
}

// A contract that hands over a constant follows it wherever it goes; this one does not.
pub fn pinned() -> Limits
    ensures { (result.k ≡ 32) × (result.m ≡ 64) × (result.n ≡ 65536) }
{
    Limits {
        k: Letter::MAX_K,
        m: Pattern::MAX_M,
        n: Text::MAX_N,
    }
}

// Whether x is below the least or above the most.
#[tactic(auto, unfolding(crate::specs::Sizes::outside))]
pub fn is_outside(x: usize, least: usize, most: usize) -> bool
    ensures { result ≡ outside least most x }
{
    !(least..=most).contains(&x)
}
