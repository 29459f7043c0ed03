// The prepared pattern: what is worked out from its letters before the text is looked at. And R, which is found when it is asked for.
#![tactic(auto)]

ghost use Rattle.std.specs.Prelude.{◌≡◌};
ghost use Rattle.pattern.specs.Last.{after_r};
ghost use Rattle.pattern.specs.Tables.{sure_prefix};

use letters::letter::{common, lone};

pub mod masks;
pub mod tables;

#[derive(Clone, Copy, Debug, PartialEq, Eq)]
pub struct Prepared {
    // the length of the longest prefix of single letters
    pub sure: usize,
}

impl Prepared {
    pub fn new(p: &[u32]) -> Self
        ensures { result.sure ≡ sure_prefix p.now }
    {
        Self {
            sure: p.iter().take_while(|c| lone(**c)).count(),
        }
    }
}

// R(c) + 1, by a walk from the right end to the first letter that meets c; 0 if none does, as with an entry mark. No table is held for it.
//
// A walk looks at m - R(c) letters, or at all m if none meets. In Sunday and Hybrid that is at most the shift that it gives. They walk only if
// i + m is below n, so that no such shift leads past n, and all walks of a search look at n letters at most. In BM, where letter j fails after
// g others met, m - R is j - R and g + 1 more: the shift, if R lies left of j, and the tests of that scan; else it is less than those tests.
//
// The compiler makes of it the loop of four instructions that was found to be the shortest (docs/SPEED.md).
pub fn after_r(p: &[u32], c: u32) -> usize
    ensures { result ≡ after_r p.now c }
{
    match p.iter().rposition(|letter| common(*letter, c) != 0) {
        Some(j) => j + 1,
        None => 0,
    }
}
