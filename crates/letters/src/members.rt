// The loop over a letter's members, from the lowest set bit upward.
ghost use Rattle.std.specs.Prelude.{◌≡◌, ◌-◌};
ghost use Rattle.std.specs.Int.Bits.{bit_and};
ghost use Rattle.std.specs.Int.Count.{count_trailing_zeros};
ghost use Rattle.std.specs.Iterator.{YieldsFirst, item_count};
ghost use Rattle.letters.specs.declared.letter.TheConstants.Letter.{MAX_K};
ghost use Rattle.letters.specs.Members.{members, union_of};

use crate::letter::Letter;

// The members of a letter that are still to come, ascending.
#[derive(Clone, Debug, Drop)]
pub struct Members {
    pub left: u32,
}

impl Iterator for Members {
    type Item = u32;

    ghost next_gives = { YieldsFirst (λ s. members MAX_K s.left) };

    ghost remaining = { item_count (λ s. members MAX_K s.left) };

    #[tactic(auto, using(crate::proofs::MemberLaws::members_walk, crate::proofs::MemberLaws::members_none))]
    fn next(&mut self) -> Option<u32> {
        if self.left == 0 {
            return None;
        }
        let b = lowest(self.left);
        self.left = rest(self.left);
        Some(b)
    }
}

impl Letter {
    // Its members, ascending.
    pub fn members(self) -> Members
        ensures { result.left ≡ self.bits }
    {
        Members { left: self.bits }
    }
}

// The lowest member; the width if there is none.
pub fn lowest(c: u32) -> u32
    ensures { result ≡ count_trailing_zeros Letter.MAX_K c }
{
    c.trailing_zeros()
}

// The letter without its lowest member.
pub fn rest(c: u32) -> u32
    ensures { result ≡ bit_and c (c - 1) }
{
    if c == 0 {
        return 0;
    }
    c & (c - 1)
}

// The union of a table's rows over the members of c.
#[tactic(auto, using(crate::proofs::MemberLaws::next_below), unfolding(crate::specs::Members::walked))]
pub fn union(rows: &[u64; Letter::MAX_K as usize], c: u32) -> u64
    ensures { result ≡ union_of rows.now (members Letter.MAX_K c) }
{
    let mut all: u64 = 0;
    for b in Letter::from(c).members() {
        all |= rows[b as usize];
    }
    all
}
