// A mask for each base letter: the places of the pattern whose letters have it.
ghost use Rattle.std.specs.Prelude.{◌≡◌, get_or, set};
ghost use Rattle.std.specs.Int.Bits.{bit_or};
ghost use Rattle.letters.specs.Members.{members, walked};
ghost use Rattle.letters.specs.Sizes.{SizedPattern};
ghost use Rattle.pattern.specs.Tables.{mask_table};

use letters::letter::Letter;
use letters::strings::Pattern;

#[derive(Clone, Copy, Debug, PartialEq, Eq)]
pub struct Masks {
    pub rows: [u64; Letter::MAX_K as usize],
}

impl Masks {
    pub fn of(p: &[u32]) -> Self
        requires { SizedPattern Pattern.MAX_M p.now }
        ensures { result.rows ≡ mask_table Letter.MAX_K p.now }
    {
        let mut rows = [0u64; Letter::MAX_K as usize];
        for (j, c) in p.iter().enumerate() {
            mark(&mut rows, *c, 1u64 << j);
        }
        Self { rows }
    }
}

// Brings a place into the row of each member of c.
#[tactic(auto, using(letters::proofs::MemberLaws::next_below), unfolding(letters::specs::Members::walked))]
fn mark(rows: &mut [u64; Letter::MAX_K as usize], c: u32, place: u64)
    ensures { rows.new ≡ walked (λ x b. set x b (bit_or (get_or x b 0) place)) rows.old (members Letter.MAX_K c) }
{
    for b in Letter::from(c).members() {
        rows[b as usize] |= place;
    }
}
