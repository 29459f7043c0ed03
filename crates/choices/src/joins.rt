// Joins: tied pairs are cut to what they have in common.
ghost use Rattle.std.specs.Prelude.{◌≡◌, ◌<◌, length};
ghost use Rattle.choices.specs.Candidates.{differs, joined};

use letters::letter::common;

// Cuts the sets of two pairs to what they have in common; whether they differed. Where they are the same nothing is stored: the next join often reads
// the cell that this one wrote, and along a chain of ties each store would be waited for (docs/SPEED.md).
#[tactic(auto, unfolding(crate::specs::Candidates::joined), using(crate::proofs::JoinLaws::joined_same))]
pub fn join(own: &mut [u32], a: usize, j: usize) -> bool
    requires { (a < length own.old) × (j < length own.old) }
    ensures { (result ≡ differs a j own.old) × (own.new ≡ joined a j own.old) }
{
    let x = own[a];
    let y = own[j];
    if x == y {
        return false;
    }
    let both = common(x, y);
    own[a] = both;
    own[j] = both;
    true
}
