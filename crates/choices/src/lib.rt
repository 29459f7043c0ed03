// One sign, one letter: the sets that the pairs of a start may still be given, narrowed until they say whether there is a choice, and the lowest.
// No choice is lost on the way, so what is left decides. Narrowing pair by pair, once from left to right (001), does not: `[ab][abc][ab]` over `[abc]ab` would pass.
#![tactic(auto)]

ghost use Rattle.std.specs.Prelude.{◌≡◌, true, ◌+◌, ◌≤◌, ◌<◌, length, take};
ghost use Rattle.letters.specs.Sizes.{SizedPattern};
ghost use Rattle.choices.specs.Choices.{bound_at};
ghost use Rattle.choices.specs.Candidates.{CutBy, low_member, Lowest};

use crate::ties::Ties;
use letters::letter::common;
use letters::members::lowest;
use letters::strings::Pattern;

mod joins;
mod ties;

// The letters of the pattern: what its pairs may be given before a start is tried. An array with room for the longest pattern, since there is no heap.
pub fn letters_of(p: &[u32]) -> [u32; Pattern::MAX_M]
    requires { SizedPattern Pattern.MAX_M p.now }
    ensures { take (length p.now) result ≡ p.now }
{
    let mut own = [0; Pattern::MAX_M];
    own[..p.len()].copy_from_slice(p);
    own
}

// Each set without what the text letter under its pair has not.
fn cut(own: &mut [u32], t: &[u32], i: usize)
    requires { i + length own.old ≤ length t.now }
    ensures { CutBy t.now i own.old own.new }
{
    for (j, c) in own.iter_mut().enumerate() {
        *c = common(*c, t[i + j]);
    }
}

// The lowest member of a set that has one.
#[tactic(auto, using(crate::proofs::SettleLaws::low_zeros))]
pub fn low_member(c: u32) -> u32
    requires { 0 < c }
    ensures { result ≡ low_member c }
{
    lowest(c)
}

// Tries a start, with one set for each pair, the pattern's letters. To find the ties takes m(m - 1) steps at most. There are m passes at most: each
// carries what a set has lost over one tie at least, and no two tied pairs lie m ties apart.
fn settle(p: &[u32], t: &[u32], i: usize, own: &mut [u32]) -> bool
    requires { SizedPattern Pattern.MAX_M p.now × (i + length p.now ≤ length t.now) × (own.old ≡ p.now) }
    ensures { (result ≡ bound_at p.now t.now i) × (length own.new ≡ length p.now) × (result ≡ true → Lowest p.now t.now i own.new) }
{
    let mut ties = Ties {
        above: [0; Pattern::MAX_M],
        under: [0; Pattern::MAX_M],
    };
    ties.find(p, t, i);
    cut(own, t, i);
    while ties.pass(own) {}
    !own.contains(&0)
}

// Tries a start, from a list whose front has the pattern's letters: whether there is a choice. Then the lowest member of each set of the front is the
// lowest that a choice gives.
pub fn narrow(p: &[u32], t: &[u32], i: usize, own: &mut [u32]) -> bool
    requires { SizedPattern Pattern.MAX_M p.now × (i + length p.now ≤ length t.now) × (take (length p.now) own.old ≡ p.now) }
    ensures { (result ≡ bound_at p.now t.now i) × (result ≡ true → Lowest p.now t.now i own.new) }
{
    settle(p, t, i, &mut own[..p.len()])
}
