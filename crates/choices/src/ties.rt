// Ties: which pairs must be given the same base letter, because an unsure letter stands at both, in the pattern or under it.
ghost use Rattle.std.specs.Prelude.{◌≡◌, ◌+◌, ◌^◌, ◌≤◌, ◌<◌, ◌==◌, ◌||◌, length, position};
ghost use Rattle.std.specs.List.{zip};
ghost use Rattle.letters.specs.Sizes.{SizedPattern};
ghost use Rattle.choices.specs.Candidates.{tie_of, Tied, NeverAhead, passed, stirred};

use crate::joins::join;
use letters::letter::lone;
use letters::strings::Pattern;

// The two pairs that each pair is tied to, by the pattern's letter and by the one under it: itself, or one before it.
// Two tables and no table of twos: the definitions, and the theorems on them, speak of a list for each.
#[derive(Drop)]
pub struct Ties {
    pub above: [u32; Pattern::MAX_M],
    pub under: [u32; Pattern::MAX_M],
    ghost above_back: { NeverAhead above },
    ghost under_back: { NeverAhead under },
}

impl Ties {
    // Finds the ties of every pair. In place: tables that a function makes and answers are moved, and that costs a short pattern more than its ties.
    pub fn find(&mut self, p: &[u32], t: &[u32], i: usize)
        requires { SizedPattern Pattern.MAX_M p.now × (i + length p.now ≤ length t.now) }
        ensures { Tied p.now t.now i self.new.above self.new.under }
    {
        for j in 0..p.len() {
            self.above[j] = tie(p, t, i, p[j], j);
            self.under[j] = tie(p, t, i, t[i + j], j);
        }
    }

    // Joins each pair with the two that it is tied to; whether this changed a set.
    #[tactic(auto, unfolding(crate::specs::Candidates::passed, crate::specs::Candidates::stirred))]
    pub fn pass(&self, own: &mut [u32]) -> bool
        requires { length own.old ≤ Pattern.MAX_M }
        ensures { (result ≡ stirred self.now.above self.now.under (length own.old) own.old) × (own.new ≡ passed self.now.above self.now.under (length own.old) own.old) }
    {
        let mut changed = false;
        for j in 0..own.len() {
            // A branch, and no `|=`: the flag is then written where the sets are, and not worked out at each join.
            if join(own, self.above[j] as usize, j) {
                changed = true;
            }
            if join(own, self.under[j] as usize, j) {
                changed = true;
            }
        }
        changed
    }
}

// The pair that pair j is tied to by its letter c. A single letter leaves no choice and ties nothing, so it is not looked for.
#[tactic(auto, unfolding(crate::specs::Candidates::tie_of))]
fn tie(p: &[u32], t: &[u32], i: usize, c: u32, j: usize) -> u32
    requires { (j ≤ length p.now) × (i + j ≤ length t.now) × (j < 2 ^ 32) }
    ensures { result ≡ tie_of p.now t.now i c j }
{
    if lone(c) {
        return j as u32;
    }
    earliest(&p[..j], &t[i..i + j], c).unwrap_or(j) as u32
}

// The first of these pairs at which c stands.
fn earliest(above: &[u32], under: &[u32], c: u32) -> Option<usize>
    ensures { result ≡ position (λ x. (x.0 == c) || (x.1 == c)) (zip above.now under.now) }
{
    above
        .iter()
        .zip(under.iter())
        .position(|(a, b)| *a == c || *b == c)
}
