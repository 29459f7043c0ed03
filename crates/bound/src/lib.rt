// The bound mode: within one hit every unsure letter stands for one of its members, the same wherever it stands. All starts at which there is such a choice.
#![tactic(auto)]

pub mod c;
pub mod choice;
mod twice;

ghost use Rattle.std.specs.Prelude.{◌≡◌, ◌+◌, ◌≤◌, length, take};
ghost use Rattle.letters.specs.Sizes.{SizedPattern, Sized};
ghost use Rattle.lent.specs.Over.{over};
ghost use Rattle.choices.specs.Choices.{bound_at, bound_hits};
ghost use Rattle.bound.specs.Bound.{BoundSearched};

use choices::{letters_of, narrow};
use hits::scan::reach_to;
use hits::work::note;
use inputs::checks::checked;
use inputs::refusal::Refusal;
use letters::letter::Letter;
use letters::strings::{Pattern, Text};

// Whether start i is bound-listed. Only a hit is tried, and on its own copy of what the pairs may be given.
#[tactic(auto, using(choices::proofs::BoundLaws::missed_bound))]
fn is_listed(p: &[u32], t: &[u32], i: usize, letters: &[u32; Pattern::MAX_M]) -> bool
    requires { SizedPattern Pattern.MAX_M p.now × (i + length p.now ≤ length t.now) × (take (length p.now) letters.now ≡ p.now) }
    ensures { result ≡ bound_at p.now t.now i }
{
    let m = p.len();
    if reach_to(p, t, i, 0, m) < m {
        return false;
    }
    let mut own = *letters;
    narrow(p, t, i, &mut own)
}

// The run over all starts at which the pattern fits. How many are bound-listed.
fn run(p: &[u32], t: &[u32], list: &mut [u32]) -> usize
    requires { Sized Pattern.MAX_M Text.MAX_N p.now t.now }
    ensures { (result ≡ length (bound_hits p.now t.now)) × (list.new ≡ over (bound_hits p.now t.now) list.old) }
{
    let starts = (t.len() + 1).saturating_sub(p.len());
    let letters = letters_of(p);
    let mut total = 0;
    for i in 0..starts {
        let listed = is_listed(p, t, i, &letters);
        total = note(list, total, i, listed);
    }
    total
}

// Every bound-listed start; how many there are.
#[tactic(auto, using(inputs::proofs::CheckLaws::sized))]
pub fn search(k: u32, p: &[u32], t: &[u32], list: &mut [u32]) -> Result<usize, Refusal>
    ensures { BoundSearched Letter.MAX_K Pattern.MAX_M Text.MAX_N k p.now t.now list.old result list.new }
{
    checked(k, p, t)?;
    Ok(run(p, t, list))
}
