// The choice at one start: for each letter of the pattern the lowest base letter that it can be given.
ghost use Rattle.std.specs.Prelude.{◌≡◌, Ok, map, ℕ, ◌+◌, ◌≤◌, ◌<◌, length, get_or};
ghost use Rattle.letters.specs.Sizes.{SizedPattern};
ghost use Rattle.lent.specs.Over.{over};
ghost use Rattle.choices.specs.Choices.{bound_at, lowest_at};
ghost use Rattle.choices.specs.Candidates.{low_member};
ghost use Rattle.bound.specs.Bound.{choice_left, BoundChosen};

use choices::{letters_of, low_member, narrow};
use inputs::checks::checked_at;
use inputs::refusal::Refusal;
use letters::letter::Letter;
use letters::strings::{Pattern, Text};

// The lowest member of each set, over the front of the list.
#[tactic(auto, unfolding(lent::specs::Over::over), using(lent::proofs::MapLaws::written_next, lent::proofs::MapLaws::written_all))]
fn put_lowest(own: &[u32], choice: &mut [u32])
    requires { (length own.now ≤ length choice.old) × ((j : ℕ) → j < length own.now → get_or own.now j 0 ≡ 0 → ⊥) }
    ensures { choice.new ≡ over (map low_member own.now) choice.old }
{
    for j in 0..own.len() {
        choice[j] = low_member(own[j]);
    }
}

// Tries the start, and writes the choice if there is one. Whether there is.
#[tactic(auto, using(choices::proofs::SettleLaws::lowest_written))]
fn is_made(p: &[u32], t: &[u32], i: usize, choice: &mut [u32]) -> bool
    requires { SizedPattern Pattern.MAX_M p.now × (i + length p.now ≤ length t.now) × (length p.now ≤ length choice.old) }
    ensures { (result ≡ bound_at p.now t.now i) × (choice.new ≡ choice_left (Ok tt) (bound_at p.now t.now i) (lowest_at p.now t.now i) choice.old) }
{
    let mut own = letters_of(p);
    if !narrow(p, t, i, &mut own) {
        return false;
    }
    put_lowest(&own[..p.len()], choice);
    true
}

// Whether a start is bound-listed; its lowest choice is written where it is, and nothing where it is not.
#[tactic(auto, using(inputs::proofs::CheckLaws::placed_at))]
pub fn choose(
    k: u32,
    p: &[u32],
    t: &[u32],
    start: usize,
    choice: &mut [u32],
) -> Result<bool, Refusal>
    ensures { BoundChosen Letter.MAX_K Pattern.MAX_M Text.MAX_N k p.now t.now start choice.old result choice.new }
{
    checked_at(k, p, t, start, choice.len())?;
    Ok(is_made(p, t, start, choice))
}
