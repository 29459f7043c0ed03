// Why a start is listed, or is not: what each letter of the pattern shares with the text letter under it.
#![tactic(auto)]

pub mod c;
mod twice;

ghost use Rattle.std.specs.Prelude.{◌≡◌, ◌+◌, ◌≤◌, length};
ghost use Rattle.lent.specs.Over.{over};
ghost use Rattle.reasons.specs.Reasons.{shared_at, SharedInto};

use inputs::checks::checked_at;
use inputs::refusal::Refusal;
use letters::letter::{Letter, common};
use letters::strings::{Pattern, Text};

// What the two letters of each pair share, over the front of the list. An empty set ends nothing: at a start that is no hit the other letters have their reasons too.
#[tactic(auto, unfolding(crate::specs::Reasons::shared_at, lent::specs::Over::over, lent::specs::Table::table, lent::specs::Table::table_from), using(lent::proofs::TableLaws::tabled_next))]
fn put_shared(p: &[u32], t: &[u32], i: usize, sets: &mut [u32])
    requires { (i + length p.now ≤ length t.now) × (length p.now ≤ length sets.old) }
    ensures { sets.new ≡ over (shared_at p.now t.now i) sets.old }
{
    for j in 0..p.len() {
        sets[j] = common(p[j], t[i + j]);
    }
}

// The shared set of each letter of the pattern, standing at a start. How many were written, or the refusal.
#[tactic(auto, using(inputs::proofs::CheckLaws::placed_at, crate::proofs::SharedLaws::length_shared))]
pub fn shared_at(
    k: u32,
    p: &[u32],
    t: &[u32],
    start: usize,
    sets: &mut [u32],
) -> Result<usize, Refusal>
    ensures { SharedInto Letter.MAX_K Pattern.MAX_M Text.MAX_N k p.now t.now start sets.old result sets.new }
{
    checked_at(k, p, t, start, sets.len())?;
    put_shared(p, t, start, sets);
    Ok(p.len())
}
