// An engine as what differs from one to the next: its rule, and the run that keeps to it. What all share is here.
ghost use Rattle.std.specs.Prelude.{◌≡◌, ℕ, List};
ghost use Rattle.letters.specs.Sizes.{Sized};
ghost use Rattle.hits.specs.Hits.{hits};
ghost use Rattle.hits.specs.Turns.{Run};
ghost use Rattle.hits.specs.Counts.{work_of};
ghost use Rattle.lent.specs.Over.{over};
ghost use Rattle.inputs.specs.Answers.{Searched};

use crate::checks::checked;
use crate::refusal::Refusal;
use hits::work::Work;
use letters::letter::Letter;
use letters::strings::{Pattern, Text};

pub trait Rule {
    // What the rule makes of a pattern and a text.
    ghost turns: { List ℕ → List ℕ → Run };

    // The run over a text that passed the checks.
    fn run(p: &[u32], t: &[u32], list: &mut [u32]) -> Work
        requires { Sized Pattern.MAX_M Text.MAX_N p.now t.now }
        ensures { (result ≡ work_of (hits p.now t.now) (turns p.now t.now)) × (list.new ≡ over (hits p.now t.now) list.old) };
}

// An engine's public search, for what serves any engine: that goes through it, so that all that its contract says, the bounds of its work too, is of the
// code that runs. A trait beside `Rule`, since a public search is made of the run.
pub trait Searches: Rule {
    fn searched(k: u32, p: &[u32], t: &[u32], list: &mut [u32]) -> Result<Work, Refusal>
        ensures { Searched Self.turns Letter.MAX_K Pattern.MAX_M Text.MAX_N k p.now t.now list.old result list.new };
}

// Every start at which the pattern meets the text, by an engine's rule: what each engine's public search is.
pub fn search<R: Rule>(k: u32, p: &[u32], t: &[u32], list: &mut [u32]) -> Result<Work, Refusal>
    ensures { Searched R.turns Letter.MAX_K Pattern.MAX_M Text.MAX_N k p.now t.now list.old result list.new }
{
    checked(k, p, t)?;
    Ok(R::run(p, t, list))
}
