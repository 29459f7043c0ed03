// The six engines as one thing.
#![tactic(auto)]

pub mod engine;
mod twice;

ghost use Rattle.inputs.specs.Answers.{Searched};
ghost use Rattle.engines.specs.Engines.{run_of, Bounded};

use crate::engine::Engine;
use hits::work::Work;
use inputs::refusal::Refusal;
use letters::letter::Letter;
use letters::strings::{Pattern, Text};

// Every start at which the pattern meets the text, by an engine.
pub fn search(e: Engine, k: u32, p: &[u32], t: &[u32], list: &mut [u32]) -> Result<Work, Refusal>
    ensures promise { Searched (run_of e) Letter.MAX_K Pattern.MAX_M Text.MAX_N k p.now t.now list.old result list.new }
    ensures bound { Bounded e p.now t.now result }
{
    // A match, and no table of functions: each arm has its engine's promise, and the six are all that there are.
    match e {
        Engine::Brute => brute::search(k, p, t, list),
        Engine::Kmp => kmp::search(k, p, t, list),
        Engine::Bm => bm::search(k, p, t, list),
        Engine::Sunday => sunday::search(k, p, t, list),
        Engine::ShiftAnd => shiftand::search(k, p, t, list),
        Engine::Hybrid => hybrid::search(k, p, t, list),
    }
}
