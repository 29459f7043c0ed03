// The values of a report: the starts, and what each engine counted.
ghost use Rattle.std.specs.Prelude.{◌≡◌, Ok};
ghost use Rattle.hits.specs.Hits.{hits};
ghost use Rattle.lent.specs.Over.{over};
ghost use Rattle.inputs.specs.Refusals.{verdict};
ghost use Rattle.report.specs.Values.{works_of};

use engines::engine::Engine;
use engines::search;
use hits::work::Work;
use letters::letter::Letter;
use letters::strings::{Pattern, Text};

// Searches by all six. The first lists the starts; the others only count. No search is refused, so no count is the default.
pub(crate) fn searched(k: u32, p: &[u32], t: &[u32], starts: &mut [u32]) -> [Work; Engine::COUNT]
    requires { verdict Letter.MAX_K Pattern.MAX_M Text.MAX_N k p.now t.now ≡ Ok tt }
    ensures { (result ≡ works_of p.now t.now) × (starts.new ≡ over (hits p.now t.now) starts.old) }
{
    let first = search(Engine::Brute, k, p, t, starts).unwrap_or_default();
    let mut works = [first; Engine::COUNT];
    for i in 1..Engine::COUNT {
        works[i] = search(Engine::ALL[i], k, p, t, &mut []).unwrap_or_default();
    }
    works
}
