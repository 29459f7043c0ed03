// The search made twice.
ghost use Rattle.std.specs.Prelude.{◌≡◌};

use crate::engine::Engine;
use crate::search;
use hits::work::Work;
use inputs::refusal::Refusal;
use inputs::twice::Twice;

fn search_twice(
    e: Engine,
    k: u32,
    p: &[u32],
    t: &[u32],
    a: &mut [u32],
    b: &mut [u32],
) -> Twice<Result<Work, Refusal>>
    requires { a.old ≡ b.old }
    ensures { (result.first ≡ result.second) × (a.new ≡ b.new) }
{
    let first = search(e, k, p, t, a);
    let second = search(e, k, p, t, b);
    Twice { first, second }
}
