// The search made twice. `inputs::twice` says this of the search by any rule; this, of the contract that stands at the public call, as README promises of each.
ghost use Rattle.std.specs.Prelude.{◌≡◌};

use crate::search;
use hits::work::Work;
use inputs::refusal::Refusal;
use inputs::twice::Twice;

fn search_twice(
    k: u32,
    p: &[u32],
    t: &[u32],
    a: &mut [u32],
    b: &mut [u32],
) -> Twice<Result<Work, Refusal>>
    requires { a.old ≡ b.old }
    ensures { (result.first ≡ result.second) × (a.new ≡ b.new) }
{
    let first = search(k, p, t, a);
    let second = search(k, p, t, b);
    Twice { first, second }
}
