// The search made twice. `inputs::twice` makes the search of any engine twice; this says that the contract which stands at `search` here leaves nothing open, as README promises of each.
ghost use Rattle.std.specs.Prelude.{◌≡◌};

use hits::work::Work;
use inputs::refusal::Refusal;
use inputs::twice::Twice;

fn search_twice(
    k: u32,
    p: &[u32],
    t: &[u32],
    a: &mut [u32],
    b: &mut [u32],
) -> Twice<Result<Work, Refusal>>
    requires { a.old ≡ b.old }
    ensures { (result.first ≡ result.second) × (a.new ≡ b.new) }
{
    let first = crate::search(k, p, t, a);
    let second = crate::search(k, p, t, b);
    Twice { first, second }
}
