// The search made twice.
ghost use Rattle.std.specs.Prelude.{◌≡◌};

use crate::First;
use inputs::refusal::Refusal;
use inputs::twice::Twice;

fn search_twice(k: u32, p: &[u32], t: &[u32]) -> Twice<Result<First, Refusal>>
    ensures { result.first ≡ result.second }
{
    let first = crate::search(k, p, t);
    let second = crate::search(k, p, t);
    Twice { first, second }
}
