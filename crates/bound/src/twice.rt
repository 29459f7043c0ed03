// Both calls made twice.
ghost use Rattle.std.specs.Prelude.{◌≡◌};

use crate::choice::choose;
use inputs::refusal::Refusal;
use inputs::twice::Twice;

fn search_twice(
    k: u32,
    p: &[u32],
    t: &[u32],
    a: &mut [u32],
    b: &mut [u32],
) -> Twice<Result<usize, Refusal>>
    requires { a.old ≡ b.old }
    ensures { (result.first ≡ result.second) × (a.new ≡ b.new) }
{
    let first = crate::search(k, p, t, a);
    let second = crate::search(k, p, t, b);
    Twice { first, second }
}

fn choose_twice(
    k: u32,
    p: &[u32],
    t: &[u32],
    start: usize,
    a: &mut [u32],
    b: &mut [u32],
) -> Twice<Result<bool, Refusal>>
    requires { a.old ≡ b.old }
    ensures { (result.first ≡ result.second) × (a.new ≡ b.new) }
{
    let first = choose(k, p, t, start, a);
    let second = choose(k, p, t, start, b);
    Twice { first, second }
}
