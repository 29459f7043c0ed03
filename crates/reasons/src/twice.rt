// The call made twice.
ghost use Rattle.std.specs.Prelude.{◌≡◌};

use inputs::refusal::Refusal;
use inputs::twice::Twice;

fn shared_at_twice(
    k: u32,
    p: &[u32],
    t: &[u32],
    start: usize,
    a: &mut [u32],
    b: &mut [u32],
) -> Twice<Result<usize, Refusal>>
    requires { a.old ≡ b.old }
    ensures { (result.first ≡ result.second) × (a.new ≡ b.new) }
{
    let first = crate::shared_at(k, p, t, start, a);
    let second = crate::shared_at(k, p, t, start, b);
    Twice { first, second }
}
