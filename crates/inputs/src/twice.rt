// A call made twice. Each public call is made twice by a function of its crate, on equal inputs, and that function promises equal answers and equal
// lent memory: so the call's contract, from which alone this is proved, leaves nothing open.
ghost use Rattle.std.specs.Prelude.{◌≡◌};

use crate::refusal::Refusal;
use crate::rule::{Rule, search};
use hits::work::Work;

// What was answered.
#[derive(Clone, Copy)]
pub struct Twice<T> {
    pub first: T,
    pub second: T,
}

// A search, by any engine.
pub fn search_twice<R: Rule>(
    k: u32,
    p: &[u32],
    t: &[u32],
    a: &mut [u32],
    b: &mut [u32],
) -> Twice<Result<Work, Refusal>>
    requires { a.old ≡ b.old }
    ensures { (result.first ≡ result.second) × (a.new ≡ b.new) }
{
    let first = search::<R>(k, p, t, a);
    let second = search::<R>(k, p, t, b);
    Twice { first, second }
}
