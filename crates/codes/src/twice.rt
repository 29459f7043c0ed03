// A search called from C twice, by any engine.
ghost use Rattle.std.specs.Prelude.{◌≡◌};
ghost use Rattle.codes.specs.Called.{Lists};

use crate::search::{ByRule, called_through};
use inputs::rule::{Rule, Searches};
use inputs::twice::Twice;

pub fn called_through_twice<R: Searches>(
    k: u32,
    p: &[u32],
    t: &[u32],
    a: &mut [u32],
    w: &mut [u64],
    b: &mut [u32],
    v: &mut [u64],
) -> Twice<i64>
    requires { ◌≡◌ {A = Lists} (record { starts = a.old; counts = w.old }) (record { starts = b.old; counts = v.old }) }
    ensures { (result.first ≡ result.second) × (◌≡◌ {A = Lists} (record { starts = a.new; counts = w.new }) (record { starts = b.new; counts = v.new })) }
{
    let first = called_through::<R>(k, p, t, a, w);
    let second = called_through::<R>(k, p, t, b, v);
    Twice { first, second }
}

// The same of an engine that has its rule alone.
pub fn called_twice<R: Rule>(
    k: u32,
    p: &[u32],
    t: &[u32],
    a: &mut [u32],
    w: &mut [u64],
    b: &mut [u32],
    v: &mut [u64],
) -> Twice<i64>
    requires { ◌≡◌ {A = Lists} (record { starts = a.old; counts = w.old }) (record { starts = b.old; counts = v.old }) }
    ensures { (result.first ≡ result.second) × (◌≡◌ {A = Lists} (record { starts = a.new; counts = w.new }) (record { starts = b.new; counts = v.new })) }
{
    called_through_twice::<ByRule<R>>(k, p, t, a, w, b, v)
}
