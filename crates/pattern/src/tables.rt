// The pattern's own shifts: for each stretch of it the least shift by which it meets itself there. They are found from how far the pattern, moved by s, meets itself, so no border of a border is taken.
ghost use Rattle.std.specs.Prelude.{◌≡◌, ℕ, ◌+◌, ◌-◌, ◌≤◌, ◌<◌, leb, length, get_or};
ghost use Rattle.letters.specs.Sizes.{SizedPattern};
ghost use Rattle.shifts.specs.Least.{least};
ghost use Rattle.pattern.specs.Far.{front_far, end_far};
ghost use Rattle.pattern.specs.Tables.{shift_table, front_shifts, end_shifts};

use hits::scan::{reach_to, scan_back};
use letters::strings::Pattern;

// An array with room for the longest pattern, since there is no heap.
#[derive(Clone, Copy, Debug, PartialEq, Eq)]
pub struct Shifts {
    pub by: [u32; Pattern::MAX_M + 1],
}

impl Shifts {
    // By the length of the stretch at the front.
    pub fn from_front(p: &[u32]) -> Self
        requires { SizedPattern Pattern.MAX_M p.now }
        ensures { result.by ≡ front_shifts Pattern.MAX_M p.now }
    {
        let far = fars(p.len(), |s| front_far(p, s));
        let by = least_shifts(&far, p.len());
        Self { by }
    }

    // By the length of the stretch at the end.
    pub fn from_end(p: &[u32]) -> Self
        requires { SizedPattern Pattern.MAX_M p.now }
        ensures { result.by ≡ end_shifts Pattern.MAX_M p.now }
    {
        let far = fars(p.len(), |s| end_far(p, s));
        let by = least_shifts(&far, p.len());
        Self { by }
    }
}

// The index up to which the pattern moved by s meets itself.
fn front_far(p: &[u32], s: usize) -> usize
    requires { s ≤ length p.now }
    ensures { (result ≡ front_far p.now s) × (result ≤ length p.now) }
{
    s + reach_to(p, p, s, 0, p.len() - s)
}

// How many of the last letters the pattern moved by s meets; all m if it meets as far as it covers.
fn end_far(p: &[u32], s: usize) -> usize
    requires { s ≤ length p.now }
    ensures { (result ≡ end_far p.now s) × (result ≤ length p.now) }
{
    let rest = p.len() - s;
    let b = scan_back(p, p, false, s, rest);
    let met = rest - b.left;
    if met == rest { p.len() } else { met }
}

// How far, for each s from 1 to m, where `far` tells it of one s.
fn fars<F: Fn(usize) -> usize>(m: usize, far: F) -> [u32; Pattern::MAX_M + 1]
    requires short { m ≤ Pattern.MAX_M }
    requires callable { (s : ℕ) → s ≤ m → F.pre far s }
    requires within { (s r : ℕ) → s ≤ m → F.post far s r → r ≤ m }
    ensures { (s : ℕ) → 0 < s → s ≤ m → F.post far s (get_or result s 0) }
{
    let mut all = [0u32; Pattern::MAX_M + 1];
    for s in 1..=m {
        all[s] = far(s) as u32;
    }
    all
}

// The least x from s on, below m, for which far[x] is at least h; else m.
fn next_far(far: &[u32; Pattern::MAX_M + 1], s: usize, h: usize, m: usize) -> usize
    requires { (s ≤ m) × (m ≤ Pattern.MAX_M) }
    ensures { result ≡ least (λ (x : ℕ). leb h (get_or far.now x 0)) s (m - s) }
{
    (s..m).find(|x| h <= far[*x] as usize).unwrap_or(m)
}

// For each h up to m the least s from 1 to m for which far[s] is at least h, in one pass: it never falls as h rises.
fn least_shifts(far: &[u32; Pattern::MAX_M + 1], m: usize) -> [u32; Pattern::MAX_M + 1]
    requires { (0 < m) × (m ≤ Pattern.MAX_M) }
    ensures { result ≡ shift_table Pattern.MAX_M m (λ h x. leb h (get_or far.now x 0)) }
{
    let mut out = [1u32; Pattern::MAX_M + 1];
    let mut s: usize = 1;
    for h in 0..=m {
        s = next_far(far, s, h, m);
        out[h] = s as u32;
    }
    out
}
