// What KMP and BM share: the scan of a stretch, and the shift found by trying.
#![tactic(auto)]

ghost use Rattle.std.specs.Prelude.{◌≡◌, ◌+◌, ◌-◌, ◌^◌, ◌≤◌, ◌<◌, length};
ghost use Rattle.shifts.specs.Least.{least};
ghost use Rattle.shifts.specs.Shift.{fit, trials};

use hits::scan::reach_to;

#[derive(Clone, Copy, Debug, PartialEq, Eq)]
pub struct Trials {
    pub by: usize,
    pub tests: u64,
}

// The least shift that fits, by trying s = 1, 2, ..: letters lo to hi - 1 of p meet t at start i.
pub fn try_shifts(p: &[u32], t: &[u32], i: usize, lo: usize, hi: usize) -> Trials
    requires { (lo ≤ hi) × (0 < hi) × (hi ≤ length p.now) × (length p.now < 2 ^ 32) × (i + length p.now ≤ length t.now) }
    ensures { (result.by ≡ least (fit p.now t.now i lo hi) 1 (hi - 1)) × (result.tests ≡ trials p.now t.now i lo hi 1 (hi - 1)) }
{
    let n = t.len();
    let m = p.len();
    let mut tests: u64 = 0;
    for s in 1..hi {
        let at = i + s;
        if n < at + m {
            return Trials { by: s, tests };
        }
        let a = lo.saturating_sub(s);
        let b = hi - s;
        let r = reach_to(p, t, at, a, b);
        tests += (r - a) as u64 + u64::from(r < b);
        if r == b {
            return Trials { by: s, tests };
        }
    }
    Trials { by: hi, tests }
}
