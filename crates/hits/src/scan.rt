// A scan of a pattern's letters against the text, left to right or right to left. Its tests are one for each letter passed and one for the
// letter that stopped it, so none is counted in the loop.
ghost use Rattle.std.specs.Prelude.{◌≡◌, ◌&&◌, ◌+◌, ◌-◌, ◌≤◌, length};
ghost use Rattle.hits.specs.Scans.{reach, back};
ghost use Rattle.hits.specs.Singles.{all_single};

use letters::letter::{common, lone};

// How far a scan goes from letter a of p, standing at start i, before letter b: to the first pair that does not meet.
pub fn reach_to(p: &[u32], t: &[u32], i: usize, a: usize, b: usize) -> usize
    requires { (a ≤ b) × (b ≤ length p.now) × (i + b ≤ length t.now) }
    ensures { result ≡ reach p.now t.now i a (b - a) }
{
    for j in a..b {
        if common(p[j], t[i + j]) == 0 {
            return j;
        }
    }
    b
}

#[derive(Clone, Copy, Debug, PartialEq, Eq)]
pub struct Back {
    pub left: usize,
    pub sure: bool,
}

// Tests from letter e - 1 leftwards: how many are left when one does not meet; and whether `whole` holds and the text letters that meet are all single. Once they are not, it is not asked again.
pub fn scan_back(p: &[u32], t: &[u32], whole: bool, i: usize, e: usize) -> Back
    requires { (e ≤ length p.now) × (i + e ≤ length t.now) }
    ensures { (result.left ≤ e) × (e - result.left ≡ back p.now t.now i e) × (result.sure ≡ (whole && all_single t.now (i + result.left) (e - result.left))) }
{
    let mut sure = whole;
    for j in (0..e).rev() {
        let c = t[i + j];
        if common(p[j], c) == 0 {
            return Back { left: j + 1, sure };
        }
        sure = sure && lone(c);
    }
    Back { left: 0, sure }
}
