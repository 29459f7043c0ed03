// The engine BM.
//
// Its rule: tests right to left; shifts by the larger of two shifts, the first by the text under the letters that meet, the second by R of the text letter that does not.
//
// Its source: H. Dehghani, T. Lecroq, N. Mhaskar and W. F. Smyth, "Practical KMP/BM Style Pattern-Matching on Indeterminate Strings" (000), algorithms 5 and 6. Departures:
//
// 1. Where the table of first shifts says nothing, the paper makes a string of the text and the pattern and takes its prefix array; here the shifts are tried over the text in turn, and every test is counted.
// 2. The paper asks for the pattern's longest suffix of single letters; here the table serves where all of the pattern is single.
// 3. The paper's note of an unsure text letter, once made, stays for the rest of the text, and the letter that fails makes it too; here it is asked anew at each start, of the letters that meet.
// 4. The paper's table for the letter that fails has a row for each prefix; here R is of the whole pattern, so that the second shift may come to nothing and is made 1.
// 5. A first shift is cut to the first start past the last.
// 6. Whether a letter is single is asked only while all before it are, and
// 7. the first shift only where a letter meets: else it is 1 with no test. No count shows either.
#![tactic(auto)]

mod twice;

ghost use Rattle.std.specs.Prelude.{◌≡◌, ◌+◌, ◌-◌, ◌*◌, ◌≤◌, ◌<◌, length};
ghost use Rattle.letters.specs.declared.strings.TheConstants.Pattern.{MAX_M};
ghost use Rattle.inputs.specs.Answers.{Searched, scan_of, shift_of};
ghost use Rattle.bm.specs.Bm.{first_shift, first_tests, fail_shift, bm_turn, bm_run};
ghost use Rattle.bm.specs.Steps.{BmReady, Stopped};

use hits::scan::{Back, scan_back};
use hits::work::{Turned, Work};
use inputs::refusal::Refusal;
use inputs::rule::{Rule, Searches};
use inputs::starts::run_starts;
use inputs::steps::Steps;
use letters::letter::Letter;
use letters::strings::{Pattern, Text};
use pattern::tables::Shifts;
use pattern::{Prepared, after_r};
use shifts::{Trials, try_shifts};

// The shift after a failure at letter j.
fn fail_shift(p: &[u32], t: &[u32], i: usize, j: usize) -> usize
    requires { i + j < length t.now }
    ensures { result ≡ fail_shift p.now t.now i j }
{
    let r = after_r(p, t[i + j]);
    (j + 1).saturating_sub(r).max(1)
}

// What is worked out from a pattern: its own shifts from the end, and whether all of it is single. The table is lent, so that the rest can stand in registers.
#[derive(Clone, Copy)]
struct Readied<'a> {
    by: &'a [u32; Pattern::MAX_M + 1],
    whole: bool,
}

impl<'a> Readied<'a> {
    // The first shift, with its tests, where the scan stopped. The table knows nothing of the text's end, so its shift is cut there.
    fn first_shift(&self, p: &[u32], t: &[u32], i: usize, b: Back) -> Trials
        requires ready { BmReady MAX_M p.now self.now.by.now self.now.whole }
        requires stopped { Stopped p.now t.now i b }
        ensures { (result.by ≡ first_shift p.now t.now i (length p.now - b.left)) × (result.tests ≡ first_tests p.now t.now i (length p.now - b.left)) }
    {
        let m = p.len();
        if b.sure {
            let g = m - b.left;
            let end = t.len() + 1 - (m + i);
            return Trials {
                by: (self.by[g] as usize).min(end),
                tests: 0,
            };
        }
        try_shifts(p, t, i, b.left, m)
    }
}

impl<'a> Steps for Readied<'a> {
    ghost turn = { bm_turn };

    ghost ready = { λ e P. BmReady MAX_M P e.by.now e.whole };

    // A turn at start i.
    fn step(&self, p: &[u32], t: &[u32], i: usize) -> Turned {
        let m = p.len();
        let b = scan_back(p, t, self.whole, i, m);
        let left = b.left;
        if left == m {
            return Turned {
                hit: false,
                next: i + fail_shift(p, t, i, m - 1),
                scan: 1,
                shift: 0,
            };
        }
        let a = self.first_shift(p, t, i, b);
        if left == 0 {
            return Turned {
                hit: true,
                next: i + a.by,
                scan: m as u64,
                shift: a.tests,
            };
        }
        let s = fail_shift(p, t, i, left - 1);
        Turned {
            hit: false,
            next: i + a.by.max(s),
            scan: (m - left) as u64 + 1,
            shift: a.tests,
        }
    }
}

// The engine.
#[derive(Clone, Copy, Debug, PartialEq, Eq)]
pub struct Bm;

impl Rule for Bm {
    ghost turns = { bm_run };

    // The run over all starts.
    fn run(p: &[u32], t: &[u32], list: &mut [u32]) -> Work {
        let sure = Prepared::new(p).sure;
        let shifts = Shifts::from_end(p);
        let ready = Readied {
            by: &shifts.by,
            whole: p.len() <= sure,
        };
        run_starts(&ready, p, t, list)
    }
}

impl Searches for Bm {
    fn searched(k: u32, p: &[u32], t: &[u32], list: &mut [u32]) -> Result<Work, Refusal> {
        search(k, p, t, list)
    }
}

// Every start at which the pattern meets the text, by BM.
pub fn search(k: u32, p: &[u32], t: &[u32], list: &mut [u32]) -> Result<Work, Refusal>
    ensures promise { Searched bm_run Letter.MAX_K Pattern.MAX_M Text.MAX_N k p.now t.now list.old result list.new }
    ensures scan { scan_of result ≤ length p.now * (length t.now + 1 - length p.now) }
    ensures shift { shift_of result ≤ (length t.now - length p.now) * (length p.now - 1) }
{
    inputs::rule::search::<Bm>(k, p, t, list)
}
