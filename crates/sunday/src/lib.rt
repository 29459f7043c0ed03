// The engine Sunday.
//
// Its rule: tests left to right, then shifts by m - R(T[i+m]), the letter after the window; if i + m = n it ends.
//
// Its source: W. F. Smyth and S. Wang, "An Adaptive Hybrid Pattern-Matching Algorithm on Indeterminate Strings" (002), the BMS algorithm there and figures 2, 3 and 5. Departures:
//
// 1. Figure 3 makes a table of shifts, filled under the pattern's letter with the position in place of the shift; here there is no table: the pattern is walked from its right end to the first letter that meets, and the shift is worked out from where it stands.
// 2. Figure 5 reads the letter after the window where there is none, at the text's end; here it is read only if there is one.
// 3. The letter after the window may be unsure: the walk asks for a letter that shares any of its members, so that the greatest R over them counts, which is the least of their shifts. An entry mark meets nothing, so that its R is none.
#![tactic(auto)]

mod twice;

ghost use Rattle.std.specs.Prelude.{◌≡◌, ◌+◌, ◌-◌, ◌*◌, ◌≤◌, length};
ghost use Rattle.inputs.specs.Answers.{Searched, scan_of};
ghost use Rattle.sunday.specs.Sunday.{next_start, sunday_turn, sunday_run};

use hits::scan::reach_to;
use hits::work::{Turned, Work};
use inputs::refusal::Refusal;
use inputs::rule::{Rule, Searches};
use inputs::starts::run_starts;
use inputs::steps::Steps;
use letters::letter::Letter;
use letters::strings::{Pattern, Text};
use pattern::after_r;

// The start after i. The letter after the window is read only if there is one.
pub fn next_start(p: &[u32], t: &[u32], i: usize) -> usize
    requires { i + length p.now ≤ length t.now }
    ensures { result ≡ next_start p.now t.now i }
{
    let e = i + p.len();
    if e == t.len() {
        return i + 1;
    }
    e + 1 - after_r(p, t[e])
}

// The engine as a type, for what serves any engine, as `inputs::rule::search::<Sunday>`.
#[derive(Clone, Copy, Debug, PartialEq, Eq)]
pub struct Sunday;

impl Steps for Sunday {
    ghost turn = { sunday_turn };

    ghost ready = { λ e P. Unit {0} };

    // A turn at start i.
    fn step(&self, p: &[u32], t: &[u32], i: usize) -> Turned {
        let m = p.len();
        let j = reach_to(p, t, i, 0, m);
        Turned {
            hit: j == m,
            next: next_start(p, t, i),
            scan: j as u64 + u64::from(j < m),
            shift: 0,
        }
    }
}

impl Rule for Sunday {
    ghost turns = { sunday_run };

    // The run over all starts.
    fn run(p: &[u32], t: &[u32], list: &mut [u32]) -> Work {
        run_starts(&Sunday, p, t, list)
    }
}

impl Searches for Sunday {
    fn searched(k: u32, p: &[u32], t: &[u32], list: &mut [u32]) -> Result<Work, Refusal> {
        search(k, p, t, list)
    }
}

// Every start at which the pattern meets the text, by Sunday.
pub fn search(k: u32, p: &[u32], t: &[u32], list: &mut [u32]) -> Result<Work, Refusal>
    ensures promise { Searched sunday_run Letter.MAX_K Pattern.MAX_M Text.MAX_N k p.now t.now list.old result list.new }
    ensures bound { scan_of result ≤ length p.now * (length t.now + 1 - length p.now) }
{
    inputs::rule::search::<Sunday>(k, p, t, list)
}
