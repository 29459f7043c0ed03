// The engine brute: tests each start left to right; the next start is one on.
#![tactic(auto)]

mod twice;

ghost use Rattle.std.specs.Prelude.{◌≡◌, ◌+◌, ◌-◌, ◌*◌, ◌≤◌, length};
ghost use Rattle.hits.specs.Counts.{turn_of};
ghost use Rattle.inputs.specs.Answers.{Searched, scan_of};
ghost use Rattle.brute.specs.Brute.{brute_turn, brute_run};

use hits::scan::reach_to;
use hits::work::{Turned, Work};
use inputs::refusal::Refusal;
use inputs::rule::{Rule, Searches};
use inputs::starts::run_starts;
use inputs::steps::Steps;
use letters::letter::Letter;
use letters::strings::{Pattern, Text};

// A turn at start i.
pub fn step(p: &[u32], t: &[u32], i: usize) -> Turned
    requires { i + length p.now ≤ length t.now }
    ensures { turn_of i result ≡ brute_turn p.now t.now i }
{
    let m = p.len();
    let j = reach_to(p, t, i, 0, m);
    Turned {
        hit: j == m,
        next: i + 1,
        scan: j as u64 + u64::from(j < m),
        shift: 0,
    }
}

// The engine as a type, for what serves any engine, as `inputs::rule::search::<Brute>`.
#[derive(Clone, Copy, Debug, PartialEq, Eq)]
pub struct Brute;

impl Steps for Brute {
    ghost turn = { brute_turn };

    ghost ready = { λ e P. Unit {0} };

    fn step(&self, p: &[u32], t: &[u32], i: usize) -> Turned {
        step(p, t, i)
    }
}

impl Rule for Brute {
    ghost turns = { brute_run };

    // The run over all starts.
    fn run(p: &[u32], t: &[u32], list: &mut [u32]) -> Work {
        run_starts(&Brute, p, t, list)
    }
}

impl Searches for Brute {
    fn searched(k: u32, p: &[u32], t: &[u32], list: &mut [u32]) -> Result<Work, Refusal> {
        search(k, p, t, list)
    }
}

// Every start at which the pattern meets the text, by brute.
pub fn search(k: u32, p: &[u32], t: &[u32], list: &mut [u32]) -> Result<Work, Refusal>
    ensures promise { Searched brute_run Letter.MAX_K Pattern.MAX_M Text.MAX_N k p.now t.now list.old result list.new }
    ensures bound { scan_of result ≤ length p.now * (length t.now + 1 - length p.now) }
{
    inputs::rule::search::<Brute>(k, p, t, list)
}
