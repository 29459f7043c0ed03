// The engine Hybrid: a scan test of the last letter at each start. Where it fails the pattern shifts as Sunday's; where it holds the state is cleared and word steps are taken from the start on, until the state is 0 or the text ends. The next start is the position after the last step.
//
// Its source is 002, W. F. Smyth and Shu Wang, An Adaptive Hybrid Pattern-Matching Algorithm on Indeterminate Strings: figure 1, with figure 5 for the shift and figure 6 for the word steps.
// Departures from it:
// 1. Where the pattern's end is the text's end no letter stands behind it, so none is read and the run ends; figure 5 reads one.
// 2. There is a row for each base letter alone. That of a text letter is the union of its members', made when the letter is read; figure 4 holds one for every letter. There is no table of shifts, as figure 3 makes: the pattern is walked, as Sunday does.
// 3. What is listed is where a hit starts, and not where it ends.
#![tactic(auto)]

mod twice;

ghost use Rattle.std.specs.Prelude.{◌≡◌, ◌+◌, ◌-◌, ◌*◌, ◌^◌, ◌≤◌, ◌<◌, length};
ghost use Rattle.inputs.specs.Answers.{Searched, scan_of, steps_of};
ghost use Rattle.hybrid.specs.Stretches.{stretch};
ghost use Rattle.hybrid.specs.Hybrid.{stretched, hybrid_turn, hybrid_run, HybridTurns};

use hits::work::Work;
use inputs::refusal::Refusal;
use inputs::rule::{Rule, Searches};
use letters::letter::{Letter, common};
use letters::strings::{Pattern, Text};
use pattern::masks::Masks;
use sunday::next_start;
use word::masked::Masked;
use word::note_end;

#[derive(Clone, Copy)]
struct HybridTurned {
    next: usize,
    total: usize,
    scan: u64,
    steps: u64,
}

// Where the test at start a holds: word steps from a, with the state cleared, until the state is 0 or the text ends. Hits are noted after `total` others.
fn steps_from(
    pattern: &Masked<'_>,
    t: &[u32],
    a: usize,
    list: &mut [u32],
    total: usize,
) -> HybridTurned
    requires { (total + length t.now < 2 ^ 32) × (a ≤ length t.now) }
    ensures { HybridTurns (stretched (stretch pattern.now t.now (length t.now - a) a 0)) list.old total result list.new }
{
    let m = pattern.letters().len();
    let mut d: u64 = 0;
    let mut count = total;
    for e in a..t.len() {
        d = pattern.step(t[e], d);
        count = note_end(list, count, e + 1, m, pattern.ends(d));
        if d == 0 {
            return ran(a, e + 1, count);
        }
    }
    ran(a, t.len(), count)
}

// The turn whose word steps went from a to e.
fn ran(a: usize, e: usize, total: usize) -> HybridTurned
    requires { a ≤ e }
    ensures { result ≡ record { next = e; total = total; scan = 1; steps = e - a } }
{
    HybridTurned {
        next: e,
        total,
        scan: 1,
        steps: (e - a) as u64,
    }
}

// A turn at start a. Hits are noted after `total` others.
fn step(pattern: &Masked<'_>, t: &[u32], a: usize, list: &mut [u32], total: usize) -> HybridTurned
    requires { (total + length t.now < 2 ^ 32) × (a + length pattern.now ≤ length t.now) }
    ensures { HybridTurns (hybrid_turn pattern.now t.now a) list.old total result list.new }
{
    let p = pattern.letters();
    let m = p.len();
    if common(p[m - 1], t[a + m - 1]) != 0 {
        return steps_from(pattern, t, a, list, total);
    }
    HybridTurned {
        next: next_start(p, t, a),
        total,
        scan: 1,
        steps: 0,
    }
}

#[derive(Clone, Copy, Debug, PartialEq, Eq)]
pub struct Hybrid;

impl Rule for Hybrid {
    ghost turns = { hybrid_run };

    // The run over all starts.
    fn run(p: &[u32], t: &[u32], list: &mut [u32]) -> Work {
        let m = p.len();
        let n = t.len();
        let masks = Masks::of(p);
        let pattern = Masked::of(p, &masks);
        let mut a = 0;
        let mut total = 0;
        let mut scan: u64 = 0;
        let mut steps: u64 = 0;
        // A turn says where the next start is, so no range gives the starts.
        while a + m <= n {
            let s = step(&pattern, t, a, list, total);
            total = s.total;
            scan += s.scan;
            steps += s.steps;
            a = s.next;
        }
        Work {
            total,
            scan,
            shift: 0,
            steps,
        }
    }
}

impl Searches for Hybrid {
    fn searched(k: u32, p: &[u32], t: &[u32], list: &mut [u32]) -> Result<Work, Refusal> {
        search(k, p, t, list)
    }
}

// Every start at which the pattern meets the text, by Hybrid.
pub fn search(k: u32, p: &[u32], t: &[u32], list: &mut [u32]) -> Result<Work, Refusal>
    ensures promise { Searched hybrid_run Letter.MAX_K Pattern.MAX_M Text.MAX_N k p.now t.now list.old result list.new }
    ensures bound { (scan_of result ≤ length t.now + 1 - length p.now) × (steps_of result ≤ length t.now) × (scan_of result + steps_of result ≤ 2 * length t.now + 1 - length p.now) }
{
    inputs::rule::search::<Hybrid>(k, p, t, list)
}
