// An engine whose state is the start alone, as what differs from one to the next: its turn at a start. The run over all starts, which is the same for each, is here.
ghost use Rattle.std.specs.Prelude.{◌≡◌, ◌+◌, ◌^◌, ◌≤◌, ◌<◌, ℕ, List, length};
ghost use Rattle.letters.specs.Sizes.{Sized};
ghost use Rattle.hits.specs.Hits.{hits};
ghost use Rattle.hits.specs.Turns.{Turn};
ghost use Rattle.hits.specs.Counts.{turn_of, work_of};
ghost use Rattle.lent.specs.Over.{over};
ghost use Rattle.inputs.specs.Starts.{Settling, starts_run};

use crate::steps::Steps;
use hits::work::{Turned, Work, note};
use letters::strings::{Pattern, Text};

// A turn for strings within their limits, which is what the run over all starts asks for.
pub trait Starts {
    // What the rule does at a start.
    ghost turn: { List ℕ → List ℕ → ℕ → Turn ℕ };

    // That this is what the engine makes ready for the pattern.
    ghost ready: { Self → List ℕ → Type 0 };

    // A turn at start i.
    fn step(&self, p: &[u32], t: &[u32], i: usize) -> Turned
        requires { Sized Pattern.MAX_M Text.MAX_N p.now t.now × ready self.now p.now × (i + length p.now ≤ length t.now) }
        ensures { turn_of i result ≡ turn p.now t.now i };
}

// What holds for strings of any lengths holds within the limits.
impl<S: Steps> Starts for S {
    ghost turn = { S.turn };

    ghost ready = { S.ready };

    fn step(&self, p: &[u32], t: &[u32], i: usize) -> Turned {
        Steps::step(self, p, t, i)
    }
}

// The run over all starts, for turns that settle the starts that they pass, and counts that fit a word.
pub fn run_starts<S: Starts>(engine: &S, p: &[u32], t: &[u32], list: &mut [u32]) -> Work
    requires sized { Sized Pattern.MAX_M Text.MAX_N p.now t.now }
    requires ready { S.ready engine.now p.now }
    requires settles { Settling p.now t.now (S.turn p.now t.now) }
    requires scan { (starts_run S.turn p.now t.now).scan < 2 ^ 64 }
    requires shift { (starts_run S.turn p.now t.now).shift < 2 ^ 64 }
    ensures { (result ≡ work_of (hits p.now t.now) (starts_run S.turn p.now t.now)) × (list.new ≡ over (hits p.now t.now) list.old) }
{
    let m = p.len();
    let n = t.len();
    let mut i = 0;
    let mut total = 0;
    let mut scan: u64 = 0;
    let mut shift: u64 = 0;
    // A turn says where the next start is, so no range gives the starts.
    while i + m <= n {
        let s = engine.step(p, t, i);
        total = note(list, total, i, s.hit);
        scan += s.scan;
        shift += s.shift;
        i = s.next;
    }
    Work {
        total,
        scan,
        shift,
        steps: 0,
    }
}
