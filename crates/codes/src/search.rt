// A search called from C, by any engine.
ghost use Rattle.std.specs.Prelude.{◌≡◌, ◌^◌, ◌<◌, length};
ghost use Rattle.inputs.specs.Refusals.{verdict};
ghost use Rattle.codes.specs.Called.{short_of, total_of, answered_code, answered_counts, Called};

use crate::{length_code, refusal_code};
use hits::work::Work;
use inputs::checks::checked;
use inputs::refusal::{Kind, Refusal};
use inputs::rule::{Rule, Searches, search};
use letters::letter::Letter;
use letters::strings::{Pattern, Text};
use std::marker::PhantomData;

// A rule as an engine whose public search is the one that serves any rule.
pub(crate) struct ByRule<R: Rule>(PhantomData<R>);

impl<R: Rule> Rule for ByRule<R> {
    ghost turns = { R.turns };

    fn run(p: &[u32], t: &[u32], list: &mut [u32]) -> Work {
        R::run(p, t, list)
    }
}

impl<R: Rule> Searches for ByRule<R> {
    fn searched(k: u32, p: &[u32], t: &[u32], list: &mut [u32]) -> Result<Work, Refusal> {
        search::<R>(k, p, t, list)
    }
}

// What is refused where too few counts are lent: 8, after all other checks.
pub fn too_few(k: u32, p: &[u32], t: &[u32]) -> i64
    ensures { result ≡ short_of (verdict Letter.MAX_K Pattern.MAX_M Text.MAX_N k p.now t.now) }
{
    match checked(k, p, t) {
        Err(r) => refusal_code(r),
        Ok(()) => refusal_code(Kind::Room.at(0)),
    }
}

// The answer's number; its counts go into lent memory.
pub fn told(answer: Result<Work, Refusal>, work: &mut [u64]) -> i64
    requires { (total_of answer < 2 ^ 63) × (2 < length work.old) }
    ensures { (result ≡ answered_code answer) × (work.new ≡ answered_counts answer work.old) }
{
    match answer {
        Err(r) => refusal_code(r),
        Ok(w) => {
            work[0] = w.scan;
            work[1] = w.shift;
            work[2] = w.steps;
            length_code(w.total)
        }
    }
}

// The total or minus the refusal, with the starts and the three counts in lent memory, through the engine's public search. Where fewer than three counts are
// lent nothing is searched: the checks alone say what is refused.
pub fn called_through<R: Searches>(
    k: u32,
    p: &[u32],
    t: &[u32],
    hits: &mut [u32],
    work: &mut [u64],
) -> i64
    ensures { Called R.turns Letter.MAX_K Pattern.MAX_M Text.MAX_N k p.now t.now hits.old work.old result hits.new work.new }
{
    if work.len() < 3 {
        return too_few(k, p, t);
    }
    told(R::searched(k, p, t, hits), work)
}

// The same of an engine that has its rule alone, by the search that serves any rule.
pub fn called<R: Rule>(k: u32, p: &[u32], t: &[u32], hits: &mut [u32], work: &mut [u64]) -> i64
    ensures { Called R.turns Letter.MAX_K Pattern.MAX_M Text.MAX_N k p.now t.now hits.old work.old result hits.new work.new }
{
    called_through::<ByRule<R>>(k, p, t, hits, work)
}
