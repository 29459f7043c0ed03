// How long a report is, before any of it is written: one that does not fit is refused, and the lent list is left as it was. So each line has its length
// here and its bytes in `lines`: one function for both would put every byte through a trait, down to the digits, and be no plainer.
ghost use Rattle.std.specs.Prelude.{◌≡◌, map, ◌*◌, ◌^◌, ◌≤◌, ◌<◌, length};
ghost use Rattle.decimal.specs.Decimal.{ended};
ghost use Rattle.engines.specs.Engines.{the_six};
ghost use Rattle.reportbytes.specs.Bytes.{start_lines, counts, engine_lines, bytes_of};
ghost use Rattle.reportbytes.specs.Values.{run_in, values_in};

use decimal::len;
use engines::engine::{Engine, name_len};
use hits::work::Work;

// A number, and the byte after it, whichever it is.
fn ended_len(n: u64) -> usize
    ensures { (result ≡ length (ended n 10)) × (result ≡ length (ended n 32)) × (result ≤ 21) }
{
    len(n) + 1
}

// An engine's three counts, to the end of its line.
#[tactic(auto, using(crate::proofs::LineLaws::counts_length))]
fn counts_len(w: Work) -> usize
    ensures { (result ≡ length (counts (run_in w))) × (result ≤ 63) }
{
    ended_len(w.scan) + ended_len(w.shift) + ended_len(w.steps)
}

// Each start on a line.
fn starts_len(starts: &[u32]) -> usize
    requires { length starts.now < 2 ^ 32 }
    ensures { (result ≡ length (start_lines starts.now)) × (result ≤ 21 * length starts.now) }
{
    let mut sum: usize = 0;
    for &start in starts {
        sum += ended_len(u64::from(start));
    }
    sum
}

// The lines of the six engines.
fn engines_len(works: &[Work; Engine::COUNT]) -> usize
    ensures { (result ≡ length (engine_lines the_six (map run_in works.now))) × (result < 2 ^ 32) }
{
    let mut sum: usize = 0;
    // By an index: of a zip with the counts the proof is not told which elements it yields.
    for (i, &e) in Engine::ALL.iter().enumerate() {
        sum += name_len(e) + counts_len(works[i]);
    }
    sum
}

// The whole report: the first line has its name and the total.
#[tactic(auto, using(crate::proofs::LineLaws::bytes_length))]
pub fn report_len(works: &[Work; Engine::COUNT], starts: &[u32]) -> usize
    requires { length starts.now < 2 ^ 32 }
    ensures { result ≡ length (bytes_of (values_in works.now starts.now)) }
{
    5 + ended_len(starts.len() as u64) + starts_len(starts) + engines_len(works)
}
