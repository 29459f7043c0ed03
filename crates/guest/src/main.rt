// An engine that another crate brings: a turn, for strings within their limits, and a rule, with no search of its own. What serves any engine serves it.
// Its rule is brute's, so that what it has to answer is known. It is run on README's sheet, and what is printed is held to the file stdout.
#![tactic(auto)]

ghost use Rattle.std.specs.Prelude.{◌≡◌, ◌+◌, ◌≤◌, length};
ghost use Rattle.hits.specs.Counts.{turn_of};
ghost use Rattle.brute.specs.Brute.{brute_turn, brute_run};

use brute::Brute;
use codes::search::called;
use codes::twice::called_twice;
use hits::work::{Turned, Work};
use inputs::rule::Rule;
use inputs::starts::{Starts, run_starts};
use std::fmt;
use std::io::{self, Print, Stdout};

// A turn at a start as a list holds it, a number of 32 bits.
fn turn_at(p: &[u32], t: &[u32], start: u32) -> Turned
    requires { start + length p.now ≤ length t.now }
    ensures { turn_of start result ≡ brute_turn p.now t.now start }
{
    brute::step(p, t, start as usize)
}

struct Guest;

impl Starts for Guest {
    ghost turn = { brute_turn };

    ghost ready = { λ e P. Unit {0} };

    // A turn at start i, which fits 32 bits since the text is within its limit.
    fn step(&self, p: &[u32], t: &[u32], i: usize) -> Turned {
        turn_at(p, t, i as u32)
    }
}

impl Rule for Guest {
    ghost turns = { brute_run };

    // The run over all starts.
    #[tactic(auto, using(brute::proofs::BruteLaws::settles, brute::proofs::BruteLaws::brute_shift), unfolding(brute::specs::Brute::brute_run))]
    fn run(p: &[u32], t: &[u32], list: &mut [u32]) -> Work {
        run_starts(&Guest, p, t, list)
    }
}

// anna in annann[ae]nann[an], over aen.
const ANNA: [u32; 4] = [1, 4, 4, 1];

const TEXT: [u32; 12] = [1, 4, 4, 1, 4, 4, 3, 4, 1, 4, 4, 5];

// A turn: whether the start is a hit, the next start, the scan and shift tests.
fn say_turn(to: Stdout, turned: Turned) -> io::Result<()> {
    println!(to;
        "{} {} {} {}",
        turned.hit, turned.next, turned.scan, turned.shift
    )
}

// A turn of its own, and one of an engine whose turn holds for strings of any lengths.
fn turns(to: Stdout) -> io::Result<()> {
    println!(to; "turns at 3")?;
    say_turn(to, Starts::step(&Guest, &ANNA, &TEXT, 3))?;
    say_turn(to, Starts::step(&Brute, &ANNA, &TEXT, 3))
}

// The elements of a list.
fn say_list<T: fmt::Display>(to: Stdout, list: &[T]) -> io::Result<()> {
    print!(to; ";")?;
    for element in list {
        print!(to; " {element}")?;
    }
    Ok(())
}

// What C would be told, the list and the counts.
fn say_told(to: Stdout, told: i64, hits: &[u32], work: &[u64]) -> io::Result<()> {
    print!(to; "{told}")?;
    say_list(to, hits)?;
    say_list(to, work)?;
    println!(to; "")
}

// With room for so many counts. A refusal leaves list and counts as they were.
fn say_called(to: Stdout, k: u32, counts: usize) -> io::Result<()> {
    let mut hits = [9; 4];
    let mut work = [9; 3];
    let told = called::<Guest>(k, &ANNA, &TEXT, &mut hits, &mut work[..counts.min(3)]);
    say_told(to, told, &hits, &work)
}

// The same call twice.
fn say_twice(to: Stdout) -> io::Result<()> {
    let mut hits = [9; 4];
    let mut work = [9; 3];
    let mut again = hits;
    let mut counts = work;
    let told = called_twice::<Guest>(
        3,
        &ANNA,
        &TEXT,
        &mut hits,
        &mut work,
        &mut again,
        &mut counts,
    );
    say_told(to, told.first, &hits, &work)?;
    say_told(to, told.second, &again, &counts)
}

// Every row, in order.
fn rows(to: Stdout) -> io::Result<()> {
    turns(to)?;
    println!(to; "called; with room for two counts; with k 33 too; with k 2")?;
    say_called(to, 3, 3)?;
    say_called(to, 3, 2)?;
    say_called(to, 33, 2)?;
    say_called(to, 2, 3)?;
    println!(to; "called twice")?;
    say_twice(to)
}

// What cannot be written is missing from what is compared.
fn main(rt: HostRuntime) {
    let _ = rows(rt.stdout());
}
