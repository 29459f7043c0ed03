// The bytes of a report, line by line, each put at a place and answering the place after it. List and place stay two parameters, as in every crate that
// puts bytes (`lent`, `decimal`, `engines`, `spelling`): a struct with the lent list in it would be taken apart at each of those calls.
ghost use Rattle.std.specs.Prelude.{◌≡◌, map, ◌+◌, ◌≤◌, length};
ghost use Rattle.std.proofs.lemmas.List.Edits.{sets};
ghost use Rattle.engines.specs.Engines.{the_six};
ghost use Rattle.reportbytes.specs.Bytes.{start_lines, counts, engine_line, engine_lines, bytes_of};
ghost use Rattle.reportbytes.specs.Values.{run_in, values_in};

use decimal::bytes::put_ended;
use engines::engine::{Engine, put_name};
use hits::work::Work;
use lent::put_bytes;

// An engine's three counts, to the end of its line.
fn put_counts(out: &mut [u8], at: usize, w: Work) -> usize
    requires { at + length (counts (run_in w)) ≤ length out.old }
    ensures { (result ≡ at + length (counts (run_in w))) × (out.new ≡ sets out.old at (counts (run_in w))) }
{
    let a = put_ended(out, at, w.scan, b' ');
    let b = put_ended(out, a, w.shift, b' ');
    put_ended(out, b, w.steps, b'\n')
}

// An engine's line.
fn put_engine(out: &mut [u8], at: usize, e: Engine, w: Work) -> usize
    requires { at + length (engine_line e (run_in w)) ≤ length out.old }
    ensures { (result ≡ at + length (engine_line e (run_in w))) × (out.new ≡ sets out.old at (engine_line e (run_in w))) }
{
    let a = put_name(out, at, e);
    put_counts(out, a, w)
}

// Each start on a line.
fn put_starts(out: &mut [u8], at: usize, starts: &[u32]) -> usize
    requires { at + length (start_lines starts.now) ≤ length out.old }
    ensures { (result ≡ at + length (start_lines starts.now)) × (out.new ≡ sets out.old at (start_lines starts.now)) }
{
    let mut end = at;
    for &start in starts {
        end = put_ended(out, end, u64::from(start), b'\n');
    }
    end
}

// The lines of the six engines.
fn put_engines(out: &mut [u8], at: usize, works: &[Work; Engine::COUNT]) -> usize
    requires { at + length (engine_lines the_six (map run_in works.now)) ≤ length out.old }
    ensures { (result ≡ at + length (engine_lines the_six (map run_in works.now))) × (out.new ≡ sets out.old at (engine_lines the_six (map run_in works.now))) }
{
    let mut end = at;
    // By an index, as `lengths::engines_len`.
    for (i, &e) in Engine::ALL.iter().enumerate() {
        end = put_engine(out, end, e, works[i]);
    }
    end
}

// The whole report, from the start of the list.
pub fn put_report(out: &mut [u8], works: &[Work; Engine::COUNT], starts: &[u32]) -> usize
    requires { length (bytes_of (values_in works.now starts.now)) ≤ length out.old }
    ensures { (result ≡ length (bytes_of (values_in works.now starts.now))) × (out.new ≡ sets out.old 0 (bytes_of (values_in works.now starts.now))) }
{
    let a = put_bytes(out, 0, b"hits ");
    let b = put_ended(out, a, starts.len() as u64, b'\n');
    let c = put_starts(out, b, starts);
    put_engines(out, c, works)
}
