// The first hit alone, by brute's rule: each start is tested left to right, and none after the first that is a hit.
#![tactic(auto)]

pub mod c;
mod twice;

ghost use Rattle.std.specs.Prelude.{◌≡◌, ◌^◌, ◌<◌, length};
ghost use Rattle.letters.specs.Sizes.{Sized};
ghost use Rattle.first.specs.First.{first_run, found_of, Sought, FirstBound};

use brute::step;
use inputs::checks::checked;
use inputs::refusal::Refusal;
use letters::letter::Letter;
use letters::strings::{Pattern, Text};

// The first start that is a hit, if any is; and the scan tests.
#[derive(Clone, Copy, Debug, PartialEq, Eq)]
pub struct First {
    pub start: Option<usize>,
    pub scan: u64,
}

// The same number, through a narrower type. A sum that is carried on as it stands is taken by the compiler into the scan of each start, one more instruction a
// test (docs/SPEED.md).
fn narrowed(tests: u64) -> u64
    requires { tests < 2 ^ 32 }
    ensures { result ≡ tests }
{
    u64::from(tests as u32)
}

// The run over the starts, up to the first hit.
fn run(p: &[u32], t: &[u32]) -> First
    requires { Sized Pattern.MAX_M Text.MAX_N p.now t.now }
    ensures { result ≡ found_of (first_run p.now t.now) }
{
    let starts = (t.len() + 1).saturating_sub(p.len());
    let mut scan: u64 = 0;
    for i in 0..starts {
        let s = step(p, t, i);
        let tests = scan + s.scan;
        if s.hit {
            return First {
                start: Some(i),
                scan: tests,
            };
        }
        scan += narrowed(s.scan);
    }
    First { start: None, scan }
}

// The first start at which the pattern meets the text, by brute.
pub fn search(k: u32, p: &[u32], t: &[u32]) -> Result<First, Refusal>
    ensures promise { Sought Letter.MAX_K Pattern.MAX_M Text.MAX_N k p.now t.now result }
    ensures bound { FirstBound (length p.now) (length t.now) result }
{
    checked(k, p, t)?;
    Ok(run(p, t))
}
