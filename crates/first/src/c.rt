// The first hit for C. Where fewer than two numbers are lent nothing is searched: the checks alone say what is refused.
ghost use Rattle.std.specs.Prelude.{◌≡◌, ◌<◌, length};
ghost use Rattle.first.specs.Called.{first_code, found_left, FirstCalled};

use crate::First;
use codes::refusal_code;
use codes::search::too_few;
use inputs::refusal::Refusal;
use letters::letter::Letter;
use letters::strings::{Pattern, Text};

// 1 or 0 for the answer, or the refusal; the scan tests, and the start if there is one, go into lent memory.
fn told(answer: Result<First, Refusal>, found: &mut [u64]) -> i64
    requires { 1 < length found.old }
    ensures { (result ≡ first_code answer) × (found.new ≡ found_left answer found.old) }
{
    match answer {
        Err(r) => refusal_code(r),
        Ok(first) => {
            found[0] = first.scan;
            match first.start {
                None => 0,
                Some(start) => {
                    found[1] = start as u64;
                    1
                }
            }
        }
    }
}

// Whether there is a hit, as a number, or minus the refusal; the scan tests and the start in lent memory.
pub fn called(k: u32, p: &[u32], t: &[u32], found: &mut [u64]) -> i64
    ensures { FirstCalled Letter.MAX_K Pattern.MAX_M Text.MAX_N k p.now t.now found.old result found.new }
{
    if found.len() < 2 {
        return too_few(k, p, t);
    }
    told(crate::search(k, p, t), found)
}
