// The reader called twice.
ghost use Rattle.std.specs.Prelude.{◌≡◌};
ghost use Rattle.sheet.specs.Answers.{Same};

use crate::measure::measure;
use crate::{Sizes, read};
use inputs::refusal::Refusal;
use inputs::twice::Twice;

// Into the lists a, p, t, and again into b, q, u.
fn read_twice(
    sheet: &[u8],
    a: &mut [u8],
    p: &mut [u32],
    t: &mut [u32],
    b: &mut [u8],
    q: &mut [u32],
    u: &mut [u32],
) -> Twice<Result<Sizes, Refusal>>
    requires { Same a.old p.old t.old b.old q.old u.old }
    ensures { (result.first ≡ result.second) × Same a.new p.new t.new b.new q.new u.new }
{
    let first = read(sheet, a, p, t);
    let second = read(sheet, b, q, u);
    Twice { first, second }
}

fn measure_twice(
    sheet: &[u8],
    alphabet: &[u8],
    pattern: &[u32],
    text: &[u32],
) -> Twice<Result<Sizes, Refusal>>
    ensures { result.first ≡ result.second }
{
    let first = measure(sheet, alphabet, pattern, text);
    let second = measure(sheet, alphabet, pattern, text);
    Twice { first, second }
}
