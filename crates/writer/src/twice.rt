// The writer called twice.
ghost use Rattle.std.specs.Prelude.{◌≡◌};

use crate::write;
use inputs::refusal::Refusal;
use inputs::twice::Twice;

fn write_twice(
    k: u32,
    alphabet: &[u8],
    pattern: &[u32],
    text: &[u32],
    a: &mut [u8],
    b: &mut [u8],
) -> Twice<Result<usize, Refusal>>
    requires { a.old ≡ b.old }
    ensures { (result.first ≡ result.second) × (a.new ≡ b.new) }
{
    let first = write(k, alphabet, pattern, text, a);
    let second = write(k, alphabet, pattern, text, b);
    Twice { first, second }
}
