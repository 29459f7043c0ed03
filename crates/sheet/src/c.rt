// The reader for C. Where fewer than three sizes are lent, the sheet is measured and nothing is written.
ghost use Rattle.std.specs.Prelude.{◌≡◌, ◌<◌, length};
ghost use Rattle.inputs.specs.Refusals.{with_room};
ghost use Rattle.codes.specs.Codes.{code_of};
ghost use Rattle.sheet.specs.Called.{taken_check, sizes_over, ReadCalled};

use crate::measure::measure;
use crate::{Sheet, Sizes, read};
use codes::refusal_code;
use inputs::refusal::{Kind, Refusal};
use letters::letter::Letter;
use letters::strings::{Pattern, Text};

// What is told where too few sizes are lent: 8, after all other checks.
fn short(answer: Result<Sizes, Refusal>) -> i64
    ensures { result ≡ code_of (with_room 1 0 (taken_check answer)) 0 }
{
    match answer {
        Err(r) => refusal_code(r),
        Ok(_) => refusal_code(Kind::Room.at(0)),
    }
}

// What is told of the answer; the sizes go into lent memory.
fn sized(answer: Result<Sizes, Refusal>, sizes: &mut [u64]) -> i64
    requires { 2 < length sizes.old }
    ensures { (result ≡ code_of (taken_check answer) 0) × (sizes.new ≡ sizes_over answer sizes.old) }
{
    match answer {
        Err(r) => refusal_code(r),
        Ok(z) => {
            sizes[0] = u64::from(z.k);
            sizes[1] = z.m as u64;
            sizes[2] = z.n as u64;
            0
        }
    }
}

// Reads a sheet into the lent lists, and its sizes k, m and n into the fourth; or refuses it and writes nothing.
pub fn read_called(
    s: &[u8],
    alphabet: &mut [u8],
    p: &mut [u32],
    t: &mut [u32],
    sizes: &mut [u64],
) -> i64
    ensures { ReadCalled Sheet.MAX_BYTES Letter.MAX_K Pattern.MAX_M Text.MAX_N s.now (record { alphabet = alphabet.old; pattern = p.old; text = t.old }) sizes.old result (record { alphabet = alphabet.new; pattern = p.new; text = t.new }) sizes.new }
{
    if sizes.len() < 3 {
        return short(measure(s, alphabet, p, t));
    }
    sized(read(s, alphabet, p, t), sizes)
}
