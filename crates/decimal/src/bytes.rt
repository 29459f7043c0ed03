// A number put at a place of a lent list, and the byte after it.
ghost use Rattle.std.specs.Prelude.{◌≡◌, ◌+◌, ◌≤◌, length};
ghost use Rattle.std.proofs.lemmas.List.Edits.{sets};
ghost use Rattle.decimal.specs.Decimal.{ended};

use crate::put;

// A number, and the byte after it.
pub fn put_ended(out: &mut [u8], at: usize, n: u64, after: u8) -> usize
    requires { at + length (ended n after) ≤ length out.old }
    ensures { (result ≡ at + length (ended n after)) × (out.new ≡ sets out.old at (ended n after)) }
{
    let e = put(out, at, n);
    out[e] = after;
    e + 1
}
