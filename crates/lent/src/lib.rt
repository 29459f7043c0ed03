// Lent memory: what a call writes into it, and what it leaves as it was.
#![tactic(auto)]

ghost use Rattle.std.specs.Prelude.{◌+◌, ◌≤◌, ◌<◌, [], ◌∷◌, length};
ghost use Rattle.lent.specs.Over.{Stored};

// A byte at a place; answers the place after it.
pub fn put_byte(out: &mut [u8], at: usize, byte: u8) -> usize
    requires { at < length out.old }
    ensures { Stored out.old at (byte ∷ []) result out.new }
{
    out[at] = byte;
    at + 1
}

// Some bytes at a place; answers the place after them.
pub fn put_bytes(out: &mut [u8], at: usize, bytes: &[u8]) -> usize
    requires { at + length bytes.now ≤ length out.old }
    ensures { Stored out.old at bytes.now result out.new }
{
    // Byte by byte: a copy of a part would have an archive for C ask for memmove, which a caller without a C library need not have.
    for i in 0..bytes.len() {
        out[at + i] = bytes[i];
    }
    at + bytes.len()
}
