// Input read to its end, and output written whole, over a reader's `read` and a writer's `write`. A call that a signal interrupts is made again, and
// one that fails is told apart from an input that ends.
#![tactic(auto)]

mod told;

ghost use Rattle.std.specs.Prelude.{◌≡◌, true, ◌≤◌, ◌<◌, length, OnErr, OnOk};
ghost use Rattle.std.specs.Io.KnownBytes.{Appends};
ghost use Rattle.streams.specs.Front.{PutFront};
ghost use Rattle.streams.specs.Got.{got_of, Took};

use std::io::{Error, ErrorKind, Read, Result, Write};
pub use told::tell;

// So many interruptions are borne, so that every function ends.
const PATIENCE: usize = 1000000;

// Whether a call that failed is to be made again: it was interrupted, and there is patience left.
fn try_again(patience: usize, error: &Error) -> bool
    ensures { result ≡ true → 0 < patience }
{
    0 < patience && error.kind() == ErrorKind::Interrupted
}

// Reads until the list is full or the input ends; answers how many bytes stand in front of it.
pub fn read_whole<R: Read>(input: &mut R, list: &mut [u8]) -> Result<usize>
    ensures fits { got_of result ≤ length list.new }
    ensures took { Took (R.remaining input.old) (R.remaining input.new) result list.new }
{
    let mut done: usize = 0;
    let mut patience = PATIENCE;
    // A read says how far it came, so no range gives the places.
    while done < list.len() {
        match input.read(&mut list[done..]) {
            Ok(0) => return Ok(done),
            Ok(n) => done += n,
            Err(error) if try_again(patience, &error) => patience -= 1,
            Err(error) => return Err(error),
        }
    }
    Ok(done)
}

// Writes all of the list, or answers why that was not done.
pub fn write_whole<W: Write>(output: &mut W, list: &[u8]) -> Result<()>
    ensures all { OnOk result (Appends (W.contents output.old) (W.contents output.new) list.now) }
    ensures front { OnErr result (PutFront (W.contents output.old) (W.contents output.new) list.now) }
{
    let mut rest = list;
    let mut patience = PATIENCE;
    while !rest.is_empty() {
        match output.write(rest) {
            Ok(0) => return Err(Error::from(ErrorKind::WriteZero)),
            Ok(n) => rest = &rest[n..],
            Err(error) if try_again(patience, &error) => patience -= 1,
            Err(error) => return Err(error),
        }
    }
    Ok(())
}
