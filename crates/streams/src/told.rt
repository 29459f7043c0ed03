// What failed and why, in one line.
ghost use Rattle.std.specs.Prelude.{◌≤◌, OnOk};
ghost use Rattle.streams.specs.Told.{TellsLine};

use std::io::{Error, Result, Write};
use std::str::from_utf8;

// Room for any error's text, and for the number that std puts behind it.
const ROOM: usize = 320;

// Writes a line: what failed, a colon and why.
pub fn tell<W: Write>(errors: &mut W, what: &str, error: &Error) -> Result<()>
    ensures { OnOk result (TellsLine (W.contents errors.old) (W.contents errors.new) what.now) }
{
    let mut room = [0u8; ROOM];
    let len = spelled(error, &mut room);
    let why = without_number(from_utf8(&room[..len]).unwrap_or(""));
    writeln!(errors, "{what}: {why}")
}

// Puts the error's text, as std has it, in front of the room; answers its length.
fn spelled(error: &Error, room: &mut [u8; ROOM]) -> usize
    ensures { result ≤ ROOM }
{
    let mut rest = &mut room[..];
    let _ = write!(rest, "{error}");
    ROOM.saturating_sub(rest.len())
}

// "Is a directory (os error 21)" is told as "Is a directory".
fn without_number(text: &str) -> &str {
    text.rsplit_once(" (os error ").map_or(text, |(why, _)| why)
}
