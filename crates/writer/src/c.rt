// The writer's call for C.
ghost use Rattle.writer.specs.Writer.{WriteCalled};

use crate::write;
use codes::written_code;
use letters::letter::Letter;
use letters::strings::{Pattern, Text};
use sheet::Sheet;

// Writes a sheet into the lent slice, or refuses and writes nothing.
pub fn write_called(k: u32, alphabet: &[u8], pattern: &[u32], text: &[u32], sheet: &mut [u8]) -> i64
    ensures { WriteCalled Sheet.MAX_BYTES Letter.MAX_K Pattern.MAX_M Text.MAX_N k alphabet.now pattern.now text.now sheet.old result sheet.new }
{
    written_code(write(k, alphabet, pattern, text, sheet))
}
