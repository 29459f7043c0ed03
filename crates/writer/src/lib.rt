// The writer of a search sheet: the checks, the length, then the bytes.
#![tactic(auto)]

mod bytes;
pub mod c;
mod twice;

ghost use Rattle.std.specs.Prelude.{◌≡◌};
ghost use Rattle.writer.specs.Writer.{checks, sizes, WriteInto};

use crate::bytes::{put_sheet, sheet_len};
use inputs::checks::checked;
use inputs::refusal::{Kind, Refusal};
use letters::letter::Letter;
use letters::limits::is_outside;
use letters::strings::{Pattern, Text};
use notation::alphabet::read_bytes;
use sheet::Sheet;

// Check 1, then 12, then those of a search.
#[tactic(auto, unfolding(crate::specs::Writer::checks, inputs::specs::Refusals::refuse))]
fn check(k: u32, alphabet: &[u8], pattern: &[u32], text: &[u32]) -> Result<(), Refusal>
    ensures { result ≡ checks Letter.MAX_K Pattern.MAX_M Text.MAX_N k alphabet.now pattern.now text.now }
{
    let size = k as usize;
    if is_outside(size, 1, Letter::MAX_K as usize) {
        return Err(Kind::AlphabetSize.at(0));
    }
    match read_bytes(alphabet, 0, size) {
        Err(wrong) => Err(Kind::AlphabetLine.at(wrong.place)),
        Ok(_) if size < alphabet.len() => Err(Kind::AlphabetLine.at(size)),
        Ok(_) => checked(k, pattern, text),
    }
}

// Check 10, then 8.
#[tactic(auto, unfolding(crate::specs::Writer::sizes, inputs::specs::Refusals::refuse))]
fn fits(len: usize, room: usize) -> Result<(), Refusal>
    ensures { result ≡ sizes Sheet.MAX_BYTES room len }
{
    if Sheet::MAX_BYTES < len {
        return Err(Kind::SheetLength.at(0));
    }
    if room < len {
        return Err(Kind::Room.at(0));
    }
    Ok(())
}

// Writes a sheet into the lent slice, or refuses and writes nothing: how many bytes it has.
pub fn write(
    k: u32,
    alphabet: &[u8],
    pattern: &[u32],
    text: &[u32],
    sheet: &mut [u8],
) -> Result<usize, Refusal>
    ensures promise { WriteInto Sheet.MAX_BYTES Letter.MAX_K Pattern.MAX_M Text.MAX_N k alphabet.now pattern.now text.now sheet.old result sheet.new }
{
    check(k, alphabet, pattern, text)?;
    let len = sheet_len(alphabet, pattern, text);
    fits(len, sheet.len())?;
    put_sheet(alphabet, pattern, text, sheet);
    Ok(len)
}
