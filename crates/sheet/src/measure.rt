// What reading a sheet would answer, for a caller that must know before anything is written.
ghost use Rattle.sheet.specs.Answers.{Measured};

use crate::plan::{plan, sizes_of};
use crate::{Sheet, Sizes};
use inputs::refusal::Refusal;
use letters::letter::Letter;
use letters::strings::{Pattern, Text};

// The answer of reading a sheet into these lists, which keep what they hold.
pub fn measure(
    sheet: &[u8],
    alphabet: &[u8],
    pattern: &[u32],
    text: &[u32],
) -> Result<Sizes, Refusal>
    ensures promise { Measured Sheet.MAX_BYTES Letter.MAX_K Pattern.MAX_M Text.MAX_N sheet.now (record { alphabet = alphabet.now; pattern = pattern.now; text = text.now }) result }
{
    let plan = plan(sheet, alphabet.len(), pattern.len(), text.len())?;
    Ok(sizes_of(plan))
}
