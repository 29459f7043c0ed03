// The search sheet: its reader. All is checked before anything is written.
#![tactic(auto)]

pub mod c;
pub mod measure;
pub mod plan;
pub mod sections;
mod twice;

ghost use Rattle.std.specs.Prelude.{◌≡◌};
ghost use Rattle.sheet.specs.Answers.{ReadInto};

use crate::plan::{plan, sizes_of};
use inputs::refusal::Refusal;
use lent::put_bytes;
use letters::letter::Letter;
use letters::strings::{Pattern, Text};
use notation::alphabet::Notation;

#[derive(Clone, Copy)]
pub struct Sheet {
    pub len: usize,
}

impl Sheet {
    // The longest sheet.
    pub const MAX_BYTES: usize = 8192;

    // It as a number: a contract that hands over the constant follows it wherever it goes, and this one does not.
    pub fn pinned() -> usize
        ensures { result ≡ 8192 }
    {
        Sheet::MAX_BYTES
    }
}

// How many letters the alphabet, the pattern and the text have.
#[derive(Clone, Copy, Debug, PartialEq, Eq)]
pub struct Sizes {
    pub k: u32,
    pub m: usize,
    pub n: usize,
}

// Reads a sheet into the lent lists, or refuses it and writes nothing.
pub fn read(
    sheet: &[u8],
    alphabet: &mut [u8],
    pattern: &mut [u32],
    text: &mut [u32],
) -> Result<Sizes, Refusal>
    ensures promise { ReadInto Sheet.MAX_BYTES Letter.MAX_K Pattern.MAX_M Text.MAX_N sheet.now (record { alphabet = alphabet.old; pattern = pattern.old; text = text.old }) result (record { alphabet = alphabet.new; pattern = pattern.new; text = text.new }) }
{
    let plan = plan(sheet, alphabet.len(), pattern.len(), text.len())?;
    let from = plan.alphabet.from;
    let end = from + plan.alphabet.size;
    let letters = &sheet[from..end];
    // Before the table is made: with this loop behind it the compiler keeps two more copies of the table.
    put_bytes(alphabet, 0, letters);
    let notation = Notation::of(letters);
    notation.put_letters(Pattern::MARKS, sheet, plan.pattern.from, pattern);
    notation.put_letters(Text::MARKS, sheet, plan.text.from, text);
    Ok(sizes_of(plan))
}
