// A sheet walked whole and checked, before anything is written. Reading and measuring it both begin so.
ghost use Rattle.std.specs.Prelude.{◌≡◌, ◌+◌, ◌-◌, ◌≤◌, length, take, drop};
ghost use Rattle.sheet.specs.Reader.{planning, string_sections};
ghost use Rattle.sheet.specs.Answers.{both_of, planned_of};

use crate::sections::{Both, Section, alphabet_section, string_sections};
use crate::{Sheet, Sizes};
use inputs::refusal::{Kind, Refusal};
use letters::letter::Letter;
use letters::strings::{Pattern, Text};
use notation::alphabet::Notation;

// The three sections.
#[derive(Clone, Copy, Debug, PartialEq, Eq)]
pub struct Planned {
    pub alphabet: Section,
    pub pattern: Section,
    pub text: Section,
}

// The sections of the two strings, behind that of the alphabet. A function of its own, so that a sheet that is refused before has no table made.
fn strings_after(sheet: &[u8], first: Section, pattern: usize, text: usize) -> Result<Both, Refusal>
    requires { (first.from + first.size ≤ length sheet.now) × (length (take (first.from + first.size - first.from) (drop first.from sheet.now)) ≤ Letter.MAX_K) × (first.next ≤ length sheet.now) }
    ensures { result ≡ both_of (string_sections Pattern.MAX_M Text.MAX_N (take (first.from + first.size - first.from) (drop first.from sheet.now)) pattern text sheet.now first.next) }
{
    let end = first.from + first.size;
    let letters = &sheet[first.from..end];
    let notation = Notation::of(letters);
    string_sections(&notation, sheet, first.next, pattern, text)
}

// The plan of a sheet, for lists of these lengths.
pub(crate) fn plan(
    sheet: &[u8],
    alphabet: usize,
    pattern: usize,
    text: usize,
) -> Result<Planned, Refusal>
    ensures { result ≡ planned_of (planning Sheet.MAX_BYTES Letter.MAX_K Pattern.MAX_M Text.MAX_N alphabet pattern text sheet.now) }
{
    if Sheet::MAX_BYTES < sheet.len() {
        return Err(Kind::SheetLength.at(0));
    }
    let first = alphabet_section(sheet, alphabet)?;
    let both = strings_after(sheet, first, pattern, text)?;
    Ok(Planned {
        alphabet: first,
        pattern: both.pattern,
        text: both.text,
    })
}

// How many letters the three strings of a plan have. Its alphabet has been checked, so their number fits.
pub(crate) fn sizes_of(plan: Planned) -> Sizes
    requires { plan.alphabet.size ≤ Letter.MAX_K }
    ensures { result ≡ record { k = plan.alphabet.size; m = plan.pattern.size; n = plan.text.size } }
{
    Sizes {
        k: plan.alphabet.size as u32,
        m: plan.pattern.size,
        n: plan.text.size,
    }
}
