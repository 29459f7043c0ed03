// The sections of a sheet: what they hold is checked and counted, and nothing is written.
ghost use Rattle.std.specs.Prelude.{◌≡◌, ◌≤◌, length};
ghost use Rattle.sheet.specs.Reader.{alphabet_section, letter_line, letter_section, text_section, string_sections};
ghost use Rattle.sheet.specs.Answers.{found_of, both_of};

use decimal::count::{Counted, read_count};
use inputs::refusal::{Kind, Refusal};
use letters::letter::Letter;
use letters::limits::is_outside;
use letters::strings::{Pattern, Text};
use notation::alphabet::{Notation, read_line};

// A section: how many letters it has, where its line begins, and the place after it.
#[derive(Clone, Copy, Debug, PartialEq, Eq)]
pub struct Section {
    pub size: usize,
    pub from: usize,
    pub next: usize,
}

// How many letters a section may have, what refuses any other count, whether marks may stand among them, and how many there is room for.
#[derive(Clone, Copy, Debug, PartialEq, Eq)]
pub struct Bounds {
    pub least: usize,
    pub most: usize,
    pub kind: Kind,
    pub marks: bool,
    pub room: usize,
}

// The pattern's section and the text's.
#[derive(Clone, Copy, Debug, PartialEq, Eq)]
pub struct Both {
    pub pattern: Section,
    pub text: Section,
}

// The alphabet's section.
#[tactic(auto, unfolding(crate::specs::Reader::alphabet_section, crate::specs::Reader::refuse_at))]
pub(crate) fn alphabet_section(sheet: &[u8], room: usize) -> Result<Section, Refusal>
    ensures { result ≡ found_of (alphabet_section Letter.MAX_K room sheet.now) }
{
    let Some(
        Counted {
            number: k,
            next: from,
        },
    ) = read_count(sheet, 0)
    else {
        return Err(Kind::CountLine.at(0));
    };
    if is_outside(k, 1, Letter::MAX_K as usize) {
        return Err(Kind::AlphabetSize.at(0));
    }
    match read_line(sheet, from, k) {
        Err(wrong) => Err(Kind::AlphabetLine.at(wrong.place)),
        Ok(_) if room < k => Err(Kind::Room.at(0)),
        Ok(next) => Ok(Section {
            size: k,
            from,
            next,
        }),
    }
}

// A line of letters whose count line, at a place, counts m of them.
#[tactic(auto, unfolding(crate::specs::Reader::letter_line, crate::specs::Reader::refuse_at))]
fn letter_line(
    notation: &Notation,
    sheet: &[u8],
    at: usize,
    counted: Counted,
    bounds: Bounds,
) -> Result<Section, Refusal>
    requires { counted.next ≤ length sheet.now }
    ensures { result ≡ found_of (letter_line bounds.marks notation.now bounds.room sheet.now at counted.number counted.next) }
{
    let Counted {
        number: m,
        next: from,
    } = counted;
    match notation.count_letters(bounds.marks, sheet, from) {
        Err(wrong) => Err(Kind::LetterLine.at(wrong.place)),
        Ok((n, _)) if n != m => Err(Kind::LetterCount.at(at)),
        Ok(_) if bounds.room < m => Err(Kind::Room.at(0)),
        Ok((_, next)) => Ok(Section {
            size: m,
            from,
            next,
        }),
    }
}

// A section of letters, whose count line is at a place.
#[tactic(auto, unfolding(crate::specs::Reader::letter_section, crate::specs::Reader::refuse_at))]
fn letter_section(
    notation: &Notation,
    sheet: &[u8],
    at: usize,
    bounds: Bounds,
) -> Result<Section, Refusal>
    requires { at ≤ length sheet.now }
    ensures { result ≡ found_of (letter_section notation.now bounds sheet.now at) }
{
    let Some(counted) = read_count(sheet, at) else {
        return Err(Kind::CountLine.at(at));
    };
    if is_outside(counted.number, bounds.least, bounds.most) {
        return Err(bounds.kind.at(at));
    }
    letter_line(notation, sheet, at, counted, bounds)
}

// The text's section, from a place to the sheet's end.
#[tactic(auto, unfolding(crate::specs::Reader::text_section, crate::specs::Reader::refuse_at))]
fn text_section(
    notation: &Notation,
    sheet: &[u8],
    at: usize,
    room: usize,
) -> Result<Section, Refusal>
    requires { at ≤ length sheet.now }
    ensures { result ≡ found_of (text_section Text.MAX_N notation.now room sheet.now at) }
{
    let bounds = Bounds {
        least: 0,
        most: Text::MAX_N,
        kind: Kind::TextLength,
        marks: Text::MARKS,
        room,
    };
    let text = letter_section(notation, sheet, at, bounds)?;
    if text.next < sheet.len() {
        return Err(Kind::Surplus.at(text.next));
    }
    Ok(text)
}

// The pattern's and the text's section.
#[tactic(auto, unfolding(crate::specs::Reader::string_sections))]
pub(crate) fn string_sections(
    notation: &Notation,
    sheet: &[u8],
    at: usize,
    pattern: usize,
    text: usize,
) -> Result<Both, Refusal>
    requires { at ≤ length sheet.now }
    ensures { result ≡ both_of (string_sections Pattern.MAX_M Text.MAX_N notation.now pattern text sheet.now at) }
{
    let bounds = Bounds {
        least: 1,
        most: Pattern::MAX_M,
        kind: Kind::PatternLength,
        marks: Pattern::MARKS,
        room: pattern,
    };
    let first = letter_section(notation, sheet, at, bounds)?;
    let second = text_section(notation, sheet, first.next, text)?;
    Ok(Both {
        pattern: first,
        text: second,
    })
}
