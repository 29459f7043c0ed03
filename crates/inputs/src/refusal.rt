// What a call is refused with: a line of the table of refusals, and a place.
ghost use Rattle.std.specs.Prelude.{◌≡◌};
ghost use Rattle.inputs.specs.Numbers.{number_of};

// What is wrong: a line of the table.
#[derive(Clone, Copy, Debug, PartialEq, Eq)]
pub enum Kind {
    AlphabetSize,
    PatternLength,
    TextLength,
    PatternLetter,
    TextLetter,
    ProductAlphabet,
    NoProduct,
    Room,
    SheetLength,
    CountLine,
    AlphabetLine,
    LetterLine,
    LetterCount,
    Surplus,
    Start,
}

impl Kind {
    // The refusal with it at a place; 0 where the table names none.
    pub fn at(self, place: usize) -> Refusal
        ensures { result ≡ record { kind = self; place = place } }
    {
        Refusal { kind: self, place }
    }
}

// Its number in the table.
impl From<Kind> for u32 {
    ghost from_gives = { λ kind number. number ≡ number_of kind };

    fn from(kind: Kind) -> u32 {
        match kind {
            Kind::AlphabetSize => 1,
            Kind::PatternLength => 2,
            Kind::TextLength => 3,
            Kind::PatternLetter => 4,
            Kind::TextLetter => 5,
            Kind::ProductAlphabet => 6,
            Kind::NoProduct => 7,
            Kind::Room => 8,
            Kind::SheetLength => 10,
            Kind::CountLine => 11,
            Kind::AlphabetLine => 12,
            Kind::LetterLine => 13,
            Kind::LetterCount => 14,
            Kind::Surplus => 15,
            Kind::Start => 16,
        }
    }
}

#[derive(Clone, Copy, Debug, PartialEq, Eq)]
pub struct Refusal {
    pub kind: Kind,
    pub place: usize,
}
