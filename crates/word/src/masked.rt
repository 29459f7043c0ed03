// A pattern and the masks of its letters, as one value. A contract sees the pattern: that the masks are its own, and that it has letters and no more than a word has bits, is true of every such value.
ghost use Rattle.std.specs.Prelude.{◌≡◌, ◌-◌, length};
ghost use Rattle.letters.specs.Sizes.{SizedPattern};
ghost use Rattle.pattern.specs.Tables.{mask_table};
ghost use Rattle.word.specs.Word.{stepped, is_set};

use crate::{advance, is_set};
use letters::letter::Letter;
use letters::strings::Pattern;
use pattern::masks::Masks;
use std::marker::Model;

#[derive(Drop)]
pub struct Masked<'a> {
    pattern: &'a [u32],
    masks: &'a Masks,
}

impl<'a> Model for Masked<'a> {
    ghost use Rattle.std.specs.Prelude.{ℕ, List};
    ghost use Rattle.letters.specs.Sizes.{SizedPattern};
    ghost use Rattle.letters.specs.declared.letter.TheConstants.Letter.{MAX_K};
    ghost use Rattle.letters.specs.declared.strings.TheConstants.Pattern.{MAX_M};
    ghost use Rattle.pattern.specs.Tables.{MaskTable};

    ghost Value = { List ℕ };

    ghost view = { λ x. x.pattern.now };

    ghost invariant = { λ x. SizedPattern MAX_M x.pattern.now × MaskTable MAX_K x.pattern.now x.masks.now.rows };
}

impl<'a> Masked<'a> {
    pub fn of(pattern: &'a [u32], masks: &'a Masks) -> Masked<'a>
        requires { SizedPattern Pattern.MAX_M pattern.now × (masks.now.rows ≡ mask_table Letter.MAX_K pattern.now) }
        ensures { result ≡ pattern.now }
    {
        Masked { pattern, masks }
    }

    // The pattern's letters: at least one, and no more than a word has bits.
    pub fn letters(&self) -> &'a [u32]
        ensures { (result.now ≡ self.now) × SizedPattern Pattern.MAX_M self.now }
    {
        self.pattern
    }

    // The word step at the text letter c.
    pub fn step(&self, c: u32, d: u64) -> u64
        ensures { result ≡ stepped self.now c d }
    {
        advance(&self.masks.rows, c, d)
    }

    // Whether the pattern ends with the letter whose step left this state.
    pub fn ends(&self, d: u64) -> bool
        ensures { result ≡ is_set (length self.now - 1) d }
    {
        is_set(d, self.pattern.len() - 1)
    }
}
