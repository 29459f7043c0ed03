// The checks of the conversions and of a meeting: 1, 6, 3, then 5 or 7, then 8; 1, 6, then 7.
ghost use Rattle.std.specs.Prelude.{◌≡◌, ◌&&◌, ◌≤◌, Ok, ltb, not, position};
ghost use Rattle.letters.specs.First.{first_with};
ghost use Rattle.products.specs.Primes.{divides, other};
ghost use Rattle.products.specs.Conversions.{alphabet_then, sizes_then, elements};
ghost use Rattle.products.specs.Meetings.{pair_verdict};

use crate::product::{Product, first_product, is_other};
use inputs::refusal::{Kind, Refusal};
use letters::letter::Letter;
use letters::limits::is_outside;
use letters::strings::Text;

// Checks 1 and 6.
#[tactic(auto, unfolding(crate::specs::Conversions::alphabet_then, inputs::specs::Refusals::refuse))]
pub(crate) fn check_alphabet(k: u32) -> Result<(), Refusal>
    ensures { result ≡ alphabet_then Letter.MAX_K Product.MAX_K k (Ok tt) }
{
    if is_outside(k as usize, 1, Letter::MAX_K as usize) {
        return Err(Kind::AlphabetSize.at(0));
    }
    if Product::MAX_K < k {
        return Err(Kind::ProductAlphabet.at(0));
    }
    Ok(())
}

// Where the first value stands that is no product.
fn other_at(full: u32, values: &[u32]) -> Option<usize>
    ensures { result ≡ position (λ v. not (ltb 0 v && divides v full)) values.now }
{
    values.iter().position(|&v| is_other(full, v))
}

// The lowest index of a value that is no product for k, or the length.
pub(crate) fn first_other(k: u32, values: &[u32]) -> usize
    requires { k ≤ Product.MAX_K }
    ensures { result ≡ first_with (other k) values.now }
{
    let full = first_product(k);
    other_at(full, values).unwrap_or(values.len())
}

// Checks 1, 6 and 3, of n elements.
#[tactic(auto, unfolding(crate::specs::Conversions::sizes_then, crate::specs::Conversions::alphabet_then, inputs::specs::Refusals::refuse))]
pub(crate) fn check_sizes(k: u32, n: usize) -> Result<(), Refusal>
    ensures { result ≡ sizes_then Letter.MAX_K Product.MAX_K Text.MAX_N k n (Ok tt) }
{
    check_alphabet(k)?;
    if Text::MAX_N < n {
        return Err(Kind::TextLength.at(0));
    }
    Ok(())
}

// Check 5 or 7 by its kind, then 8: of n elements the lowest wrong one is at a place, n if there is none; there is room for so many.
#[tactic(auto, unfolding(inputs::specs::Refusals::refuse))]
pub(crate) fn check_elements(kind: Kind, place: usize, n: usize, room: usize) -> Result<(), Refusal>
    ensures { result ≡ elements kind place n room }
{
    if place < n {
        return Err(kind.at(place));
    }
    if room < n {
        return Err(Kind::Room.at(0));
    }
    Ok(())
}

// The checks of two products that may meet.
#[tactic(auto, unfolding(crate::specs::Meetings::pair_verdict, crate::specs::Conversions::alphabet_then, crate::specs::Primes::other, crate::specs::Primes::is_product, inputs::specs::Refusals::refuse))]
pub(crate) fn check_pair(k: u32, a: u32, b: u32) -> Result<(), Refusal>
    ensures { result ≡ pair_verdict Letter.MAX_K Product.MAX_K k a b }
{
    check_alphabet(k)?;
    let full = first_product(k);
    if is_other(full, a) {
        return Err(Kind::NoProduct.at(0));
    }
    if is_other(full, b) {
        return Err(Kind::NoProduct.at(1));
    }
    Ok(())
}
