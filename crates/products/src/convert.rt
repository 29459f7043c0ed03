// Letters to products, and back: two conversions, and what both do.
ghost use Rattle.std.specs.Prelude.{◌≡◌, ◌≤◌, ℕ, Bool, true, map, length};
ghost use Rattle.letters.specs.First.{first_with};
ghost use Rattle.lent.specs.Over.{over};
ghost use Rattle.inputs.specs.Refusals.{bad};
ghost use Rattle.inputs.specs.declared.refusal.Kind.{Kind};
ghost use Rattle.inputs.specs.declared.refusal.Kind.TheVariants.{TextLetter, NoProduct};
ghost use Rattle.products.specs.Primes.{product_of, letter_of, other};
ghost use Rattle.products.specs.Conversions.{Right, Converted, ToProducts, FromProducts};

use crate::checks::{check_elements, check_sizes, first_other};
use crate::product::{Product, letter_of};
use crate::table::table;
use inputs::checks::first_bad;
use inputs::refusal::{Kind, Refusal};
use letters::letter::Letter;
use letters::strings::Text;

// What one conversion does, and the other does not.
pub trait Conversion {
    // Which elements are wrong over an alphabet of k, and what each other element becomes.
    ghost wrong: { ℕ → ℕ → Bool };

    ghost makes: { ℕ → ℕ };

    // What a wrong element is refused with.
    ghost refused: { Kind };

    fn refused() -> Kind
        ensures { result ≡ refused };

    // The lowest index of a wrong element, or the length.
    fn first_wrong(k: u32, elements: &[u32]) -> usize
        requires { k ≤ Product.MAX_K }
        ensures { result ≡ first_with (wrong k) elements.now };

    // What each element becomes, over the front of the lent memory.
    fn write(elements: &[u32], made: &mut [u32])
        requires { (length elements.now ≤ length made.old) × Right wrong Product.MAX_K elements.now }
        ensures { made.new ≡ over (map makes elements.now) made.old };
}

// Letters become products.
#[derive(Clone, Copy, Debug, PartialEq, Eq)]
pub struct IntoProducts;

impl Conversion for IntoProducts {
    ghost wrong = { bad true };

    ghost makes = { product_of };

    ghost refused = { TextLetter };

    fn refused() -> Kind {
        Kind::TextLetter
    }

    fn first_wrong(k: u32, letters: &[u32]) -> usize {
        first_bad(Text::MARKS, k, letters)
    }

    #[tactic(auto, unfolding(lent::specs::Over::over), using(lent::proofs::MapLaws::written_all))]
    fn write(letters: &[u32], products: &mut [u32]) {
        let entries = table();
        // By an index: of an `iter_mut().zip(..)` a proof is not told what it left in the slice.
        for i in 0..letters.len() {
            products[i] = entries[letters[i] as usize];
        }
    }
}

// Products become letters.
#[derive(Clone, Copy, Debug, PartialEq, Eq)]
pub struct IntoLetters;

impl Conversion for IntoLetters {
    ghost wrong = { other };

    ghost makes = { letter_of };

    ghost refused = { NoProduct };

    fn refused() -> Kind {
        Kind::NoProduct
    }

    fn first_wrong(k: u32, products: &[u32]) -> usize {
        first_other(k, products)
    }

    #[tactic(auto, unfolding(lent::specs::Over::over), using(lent::proofs::MapLaws::written_next, lent::proofs::MapLaws::written_all))]
    fn write(products: &[u32], letters: &mut [u32]) {
        // By an index, as above.
        for i in 0..products.len() {
            letters[i] = letter_of(products[i]);
        }
    }
}

// The checks in their order, and then what each element becomes.
#[tactic(auto, using(crate::proofs::CheckLaws::sizes_on, crate::proofs::CheckLaws::sizes_pass, crate::proofs::CheckLaws::sizes_refuse))]
pub fn convert<C: Conversion>(k: u32, elements: &[u32], made: &mut [u32]) -> Result<usize, Refusal>
    ensures { Converted C.refused C.wrong C.makes Letter.MAX_K Product.MAX_K Text.MAX_N k elements.now made.old result made.new }
{
    check_sizes(k, elements.len())?;
    let place = C::first_wrong(k, elements);
    check_elements(C::refused(), place, elements.len(), made.len())?;
    C::write(elements, made);
    Ok(elements.len())
}

// The letters, over an alphabet of k, as products.
#[tactic(auto, unfolding(crate::specs::Conversions::to_verdict))]
pub fn to_products(k: u32, letters: &[u32], products: &mut [u32]) -> Result<usize, Refusal>
    ensures { ToProducts Letter.MAX_K Product.MAX_K Text.MAX_N k letters.now products.old result products.new }
{
    convert::<IntoProducts>(k, letters, products)
}

// The products, for an alphabet of k, as letters.
#[tactic(auto, unfolding(crate::specs::Conversions::from_verdict))]
pub fn from_products(k: u32, products: &[u32], letters: &mut [u32]) -> Result<usize, Refusal>
    ensures { FromProducts Letter.MAX_K Product.MAX_K Text.MAX_N k products.now letters.old result letters.new }
{
    convert::<IntoLetters>(k, products, letters)
}
