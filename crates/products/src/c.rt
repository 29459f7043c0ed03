// The product calls for C.
ghost use Rattle.products.specs.Calls.{ToCalled, FromCalled, MeetCalled};

use crate::convert::{from_products, to_products};
use crate::meeting::products_meet;
use crate::product::Product;
use codes::{refusal_code, written_code};
use letters::letter::Letter;
use letters::strings::Text;

// The letters, over an alphabet of k, as products. It goes through the public call, as the next one does: what is promised and proved of that call is
// then of the code that C runs.
pub fn to_called(k: u32, letters: &[u32], products: &mut [u32]) -> i64
    ensures { ToCalled Letter.MAX_K Product.MAX_K Text.MAX_N k letters.now products.old result products.new }
{
    written_code(to_products(k, letters, products))
}

// The products, for an alphabet of k, as letters.
pub fn from_called(k: u32, products: &[u32], letters: &mut [u32]) -> i64
    ensures { FromCalled Letter.MAX_K Product.MAX_K Text.MAX_N k products.now letters.old result letters.new }
{
    written_code(from_products(k, products, letters))
}

// Whether two products meet, as a number.
pub fn meet_called(k: u32, a: u32, b: u32) -> i64
    ensures { MeetCalled Letter.MAX_K Product.MAX_K k a b result }
{
    // As `bound::c::choice_called`, three lines: one function for both would take their must-fail edits out of these crates.
    match products_meet(k, a, b) {
        Err(r) => refusal_code(r),
        Ok(true) => 1,
        Ok(false) => 0,
    }
}
