// Whether two products meet.
ghost use Rattle.products.specs.Meetings.{Met};

use crate::checks::check_pair;
use crate::euclid::gcd;
use crate::product::Product;
use inputs::refusal::Refusal;
use letters::letter::Letter;

// Whether the products a and b, for an alphabet of k, meet: whether their greatest common divisor exceeds 1.
#[tactic(auto, unfolding(crate::specs::Meetings::products_meet))]
pub fn products_meet(k: u32, a: u32, b: u32) -> Result<bool, Refusal>
    ensures { Met Letter.MAX_K Product.MAX_K k a b result }
{
    check_pair(k, a, b)?;
    Ok(1 < gcd(a, b))
}
