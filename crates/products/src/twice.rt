// The calls made twice; a conversion, whichever, and each of the two calls by its own contract.
ghost use Rattle.std.specs.Prelude.{◌≡◌};

use crate::convert::{Conversion, convert, from_products, to_products};
use crate::meeting::products_meet;
use inputs::refusal::Refusal;
use inputs::twice::Twice;

fn convert_twice<C: Conversion>(
    k: u32,
    elements: &[u32],
    a: &mut [u32],
    b: &mut [u32],
) -> Twice<Result<usize, Refusal>>
    requires { a.old ≡ b.old }
    ensures { (result.first ≡ result.second) × (a.new ≡ b.new) }
{
    let first = convert::<C>(k, elements, a);
    let second = convert::<C>(k, elements, b);
    Twice { first, second }
}

fn to_products_twice(
    k: u32,
    letters: &[u32],
    a: &mut [u32],
    b: &mut [u32],
) -> Twice<Result<usize, Refusal>>
    requires { a.old ≡ b.old }
    ensures { (result.first ≡ result.second) × (a.new ≡ b.new) }
{
    let first = to_products(k, letters, a);
    let second = to_products(k, letters, b);
    Twice { first, second }
}

fn from_products_twice(
    k: u32,
    products: &[u32],
    a: &mut [u32],
    b: &mut [u32],
) -> Twice<Result<usize, Refusal>>
    requires { a.old ≡ b.old }
    ensures { (result.first ≡ result.second) × (a.new ≡ b.new) }
{
    let first = from_products(k, products, a);
    let second = from_products(k, products, b);
    Twice { first, second }
}

fn products_meet_twice(k: u32, a: u32, b: u32) -> Twice<Result<bool, Refusal>>
    ensures { result.first ≡ result.second }
{
    let first = products_meet(k, a, b);
    let second = products_meet(k, a, b);
    Twice { first, second }
}
