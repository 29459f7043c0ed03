// The greatest common divisor, by Euclid's remainders.
ghost use Rattle.std.specs.Prelude.{◌≡◌};
ghost use Rattle.products.specs.Gcd.{gcd as divisor};

// Each call is on a smaller second number.
#[tactic(auto, using(crate::proofs::GcdLaws::gcd_zero, crate::proofs::GcdLaws::gcd_step))]
pub(crate) fn gcd(a: u32, b: u32) -> u32
    ensures { result ≡ divisor a b }
{
    if b == 0 { a } else { gcd(b, a % b) }
}
