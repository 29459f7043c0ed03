// Products of primes: which values they are, and which letters.
ghost use Rattle.std.specs.Prelude.{◌≡◌, not, ◌&&◌, ◌+◌, ◌*◌, ◌≤◌, ◌<◌, ltb};
ghost use Rattle.hits.specs.Counts.{tally};
ghost use Rattle.products.specs.Primes.{first_product, divides, letter_of};

// A letter as the product of its members' primes.
#[derive(Clone, Copy, Debug, PartialEq, Eq)]
pub struct Product {
    pub value: u32,
}

impl Product {
    // The largest alphabet for products: nine primes.
    pub const MAX_K: u32 = 9;

    // It as a number: a contract that hands over the constant follows it wherever it goes, and this one does not.
    pub fn pinned() -> u32
        ensures { result ≡ 9 }
    {
        Product::MAX_K
    }
}

// The product of the first k primes, at k, for all nine.
const FIRST: [u32; 10] = [1, 2, 6, 30, 210, 2310, 30030, 510510, 9699690, 223092870];

// The product of the first k primes.
pub(crate) fn first_product(k: u32) -> u32
    requires { k ≤ Product.MAX_K }
    ensures { result ≡ first_product k }
{
    FIRST[k as usize]
}

// Whether v is no product: it is 0, or does not divide the product of the first primes. A value of any size is taken or refused.
#[tactic(auto, unfolding(crate::specs::Primes::divides))]
pub(crate) fn is_other(full: u32, v: u32) -> bool
    ensures { result ≡ not (ltb 0 v && divides v full) }
{
    v == 0 || full % v != 0
}

// The members above, moved up by one, with the one below them if p divides v.
fn joined(v: u32, p: u32, above: u32) -> u32
    requires { (0 < p) × (above < 256) }
    ensures { (result ≡ tally (divides p v) + 2 * above) × (result ≤ 1 + 2 * above) }
{
    2 * above + u32::from(v % p == 0)
}

// The letter whose members' primes divide v, from the highest down. The remainders are by constants, which the compiler makes cheap.
pub(crate) fn letter_of(v: u32) -> u32
    ensures { result ≡ letter_of v }
{
    let mut c = joined(v, 23, 0);
    c = joined(v, 19, c);
    c = joined(v, 17, c);
    c = joined(v, 13, c);
    c = joined(v, 11, c);
    c = joined(v, 7, c);
    c = joined(v, 5, c);
    c = joined(v, 3, c);
    joined(v, 2, c)
}
