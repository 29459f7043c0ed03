// Numbers in decimal digits, there and back.
#![tactic(auto)]

pub mod bytes;
pub mod count;

ghost use Rattle.std.specs.Prelude.{◌≡◌, ◌+◌, ◌%◌, ◌≤◌, length};
ghost use Rattle.std.proofs.lemmas.List.Edits.{sets};
ghost use Rattle.decimal.specs.Decimal.{decimal};

// How many digits n has.
pub fn len(n: u64) -> usize
    ensures { result ≡ length (decimal n) }
{
    if n < 10 {
        return 1;
    }
    len(n / 10) + 1
}

fn low_digit(n: u64) -> u8
    ensures { result ≡ 48 + n % 10 }
{
    b'0' + (n % 10) as u8
}

// Writes n at a place, and answers the place after it. By hand: `write!` into the slice would answer a Result that is never an error here.
pub fn put(out: &mut [u8], at: usize, n: u64) -> usize
    requires { at + length (decimal n) ≤ length out.old }
    ensures { (result ≡ at + length (decimal n)) × (out.new ≡ sets out.old at (decimal n)) }
{
    if n < 10 {
        out[at] = low_digit(n);
        return at + 1;
    }
    let e = put(out, at, n / 10);
    out[e] = low_digit(n);
    e + 1
}
