// What a call from C returns.
#![tactic(auto)]

pub mod search;
pub mod twice;

ghost use Rattle.std.specs.Prelude.{◌≡◌, ◌+◌, ◌*◌, min, ◌^◌, ◌<◌, pos, neg_ℤ};
ghost use Rattle.codes.specs.Codes.{refused_code, number_code, wrote_of, written_code, written_number};

use inputs::refusal::Refusal;

// A place as C is told it: one above 2^48 is told as 2^48, so that number and place fit one number.
pub fn told_place(place: usize) -> usize
    ensures { result ≡ min place (2 ^ 48) }
{
    let farthest: usize = 1 << 48;
    place.min(farthest)
}

// Minus a number and 256 times a place, for any number, in the table or not.
pub fn placed_code(number: u32, place: usize) -> i64
    ensures { result ≡ neg_ℤ (pos (number + 256 * min place (2 ^ 48))) }
{
    let both = number as usize + 256 * told_place(place);
    0 - (both as i64)
}

// Minus a number alone.
pub fn unplaced_code(number: u32) -> i64
    ensures { result ≡ neg_ℤ (pos number) }
{
    0 - (number as i64)
}

// Minus the refusal's number and 256 times its place.
pub fn refusal_code(r: Refusal) -> i64
    ensures { result ≡ refused_code r }
{
    placed_code(u32::from(r.kind), r.place)
}

// Minus the refusal's number alone.
pub fn number_code(r: Refusal) -> i64
    ensures { result ≡ number_code r }
{
    unplaced_code(u32::from(r.kind))
}

// A length or a total.
pub fn length_code(n: usize) -> i64
    requires { n < 2 ^ 63 }
    ensures { result ≡ pos n }
{
    n as i64
}

// What a call that writes answered.
pub fn written_code(w: Result<usize, Refusal>) -> i64
    requires { wrote_of w < 2 ^ 63 }
    ensures { result ≡ written_code w }
{
    match w {
        Err(r) => refusal_code(r),
        Ok(n) => length_code(n),
    }
}

// The same without a place. Two functions of four lines: a code handed in as a closure would ask for its contract at every call.
pub fn written_number(w: Result<usize, Refusal>) -> i64
    requires { wrote_of w < 2 ^ 63 }
    ensures { result ≡ written_number w }
{
    match w {
        Err(r) => number_code(r),
        Ok(n) => length_code(n),
    }
}
