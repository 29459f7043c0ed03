// The checks 1 to 5 of a search, in this order; and those of a call that asks about one start.
ghost use Rattle.std.specs.Prelude.{◌≡◌, ◌+◌, ◌≤◌, ltb, Ok, position};
ghost use Rattle.inputs.specs.declared.refusal.Kind.TheVariants.{Start, Room};
ghost use Rattle.letters.specs.First.{first_with, some_with};
ghost use Rattle.inputs.specs.Refusals.{bad, refuse, verdict, verdict_at};

use crate::refusal::{Kind, Refusal};
use letters::letter::Letter;
use letters::limits::is_outside;
use letters::strings::{Pattern, Text};

// Whether c is no letter of a string over an alphabet of k, in which marks may stand or not.
pub fn is_bad(marks: bool, k: u32, c: u32) -> bool
    requires { k ≤ Letter.MAX_K }
    ensures { result ≡ bad marks k c }
{
    if c == 0 {
        return !marks;
    }
    1u64 << k <= u64::from(c)
}

// Where the first such letter stands.
fn bad_at(marks: bool, k: u32, s: &[u32]) -> Option<usize>
    requires { k ≤ Letter.MAX_K }
    ensures { result ≡ position (bad marks k) s.now }
{
    s.iter().position(|&c| is_bad(marks, k, c))
}

// The lowest index of such a letter, or the length.
pub fn first_bad(marks: bool, k: u32, s: &[u32]) -> usize
    requires { k ≤ Letter.MAX_K }
    ensures { result ≡ first_with (bad marks k) s.now }
{
    bad_at(marks, k, s).unwrap_or(s.len())
}

// Whether there is such a letter: one pass without an early exit, which the compiler makes wide. Where marks may stand it is one OR a letter.
pub fn any_bad(marks: bool, k: u32, s: &[u32]) -> bool
    requires { k ≤ Letter.MAX_K }
    ensures { result ≡ some_with (bad marks k) s.now }
{
    let mut all: u32 = 0;
    let mut wrong = false;
    for &c in s {
        all |= c;
        if c == 0 {
            wrong = !marks;
        }
    }
    if wrong {
        return true;
    }
    1u64 << k <= u64::from(all)
}

// What the checks say of a search.
pub fn checked(k: u32, p: &[u32], t: &[u32]) -> Result<(), Refusal>
    ensures { result ≡ verdict Letter.MAX_K Pattern.MAX_M Text.MAX_N k p.now t.now }
{
    if is_outside(k as usize, 1, Letter::MAX_K as usize) {
        return Err(Kind::AlphabetSize.at(0));
    }
    if is_outside(p.len(), 1, Pattern::MAX_M) {
        return Err(Kind::PatternLength.at(0));
    }
    if Text::MAX_N < t.len() {
        return Err(Kind::TextLength.at(0));
    }
    if any_bad(Pattern::MARKS, k, p) {
        return Err(Kind::PatternLetter.at(first_bad(Pattern::MARKS, k, p)));
    }
    if any_bad(Text::MARKS, k, t) {
        return Err(Kind::TextLetter.at(first_bad(Text::MARKS, k, t)));
    }
    Ok(())
}

// 16 where m letters do not fit into n from the start on, then 8 where fewer than m elements are lent. The start may be any number: no sum is made that may not fit.
fn placed(m: usize, n: usize, start: usize, lent: usize) -> Result<(), Refusal>
    ensures { result ≡ refuse (ltb n (start + m)) Start 0 (refuse (ltb lent m) Room 0 (Ok tt)) }
{
    if n < m {
        return Err(Kind::Start.at(0));
    }
    if n - m < start {
        return Err(Kind::Start.at(0));
    }
    if lent < m {
        return Err(Kind::Room.at(0));
    }
    Ok(())
}

// What the checks say of a call that asks about one start and writes an element for each letter of the pattern. Such a call does little else, so that
// handing a result on through memory would be told in its time.
#[inline(always)]
pub fn checked_at(k: u32, p: &[u32], t: &[u32], start: usize, lent: usize) -> Result<(), Refusal>
    ensures { result ≡ verdict_at Letter.MAX_K Pattern.MAX_M Text.MAX_N k p.now t.now start lent }
{
    checked(k, p, t)?;
    placed(p.len(), t.len(), start, lent)
}
