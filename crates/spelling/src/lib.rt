// Letters in their notation: how many bytes spell a letter or a line of letters, and those bytes, written one after another.
#![tactic(auto)]

ghost use Rattle.std.specs.Prelude.{◌≡◌, ◌+◌, ◌^◌, ◌≤◌, ◌<◌, length};
ghost use Rattle.letters.specs.Sizes.{Below};
ghost use Rattle.lent.specs.Over.{Stored};
ghost use Rattle.notation.specs.Spelling.{pick, spell, line};

use lent::put_byte;
use letters::letter::Letter;

// Writes the bytes of c's members, ascending. The bound on the alphabet is for the cast of b; a type that carried it would be made for each call.
pub fn put_members(alphabet: &[u8], c: u32, out: &mut [u8], at: usize) -> usize
    requires { (length alphabet.now < 2 ^ 32) × (at + length (pick alphabet.now c) ≤ length out.old) }
    ensures { Stored out.old at (pick alphabet.now c) result out.new }
{
    let mut e = at;
    for b in 0..alphabet.len() {
        if Letter::from(c).has(b as u32) {
            out[e] = alphabet[b];
            e += 1;
        }
    }
    e
}

// How many bytes spell a letter.
pub fn letter_len(alphabet: &[u8], c: u32) -> usize
    requires { (length alphabet.now < 2 ^ 32) × (c < 2 ^ length alphabet.now) }
    ensures { result ≡ length (spell alphabet.now c) }
{
    let ones = c.count_ones() as usize;
    if ones <= 1 || ones == alphabet.len() {
        return 1;
    }
    ones + 2
}

// Writes a letter.
pub fn put_letter(alphabet: &[u8], c: u32, out: &mut [u8], at: usize) -> usize
    requires { (length alphabet.now < 2 ^ 32) × (c < 2 ^ length alphabet.now) × (at + length (spell alphabet.now c) ≤ length out.old) }
    ensures { Stored out.old at (spell alphabet.now c) result out.new }
{
    let n = c.count_ones() as usize;
    if n == 0 {
        return put_byte(out, at, b'|');
    }
    if n == 1 {
        return put_members(alphabet, c, out, at);
    }
    if n == alphabet.len() {
        return put_byte(out, at, b'*');
    }
    let a = put_byte(out, at, b'[');
    let e = put_members(alphabet, c, out, a);
    put_byte(out, e, b']')
}

// How many bytes a line of letters has.
pub fn line_len(alphabet: &[u8], letters: &[u32]) -> usize
    requires { (length alphabet.now < 2 ^ 32) × Below (length alphabet.now) letters.now × (length (line alphabet.now letters.now) < 2 ^ 64) }
    ensures { result ≡ length (line alphabet.now letters.now) }
{
    let mut n: usize = 1;
    for &c in letters {
        n += letter_len(alphabet, c);
    }
    n
}

// Writes a line of letters.
pub fn put_line(alphabet: &[u8], letters: &[u32], out: &mut [u8], at: usize) -> usize
    requires { (length alphabet.now < 2 ^ 32) × Below (length alphabet.now) letters.now × (at + length (line alphabet.now letters.now) ≤ length out.old) }
    ensures { Stored out.old at (line alphabet.now letters.now) result out.new }
{
    let mut e = at;
    // An index, since the must-fail edit `every_other_letter_written` of this crate takes every other one.
    for i in 0..letters.len() {
        e = put_letter(alphabet, letters[i], out, e);
    }
    put_byte(out, e, b'\n')
}
