// The alphabet: which bytes may stand for letters, their numbers, and the line that lists them.
ghost use Rattle.std.specs.Prelude.{◌≡◌, ◌^◌, ◌≤◌, ◌<◌, [], length, drop};
ghost use Rattle.notation.specs.Alphabet.{plain, find, TableOf, fresh, fresh_from, alphabet_at};

use letters::letter::Letter;
use std::marker::Model;

// The place of a byte that is wrong or missing.
#[derive(Clone, Copy, Debug, PartialEq, Eq)]
pub struct Wrong {
    pub place: usize,
}

// An alphabet, and the numbers of all bytes in it: its length for a byte that is no letter.
#[derive(Drop)]
pub struct Notation<'a> {
    alphabet: &'a [u8],
    numbers: [u8; 256],
}

impl<'a> Model for Notation<'a> {
    ghost use Rattle.std.specs.Prelude.{ℕ, ◌≤◌, List, length};
    ghost use Rattle.letters.specs.declared.letter.TheConstants.Letter.{MAX_K};
    ghost use Rattle.notation.specs.Alphabet.{TableOf};

    ghost Value = { List ℕ };

    ghost view = { λ n. n.alphabet.now };

    ghost invariant = { λ n. (length n.alphabet.now ≤ MAX_K) × TableOf n.alphabet.now n.numbers };
}

// The numbers of all bytes. The later letter is stored first, so that the first of two equal bytes counts.
pub fn numbers(alphabet: &[u8]) -> [u8; 256]
    requires { length alphabet.now < 2 ^ 8 }
    ensures { TableOf alphabet.now result }
{
    let mut numbers = [alphabet.len() as u8; 256];
    for i in (0..alphabet.len()).rev() {
        numbers[usize::from(alphabet[i])] = i as u8;
    }
    numbers
}

impl<'a> Notation<'a> {
    pub fn of(alphabet: &'a [u8]) -> Notation<'a>
        requires { length alphabet.now ≤ Letter.MAX_K }
        ensures { result ≡ alphabet.now }
    {
        Notation {
            alphabet,
            numbers: numbers(alphabet),
        }
    }

    // How many letters there are.
    pub(crate) fn len(&self) -> usize
        ensures { (result ≡ length self.now) × (result ≤ Letter.MAX_K) }
    {
        self.alphabet.len()
    }

    // The number of the letter b, or the alphabet's length.
    pub(crate) fn number(&self, b: u8) -> usize
        ensures { result ≡ find self.now b }
    {
        usize::from(self.numbers[usize::from(b)])
    }
}

// Whether a byte is from 32 to 126 and none of [ ] * |.
#[tactic(auto, using(std::proofs::lemmas::Bool::Decides::nat_tests), unfolding(crate::specs::Alphabet::plain))]
fn is_plain(b: u8) -> bool
    ensures { result ≡ plain b }
{
    matches!(b, 32..=126) && !matches!(b, b'[' | b']' | b'*' | b'|')
}

// Whether b is plain and none of the bytes before.
fn is_fresh(before: &[u8], b: u8) -> bool
    ensures { result ≡ fresh before.now b }
{
    is_plain(b) && !before.contains(&b)
}

// Reads k bytes of an alphabet, each plain and none of those before: the place after them.
pub fn read_bytes(sheet: &[u8], from: usize, k: usize) -> Result<usize, Wrong>
    requires { from ≤ length sheet.now }
    ensures { result ≡ fresh_from [] k from (drop from sheet.now) }
{
    for i in 0..k {
        let at = from + i;
        if at == sheet.len() || !is_fresh(&sheet[from..at], sheet[at]) {
            return Err(Wrong { place: at });
        }
    }
    Ok(from + k)
}

// Reads the alphabet line of k letters: the place after it.
pub fn read_line(sheet: &[u8], from: usize, k: usize) -> Result<usize, Wrong>
    requires { from ≤ length sheet.now }
    ensures { result ≡ alphabet_at k from (drop from sheet.now) }
{
    let end = read_bytes(sheet, from, k)?;
    if end == sheet.len() || sheet[end] != b'\n' {
        return Err(Wrong { place: end });
    }
    Ok(end + 1)
}
