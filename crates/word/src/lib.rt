// The state of the word engines, held in one word of 64 bits.
#![tactic(auto)]

pub mod masked;

ghost use Rattle.std.specs.Prelude.{◌≡◌, ◌+◌, ◌-◌, ◌^◌, ◌<◌};
ghost use Rattle.letters.specs.Members.{members, union_of};
ghost use Rattle.hits.specs.Counts.{tally, noted};
ghost use Rattle.word.specs.Word.{moved, is_set};

use hits::work::note;
use letters::letter::Letter;
use letters::members::union;
use letters::strings::Pattern;

// One word step. The bit that falls off the top is no loss: `mask` has no place for it.
pub fn word_step(d: u64, mask: u64) -> u64
    ensures { result ≡ moved d mask }
{
    ((d << 1) | 1) & mask
}

// The word step at the text letter c, from the rows of the pattern's masks.
pub fn advance(rows: &[u64; Letter::MAX_K as usize], c: u32, d: u64) -> u64
    ensures { result ≡ moved d (union_of rows.now (members Letter.MAX_K c)) }
{
    word_step(d, union(rows, c))
}

// Whether digit j is set.
pub fn is_set(d: u64, j: usize) -> bool
    requires { j < Pattern.MAX_M }
    ensures { result ≡ is_set j d }
{
    (d >> j) % 2 == 1
}

// Notes a hit of m letters that ends before e. Its start is worked out for a hit alone, so that a letter that ends none costs nothing here.
pub fn note_end(list: &mut [u32], total: usize, e: usize, m: usize, hit: bool) -> usize
    requires { (total < 2 ^ 32) × (e < 2 ^ 32) }
    ensures { (result ≡ total + tally hit) × (list.new ≡ noted hit list.old total (e - m)) }
{
    if !hit {
        return total;
    }
    note(list, total, e.saturating_sub(m), true)
}
