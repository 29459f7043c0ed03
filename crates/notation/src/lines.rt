// Reading a line of letters.
ghost use Rattle.std.specs.Prelude.{◌≡◌, ◌-◌, ◌≤◌, ◌<◌, ◌^◌, length, drop};
ghost use Rattle.notation.specs.Reader.{may_follow, out, read_from};
ghost use Rattle.notation.specs.Answers.{bracket_from, one_at, counted_of, letters_of, Room};
ghost use Rattle.lent.specs.Over.{over};

use crate::alphabet::{Notation, Wrong};
use letters::letter::Letter;

// The set of the letter j alone.
fn only(j: usize) -> u32
    requires { j < Letter.MAX_K }
    ensures { result ≡ 2 ^ j }
{
    1u32 << j
}

// The set of all k letters.
fn all(k: usize) -> u32
    requires { k ≤ Letter.MAX_K }
    ensures { result ≡ 2 ^ k - 1 }
{
    ((1u64 << k) - 1) as u32
}

// Whether letter j may stand in a bracket that has `count` members, all below `above`, and the bracket can still be closed.
#[tactic(auto, using(std::proofs::lemmas::Bool::Decides::nat_tests), unfolding(crate::specs::Reader::may_follow))]
fn may_follow(k: usize, above: usize, count: usize, j: usize) -> bool
    requires { count < k }
    ensures { result ≡ may_follow k above count j }
{
    j < k && above <= j && count + 1 < k && (1 <= count || j + 1 < k)
}

impl<'a> Notation<'a> {
    // Reads a bracket from the place after its opener: its set, and the place after its closer. A loop that breaks, and no `for`: the form that was
    // asked for (docs/FORMS.md).
    fn read_bracket(&self, sheet: &[u8], from: usize) -> Result<(u32, usize), Wrong>
        requires { (0 < length self.now) × (from ≤ length sheet.now) }
        ensures { result ≡ bracket_from self.now 0 0 0 from (drop from sheet.now) }
    {
        let k = self.len();
        let mut set: u32 = 0;
        let mut above: usize = 0;
        let mut count: usize = 0;
        let mut at = from;
        loop {
            if at == sheet.len() {
                break Err(Wrong { place: at });
            }
            let b = sheet[at];
            if b == b']' {
                if 2 <= count {
                    break Ok((set, at + 1));
                }
                break Err(Wrong { place: at });
            }
            let j = self.number(b);
            if !may_follow(k, above, count, j) {
                break Err(Wrong { place: at });
            }
            set += only(j);
            above = j + 1;
            count += 1;
            at += 1;
        }
    }

    // What stands at a place of a line, in which marks may stand or not: a letter, or nothing at the line's end; and the place after it. The number of
    // letters is handed in, so that a pass over a line asks for it once: a letter that it writes may lie anywhere, for all that the compiler knows.
    fn read_one(
        &self,
        k: usize,
        marks: bool,
        sheet: &[u8],
        at: usize,
    ) -> Result<(Option<u32>, usize), Wrong>
        requires { (k ≡ length self.now) × (k ≤ Letter.MAX_K) × (at ≤ length sheet.now) }
        ensures { result ≡ one_at marks self.now at (drop at sheet.now) }
    {
        if at == sheet.len() {
            return Err(Wrong { place: at });
        }
        let (b, next) = (sheet[at], at + 1);
        if b == b'\n' {
            return Ok((None, next));
        }
        let j = self.number(b);
        if j < k {
            return Ok((Some(only(j)), next));
        }
        match b {
            b'*' if 2 <= k => Ok((Some(all(k)), next)),
            b'[' if 3 <= k => {
                let (set, after) = self.read_bracket(sheet, next)?;
                Ok((Some(set), after))
            }
            b'|' if marks => Ok((Some(0), next)),
            _ => Err(Wrong { place: at }),
        }
    }

    // The first pass over a line, in which marks may stand or not: how many letters it has, and the place after it.
    pub fn count_letters(
        &self,
        marks: bool,
        sheet: &[u8],
        from: usize,
    ) -> Result<(usize, usize), Wrong>
        requires { from ≤ length sheet.now }
        ensures { result ≡ counted_of (read_from marks self.now out from (drop from sheet.now)) }
    {
        let k = self.len();
        let mut at = from;
        let mut n: usize = 0;
        // A letter says where the next begins, so no range gives the places.
        loop {
            match self.read_one(k, marks, sheet, at)? {
                (Some(_), next) => {
                    n += 1;
                    at = next;
                }
                (None, next) => return Ok((n, next)),
            }
        }
    }

    // The second pass: writes the letters of a right line.
    pub fn put_letters(&self, marks: bool, sheet: &[u8], from: usize, list: &mut [u32])
        requires within { from ≤ length sheet.now }
        requires room { Room (read_from marks self.now out from (drop from sheet.now)) (length list.old) }
        ensures { list.new ≡ over (letters_of (read_from marks self.now out from (drop from sheet.now))) list.old }
    {
        let k = self.len();
        let mut at = from;
        let mut i: usize = 0;
        // As above, a letter says where the next begins; how many there are is not known before.
        while let Ok((Some(set), next)) = self.read_one(k, marks, sheet, at) {
            list[i] = set;
            i += 1;
            at = next;
        }
    }
}
