// The engine ShiftAnd: one word step a text letter, n in all when m is at most n. No tests.
//
// Its source is 002, W. F. Smyth and Shu Wang, An Adaptive Hybrid Pattern-Matching Algorithm on Indeterminate Strings: figure 4 for the rows, figure 6 for the step.
// Departures from it:
// 1. The run is over the whole text: a state of 0 does not end it, as it ends figure 6, which is Hybrid's.
// 2. There is a row for each base letter alone. That of a text letter is the union of its members' rows, made when the letter is read.
// 3. What is listed is where a hit starts, and not where it ends.
// 4. A pattern longer than the text takes no step.
#![tactic(auto)]

mod twice;

ghost use Rattle.std.specs.Prelude.{◌≡◌, ◌≤◌, ◌<◌, ◌^◌, ℕ, List, length, get_or};
ghost use Rattle.inputs.specs.Answers.{Searched, scan_of, shift_of, steps_of};
ghost use Rattle.shiftand.specs.ShiftAnd.{shiftand_turn, shiftand_run, word_turn_of, StepsAre};

use hits::work::Work;
use inputs::refusal::Refusal;
use inputs::rule::{Rule, Searches};
use letters::letter::Letter;
use letters::strings::{Pattern, Text};
use pattern::masks::Masks;
use word::masked::Masked;
use word::note_end;

#[derive(Clone, Copy)]
struct WordTurned {
    hit: bool,
    read: usize,
    word: u64,
}

// A turn: the text letter c, which stands at `read`, from the state `word`.
fn step(pattern: &Masked<'_>, c: u32, read: usize, word: u64) -> WordTurned
    requires { read < 2 ^ 32 }
    ensures { (t : List ℕ) → get_or t read 0 ≡ c → word_turn_of pattern.now result ≡ shiftand_turn pattern.now t (record { read = read; word = word }) }
{
    let next = pattern.step(c, word);
    WordTurned {
        hit: pattern.ends(next),
        read: read + 1,
        word: next,
    }
}

#[derive(Clone, Copy, Debug, PartialEq, Eq)]
pub struct ShiftAnd;

impl Rule for ShiftAnd {
    ghost turns = { shiftand_run };

    // The run over all letters.
    fn run(p: &[u32], t: &[u32], list: &mut [u32]) -> Work {
        let m = p.len();
        if t.len() < m {
            return Work {
                total: 0,
                scan: 0,
                shift: 0,
                steps: 0,
            };
        }
        let masks = Masks::of(p);
        let pattern = Masked::of(p, &masks);
        let mut word: u64 = 0;
        let mut total = 0;
        for (read, &c) in t.iter().enumerate() {
            let s = step(&pattern, c, read, word);
            total = note_end(list, total, s.read, m, s.hit);
            word = s.word;
        }
        Work {
            total,
            scan: 0,
            shift: 0,
            steps: t.len() as u64,
        }
    }
}

impl Searches for ShiftAnd {
    fn searched(k: u32, p: &[u32], t: &[u32], list: &mut [u32]) -> Result<Work, Refusal> {
        search(k, p, t, list)
    }
}

// Every start at which the pattern meets the text, by ShiftAnd.
pub fn search(k: u32, p: &[u32], t: &[u32], list: &mut [u32]) -> Result<Work, Refusal>
    ensures promise { Searched shiftand_run Letter.MAX_K Pattern.MAX_M Text.MAX_N k p.now t.now list.old result list.new }
    ensures bound { (scan_of result ≡ 0) × (shift_of result ≡ 0) × (steps_of result ≤ length t.now) }
    ensures steps { StepsAre p.now t.now result }
{
    inputs::rule::search::<ShiftAnd>(k, p, t, list)
}
