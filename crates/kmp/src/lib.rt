// The engine KMP, for any letters. At a start with r letters already known to meet it tests on from P[r], left to right, until a failure or a full hit; then it shifts by the least that the h letters that now meet allow.
//
// Source: Dehghani, Lecroq, Mhaskar, Smyth, "Practical KMP/BM Style Pattern-Matching on Indeterminate Strings", Section 4.1: KMP_INDET and COMPUTE_SHIFT, Algorithms 3 and 4, Figure 2. Why borders over unsure letters lose hits: Smyth, Wang, "An Adaptive Hybrid Pattern-Matching Algorithm on Indeterminate Strings", Section 3, Tables 1 and 2.
//
// Departures:
// 1. Letters are sets in a word, not products of primes.
// 2. Where a letter is unsure no string q' and no prefix array of it are made: s = 1, 2, .. are tried in turn on the text itself, and each test is counted.
// 3. Where none is, a table has the shift for each h, not the border; no border of a border is taken, which need not be one (Smyth and Wang, Proposition 2).
// 4. Of the text the code carries the index after the last unsure letter that met, the paper's right_pos, and no flag beside it: the text under the h letters is single exactly if that index is not past the start.
// 5. A shift past the last start is cut to the first start past it, where the run ends.
#![tactic(auto)]

mod twice;

ghost use Rattle.std.specs.Prelude.{◌≡◌, ◌||◌, ◌+◌, ◌-◌, ◌*◌, ◌≤◌, ◌<◌, min, ltb, length};
ghost use Rattle.letters.specs.declared.strings.TheConstants.Pattern.{MAX_M};
ghost use Rattle.inputs.specs.Answers.{Searched, scan_of, shift_of};
ghost use Rattle.kmp.specs.Kmp.{Known, KmpReady, NotSingleAt, Scanned, at_of, shift_by, shift_tests, kmp_turn, kmp_run, kmp_turn_of};

use hits::work::{Work, note};
use inputs::refusal::Refusal;
use inputs::rule::{Rule, Searches};
use letters::letter::{Letter, common, lone};
use letters::strings::{Pattern, Text};
use pattern::Prepared;
use pattern::tables::Shifts;
use shifts::{Trials, try_shifts};

// A start, how many letters are known to meet there, and the index after the last text letter among them that is unsure.
#[derive(Clone, Copy, Debug, PartialEq, Eq)]
struct Standing {
    start: usize,
    known: usize,
    unsure: usize,
}

impl Standing {
    // Whether a letter is unsure, of those that meet or of the text under them; the pattern's first `sure` are not.
    fn is_unsure(self, sure: usize) -> bool
        ensures { result ≡ (ltb sure self.known || ltb self.start self.unsure) }
    {
        sure < self.known || self.start < self.unsure
    }

    // At another start, with some letters known there; the last unsure letter stays where it is.
    fn moved(self, start: usize, known: usize) -> Self
        ensures { result ≡ record { start = start; known = known; unsure = self.unsure } }
    {
        Standing {
            start,
            known,
            unsure: self.unsure,
        }
    }
}

#[derive(Clone, Copy, Debug, PartialEq, Eq)]
struct KmpTurned {
    hit: bool,
    next: Standing,
    scan: u64,
    shift: u64,
}

// Tests on from the letters known to meet to those that now meet, and keeps the index after the last unsure text letter.
fn scan_on(p: &[u32], t: &[u32], s: Standing) -> Standing
    requires { Known p.now t.now s }
    ensures { Scanned p.now t.now s result }
{
    let i = s.start;
    let mut last = s.unsure;
    for j in s.known..p.len() {
        let c = t[i + j];
        if common(p[j], c) == 0 {
            return Standing {
                start: i,
                known: j,
                unsure: last,
            };
        }
        if !lone(c) {
            last = i + j + 1;
        }
    }
    Standing {
        start: i,
        known: p.len(),
        unsure: last,
    }
}

// A pattern with what is worked out from it: its own shifts, and the length of its longest prefix of single letters. The table is lent, so that the rest can stand in registers.
#[derive(Clone, Copy)]
struct Readied<'a> {
    p: &'a [u32],
    by: &'a [u32; Pattern::MAX_M + 1],
    sure: usize,
    ghost ready: { KmpReady MAX_M p.now by.now sure },
}

impl<'a> Readied<'a> {
    // The shift where the known letters meet, as yet not cut at the text's end, with its tests.
    fn shift_by(&self, t: &[u32], s: Standing) -> Trials
        requires { (0 < s.known) × Known self.now.p.now t.now s }
        ensures { (min result.by (length t.now + 1 - (length self.now.p.now + s.start)) ≡ shift_by self.now.p.now t.now s.start s.known) × (result.tests ≡ shift_tests self.now.p.now t.now s.start s.known) }
    {
        if s.is_unsure(self.sure) {
            return try_shifts(self.p, t, s.start, 0, s.known);
        }
        Trials {
            by: self.by[s.known] as usize,
            tests: 0,
        }
    }

    // A turn.
    fn step(&self, t: &[u32], s: Standing) -> KmpTurned
        requires { Known self.now.p.now t.now s }
        ensures { (kmp_turn_of s.start result ≡ kmp_turn self.now.p.now t.now (at_of s)) × NotSingleAt t.now result.next.start result.next.known result.next.unsure }
    {
        let m = self.p.len();
        let i = s.start;
        let c = scan_on(self.p, t, s);
        let h = c.known;
        if h == 0 {
            return KmpTurned {
                hit: false,
                next: c.moved(i + 1, 0),
                scan: 1,
                shift: 0,
            };
        }
        let hit = h == m;
        let scan = (h - s.known) as u64 + u64::from(h < m);
        let b = self.shift_by(t, c);
        // A branch, and not the smaller of the two: the next start need not wait for it. By m and then by i, so that their sum need not be kept.
        let end = t.len() + 1 - m - i;
        if end < b.by {
            return KmpTurned {
                hit,
                next: c.moved(t.len() + 1 - m, h - end),
                scan,
                shift: b.tests,
            };
        }
        KmpTurned {
            hit,
            next: c.moved(i + b.by, h - b.by),
            scan,
            shift: b.tests,
        }
    }
}

// The engine.
#[derive(Clone, Copy, Debug, PartialEq, Eq)]
pub struct Kmp;

impl Rule for Kmp {
    ghost turns = { kmp_run };

    // The run over all starts.
    fn run(p: &[u32], t: &[u32], list: &mut [u32]) -> Work {
        let m = p.len();
        let n = t.len();
        // In this order the compiler keeps more of what a start needs in registers (docs/SPEED.md).
        let shifts = Shifts::from_front(p);
        let sure = Prepared::new(p).sure;
        let ready = Readied {
            p,
            by: &shifts.by,
            sure,
        };
        let mut s = Standing {
            start: 0,
            known: 0,
            unsure: 0,
        };
        let mut total = 0;
        let mut scan: u64 = 0;
        let mut shift: u64 = 0;
        // A turn says where the next start is, so no range gives the starts.
        while s.start + m <= n {
            let turn = ready.step(t, s);
            total = note(list, total, s.start, turn.hit);
            scan += turn.scan;
            shift += turn.shift;
            s = turn.next;
        }
        Work {
            total,
            scan,
            shift,
            steps: 0,
        }
    }
}

impl Searches for Kmp {
    fn searched(k: u32, p: &[u32], t: &[u32], list: &mut [u32]) -> Result<Work, Refusal> {
        search(k, p, t, list)
    }
}

// Every start at which the pattern meets the text, by KMP.
pub fn search(k: u32, p: &[u32], t: &[u32], list: &mut [u32]) -> Result<Work, Refusal>
    ensures promise { Searched kmp_run Letter.MAX_K Pattern.MAX_M Text.MAX_N k p.now t.now list.old result list.new }
    ensures scan_bound { length p.now ≤ length t.now → scan_of result ≤ 2 * length t.now - length p.now }
    ensures shift_bound { length p.now ≤ length t.now → shift_of result ≤ (length t.now - length p.now) * (length p.now - 1) }
{
    inputs::rule::search::<Kmp>(k, p, t, list)
}
