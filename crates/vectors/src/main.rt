// The examples that are run: both sides of every limit, by all six engines, for the first hit alone, in the bound mode and for what is shared at a start; letters for which R lies at the pattern's front; and sheets
// whose refusal names a place. What is printed is held to the file stdout.
#![tactic(auto)]

use bound::choice::choose;
use engines::engine::Engine;
use engines::search;
use first::First;
use hits::work::Work;
use inputs::refusal::Refusal;
use reasons::shared_at;
use report::Report;
use std::fmt::{self, Write};
use std::io::{Print, Stdout};

// Total, scan tests, shift tests, word steps.
#[derive(Drop)]
struct Counts(Work);

impl fmt::Display for Counts {
    fn fmt<W: fmt::Write>(&self, f: &mut fmt::Formatter<W>) -> fmt::Result {
        let work = self.0;
        write!(
            f,
            "{} {} {} {}",
            work.total, work.scan, work.shift, work.steps
        )
    }
}

// The start, or none; and the scan tests.
#[derive(Drop)]
struct Sought(First);

impl fmt::Display for Sought {
    fn fmt<W: fmt::Write>(&self, f: &mut fmt::Formatter<W>) -> fmt::Result {
        match self.0.start {
            Some(start) => write!(f, "{start} {}", self.0.scan),
            None => write!(f, "none {}", self.0.scan),
        }
    }
}

// Standard output, a piece at a time. A piece that cannot be written is missing from what is compared with the file stdout; those after it are tried
// all the same.
#[derive(Drop)]
struct Pieces(Stdout);

impl fmt::Write for Pieces {
    fn write_str(&mut self, piece: &str) -> fmt::Result {
        words(self.0, piece);
        Ok(())
    }
}

fn words(to: Stdout, text: &str) {
    let _ = to.write_all(text.as_bytes());
}

// A row, its pieces one after another, and the line's end.
fn row<T: fmt::Display + Drop>(to: Stdout, what: T) {
    let mut pieces = Pieces(to);
    let _ = writeln!(pieces, "{what}");
}

fn say_refusal(to: Stdout, r: Refusal) {
    row(
        to,
        format_args!("refused {} at {}", u32::from(r.kind), r.place),
    );
}

// What is answered, in one line, or the refusal's number and place.
fn say<T: fmt::Display + Drop>(to: Stdout, answer: Result<T, Refusal>) {
    match answer {
        Ok(found) => row(to, found),
        Err(refusal) => say_refusal(to, refusal),
    }
}

// By one engine, into this list.
fn by(to: Stdout, engine: Engine, k: u32, p: &[u32], t: &[u32], list: &mut [u32]) {
    say(to, search(engine, k, p, t, list).map(Counts));
}

// By all six, one after another into the same list of two, which is said too.
fn six(to: Stdout, what: &str, k: u32, p: &[u32], t: &[u32]) {
    words(to, what);
    let mut list = [7; 2];
    for engine in Engine::ALL {
        by(to, engine, k, p, t, &mut list);
    }
    row(to, format_args!("{} {}", list[0], list[1]));
}

fn sizes_of_k(to: Stdout) {
    let one = [1];
    let top = [2147483648];
    six(to, "k 0\n", 0, &one, &one);
    six(to, "k 1\n", 1, &one, &one);
    six(to, "k 32\n", 32, &top, &top);
    six(to, "k 31, a bit above it\n", 31, &one, &top);
    six(to, "k 33\n", 33, &one, &one);
}

fn sizes_of_m(to: Stdout) {
    let text = [1; 65];
    six(to, "m 0\n", 1, &[], &text);
    six(to, "m 1\n", 1, &[1], &text);
    six(to, "m 64\n", 1, &[1; 64], &text);
    six(to, "m 65\n", 1, &[1; 65], &text);
}

fn sizes_of_n(to: Stdout) {
    six(to, "n 0\n", 1, &[1], &[]);
    six(to, "n 65536\n", 2, &[2; 2], &[1; 65536]);
    six(to, "n 65537\n", 1, &[1], &[1; 65537]);
}

// a meets [an], [an] meets n, and a does not meet n.
fn letters_that_meet(to: Stdout) {
    let a = [1];
    let an = [3];
    let n = [2];
    six(to, "a in [an]\n", 2, &a, &an);
    six(to, "[an] in n\n", 2, &an, &n);
    six(to, "a in n\n", 2, &a, &n);
}

// Lists of one, of too few, of enough, and of none.
fn rooms(to: Stdout) {
    let a = [1];
    let aaa = [1; 3];
    let mut one = [7; 1];
    let mut two = [7; 2];
    let mut four = [7; 4];
    words(to, "lists\n");
    by(to, Engine::Brute, 1, &a, &aaa, &mut []);
    by(to, Engine::Kmp, 1, &a, &aaa, &mut one);
    by(to, Engine::Hybrid, 1, &a, &aaa, &mut two);
    by(to, Engine::Bm, 1, &a, &aaa, &mut four);
    row(
        to,
        format_args!("{} {} {} {} {}", one[0], two[0], two[1], four[2], four[3]),
    );
}

// The first hit alone.
fn say_first(to: Stdout, k: u32, p: &[u32], t: &[u32]) {
    say(to, first::search(k, p, t).map(Sought));
}

fn first_of_k(to: Stdout) {
    let one = [1];
    let top = [2147483648];
    words(to, "first, k 0, 1, 32, 33, and a bit above it\n");
    say_first(to, 0, &one, &one);
    say_first(to, 1, &one, &one);
    say_first(to, 32, &top, &top);
    say_first(to, 33, &one, &one);
    say_first(to, 31, &one, &top);
}

fn first_of_m(to: Stdout) {
    let text = [1; 65];
    words(to, "first, m 0, 1, 64, 65\n");
    say_first(to, 1, &[], &text);
    say_first(to, 1, &[1], &text);
    say_first(to, 1, &[1; 64], &text);
    say_first(to, 1, &[1; 65], &text);
}

// No hit, and hits at either end, in the longest text; and one letter too many.
fn first_of_n(to: Stdout) {
    let mut text = [1; 65536];
    let ab = [1, 2];
    words(
        to,
        "first, n 0; 65536 with no hit, at the last start, at the first; 65537\n",
    );
    say_first(to, 2, &ab, &[]);
    say_first(to, 2, &ab, &text);
    text[65535] = 2;
    say_first(to, 2, &ab, &text);
    text[1] = 3;
    say_first(to, 2, &ab, &text);
    say_first(to, 2, &ab, &[1; 65537]);
}

// One letter in marks only; with a mark first, last, twice; with k 1 and 32; and the mark in the pattern.
fn marks(to: Stdout) {
    let a = [1];
    let front = [0, 1, 1];
    six(to, "marks only\n", 1, &a, &[0; 3]);
    six(to, "a mark first\n", 1, &a, &front);
    six(to, "a mark last\n", 1, &a, &[1, 1, 0]);
    six(to, "a mark twice\n", 1, &a, &[1, 0, 0, 1]);
    six(
        to,
        "k 32, a mark\n",
        32,
        &[2147483648],
        &[2147483648, 0, 2147483648],
    );
    six(to, "a mark in the pattern\n", 1, &[0], &front);
}

// A name that a mark cuts in two, by all six and for the first hit: anna in an|naanna.
fn cut_name(to: Stdout) {
    let p = [1, 4, 4, 1];
    let t = [1, 4, 0, 4, 1, 1, 4, 4, 1];
    six(to, "anna in an|naanna\n", 3, &p, &t);
    words(to, "first, in it, in its front, and in a mark\n");
    say_first(to, 3, &p, &t);
    say_first(to, 3, &p, &t[..8]);
    say_first(to, 3, &p[..1], &t[2..3]);
}

// The longest pattern, b, a 62 times, n, where the letter after the window, or under the failing one, is met by index 0 alone, by none, and is a mark.
fn front_after_the_window(to: Stdout) {
    let mut p = [1; 64];
    p[0] = 2;
    p[63] = 4;
    let mut first = [1; 128];
    first[64] = 2;
    first[127] = 4;
    let mut none = [1; 129];
    none[64] = 8;
    none[65] = 2;
    none[128] = 4;
    six(to, "m 64, met by index 0 alone\n", 4, &p, &first);
    six(to, "m 64, met by none\n", 4, &p, &none);
    none[64] = 0;
    six(to, "m 64, a mark\n", 4, &p, &none);
}

// abn, where [ab] stands after the window, and under the letter that fails from the right: its lowest member stands left of the other.
fn unsure_after_the_window(to: Stdout) {
    let p = [1, 2, 4];
    let t = [4, 4, 1, 3, 4];
    six(to, "abn in nna[ab]n\n", 3, &p, &t);
    six(to, "abn in na[ab]n\n", 3, &p, &t[1..]);
}

// The longest pattern, of one unsure letter, in its own sets and another letter at the end.
fn bound_of_m(to: Stdout) {
    let longest = [3; 64];
    let mut text = [3; 66];
    text[65] = 4;
    let mut list = [9; 1];
    words(to, "bound, m 64 in 66, a list of one\n");
    say(to, bound::search(3, &longest, &text, &mut list));
    row(to, format_args!("{}", list[0]));
}

// The choice at a start: whether it is listed.
fn say_choice(to: Stdout, p: &[u32], t: &[u32], start: usize, choice: &mut [u32]) {
    match choose(2, p, t, start, choice) {
        Ok(true) => words(to, "listed\n"),
        Ok(false) => words(to, "not listed\n"),
        Err(refusal) => say_refusal(to, refusal),
    }
}

// Its choice where the last letter under it decides; one start too far, and the farthest.
fn choice_of_m(to: Stdout) {
    let longest = [3; 64];
    let mut text = [3; 65];
    text[64] = 2;
    let mut choice = [9; 65];
    words(
        to,
        "choice, m 64 in 65 at 1, at 2 and at the farthest start\n",
    );
    say_choice(to, &longest, &text, 1, &mut choice);
    say_choice(to, &longest, &text, 2, &mut choice);
    say_choice(to, &longest, &text, usize::MAX, &mut choice);
    row(to, format_args!("{} {}", choice[0], choice[64]));
}

// The longest pattern at the last start, whose letters agree in two base letters, one or none; one start too far, the farthest, and a text that is too short.
fn reasons_of_m(to: Stdout) {
    let mut longest = [3; 64];
    longest[63] = 6;
    let mut text = [7; 66];
    text[64] = 4;
    text[65] = 5;
    let mut sets = [9; 65];
    words(
        to,
        "reasons, m 64 in 66 at 2, at 3 and at the farthest start, and in 63\n",
    );
    say(to, shared_at(3, &longest, &text, 2, &mut sets));
    say(to, shared_at(3, &longest, &text, 3, &mut sets));
    say(to, shared_at(3, &longest, &text, usize::MAX, &mut sets));
    say(to, shared_at(3, &longest, &text[3..], 0, &mut sets));
    row(
        to,
        format_args!("{} {} {} {}", sets[0], sets[62], sets[63], sets[64]),
    );
}

// What is printed for each of some sheets.
fn print_all(to: Stdout, sheets: &[&[u8]]) {
    for sheet in sheets {
        let mut out = [0; Report::MAX_BYTES];
        let len = printed::of_front(sheet, sheet.len(), &mut out);
        let _ = to.write_all(&out[..len]);
    }
}

// Sheets that are refused, each at its first wrong byte.
fn sheets(to: Stdout) {
    words(to, "sheets\n");
    let sheets: [&[u8]; 10] = [
        b"3\naen\n1\n[ea]\n0\n\n",
        b"3\naen\n1\n[a]\n0\n\n",
        b"3\naen\n1\n[n",
        b"3\naen\n1\n[aen]\n0\n\n",
        b"2\nae\n1\n[ae]\n0\n\n",
        b"1\na\n1\n*\n0\n\n",
        b"03\naen\n",
        b"",
        b"1\na\n1\na\n0\n\nx",
        b"1\na\n2\na\n0\n\n",
    ];
    print_all(to, &sheets);
}

// The entry mark in a text; and in the alphabet, the pattern and a bracket, where it is refused.
fn marked_sheets(to: Stdout) {
    words(to, "sheets with marks\n");
    let sheets: [&[u8]; 4] = [
        b"3\naen\n4\nanna\n9\nan|naanna\n",
        b"3\na|n\n1\na\n0\n\n",
        b"3\naen\n2\na|\n0\n\n",
        b"3\naen\n1\na\n1\n[a|]\n",
    ];
    print_all(to, &sheets);
}

// A report one byte too long for the list, and one that just fits.
fn capacity(to: Stdout) {
    words(to, "capacity\n");
    let s = b"3\naen\n4\nanna\n12\nannann[ae]nann[an]\n";
    say(to, report::of_sheet(s, &mut [0; 90]));
    say(to, report::of_sheet(s, &mut [0; 91]));
}

// Every row, in order.
fn rows(to: Stdout) {
    sizes_of_k(to);
    sizes_of_m(to);
    sizes_of_n(to);
    letters_that_meet(to);
    rooms(to);
    first_of_k(to);
    first_of_m(to);
    first_of_n(to);
    marks(to);
    cut_name(to);
    front_after_the_window(to);
    unsure_after_the_window(to);
    bound_of_m(to);
    choice_of_m(to);
    reasons_of_m(to);
    sheets(to);
    marked_sheets(to);
    capacity(to);
}

fn main(rt: HostRuntime) {
    rows(rt.stdout());
}
