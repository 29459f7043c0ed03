// Each call made twice, on equal inputs: equal answers, and equal lent memory.
ghost use Rattle.std.specs.Prelude.{◌≡◌};
ghost use Rattle.codes.specs.Called.{Called, Lists};
ghost use Rattle.sheet.specs.Reader.{Strings};
ghost use Rattle.sheet.specs.Called.{Lent};

use crate::{
    breakwarp_bm, breakwarp_bound, breakwarp_bound_choice, breakwarp_brute, breakwarp_first,
    breakwarp_from_products, breakwarp_hybrid, breakwarp_kmp, breakwarp_products_meet,
    breakwarp_read_sheet, breakwarp_reasons, breakwarp_report, breakwarp_shiftand,
    breakwarp_sunday, breakwarp_to_products, breakwarp_write_sheet,
};
use bm::Bm;
use brute::Brute;
use hybrid::Hybrid;
use inputs::rule::Rule;
use inputs::twice::Twice;
use kmp::Kmp;
use letters::letter::Letter;
use letters::strings::{Pattern, Text};
use shiftand::ShiftAnd;
use sunday::Sunday;

// The export that searches by a rule: all six are called with the same and promise the same of their rules.
trait Export: Rule {
    fn call(k: u32, p: &[u32], t: &[u32], hits: &mut [u32], work: &mut [u64]) -> i64
        ensures { Called Self.turns Letter.MAX_K Pattern.MAX_M Text.MAX_N k p.now t.now hits.old work.old result hits.new work.new };
}

impl Export for Brute {
    fn call(k: u32, p: &[u32], t: &[u32], hits: &mut [u32], work: &mut [u64]) -> i64 {
        breakwarp_brute(k, p, t, hits, work)
    }
}

impl Export for Kmp {
    fn call(k: u32, p: &[u32], t: &[u32], hits: &mut [u32], work: &mut [u64]) -> i64 {
        breakwarp_kmp(k, p, t, hits, work)
    }
}

impl Export for Bm {
    fn call(k: u32, p: &[u32], t: &[u32], hits: &mut [u32], work: &mut [u64]) -> i64 {
        breakwarp_bm(k, p, t, hits, work)
    }
}

impl Export for Sunday {
    fn call(k: u32, p: &[u32], t: &[u32], hits: &mut [u32], work: &mut [u64]) -> i64 {
        breakwarp_sunday(k, p, t, hits, work)
    }
}

impl Export for ShiftAnd {
    fn call(k: u32, p: &[u32], t: &[u32], hits: &mut [u32], work: &mut [u64]) -> i64 {
        breakwarp_shiftand(k, p, t, hits, work)
    }
}

impl Export for Hybrid {
    fn call(k: u32, p: &[u32], t: &[u32], hits: &mut [u32], work: &mut [u64]) -> i64 {
        breakwarp_hybrid(k, p, t, hits, work)
    }
}

fn search_twice<E: Export>(
    k: u32,
    p: &[u32],
    t: &[u32],
    a: &mut [u32],
    w: &mut [u64],
    b: &mut [u32],
    v: &mut [u64],
) -> Twice<i64>
    requires { ◌≡◌ {A = Lists} (record { starts = a.old; counts = w.old }) (record { starts = b.old; counts = v.old }) }
    ensures { (result.first ≡ result.second) × (◌≡◌ {A = Lists} (record { starts = a.new; counts = w.new }) (record { starts = b.new; counts = v.new })) }
{
    let first = E::call(k, p, t, a, w);
    let second = E::call(k, p, t, b, v);
    Twice { first, second }
}

fn first_twice(k: u32, p: &[u32], t: &[u32], a: &mut [u64], b: &mut [u64]) -> Twice<i64>
    requires { a.old ≡ b.old }
    ensures { (result.first ≡ result.second) × (a.new ≡ b.new) }
{
    let first = breakwarp_first(k, p, t, a);
    let second = breakwarp_first(k, p, t, b);
    Twice { first, second }
}

fn bound_twice(k: u32, p: &[u32], t: &[u32], a: &mut [u32], b: &mut [u32]) -> Twice<i64>
    requires { a.old ≡ b.old }
    ensures { (result.first ≡ result.second) × (a.new ≡ b.new) }
{
    let first = breakwarp_bound(k, p, t, a);
    let second = breakwarp_bound(k, p, t, b);
    Twice { first, second }
}

// Here and below each call is made by its own name: these are the calls for C, and what is told of each is its own contract.
fn bound_choice_twice(
    k: u32,
    p: &[u32],
    t: &[u32],
    start: usize,
    a: &mut [u32],
    b: &mut [u32],
) -> Twice<i64>
    requires { a.old ≡ b.old }
    ensures { (result.first ≡ result.second) × (a.new ≡ b.new) }
{
    let first = breakwarp_bound_choice(k, p, t, start, a);
    let second = breakwarp_bound_choice(k, p, t, start, b);
    Twice { first, second }
}

fn reasons_twice(
    k: u32,
    p: &[u32],
    t: &[u32],
    start: usize,
    a: &mut [u32],
    b: &mut [u32],
) -> Twice<i64>
    requires { a.old ≡ b.old }
    ensures { (result.first ≡ result.second) × (a.new ≡ b.new) }
{
    let first = breakwarp_reasons(k, p, t, start, a);
    let second = breakwarp_reasons(k, p, t, start, b);
    Twice { first, second }
}

fn to_products_twice(k: u32, from: &[u32], a: &mut [u32], b: &mut [u32]) -> Twice<i64>
    requires { a.old ≡ b.old }
    ensures { (result.first ≡ result.second) × (a.new ≡ b.new) }
{
    let first = breakwarp_to_products(k, from, a);
    let second = breakwarp_to_products(k, from, b);
    Twice { first, second }
}

fn from_products_twice(k: u32, from: &[u32], a: &mut [u32], b: &mut [u32]) -> Twice<i64>
    requires { a.old ≡ b.old }
    ensures { (result.first ≡ result.second) × (a.new ≡ b.new) }
{
    let first = breakwarp_from_products(k, from, a);
    let second = breakwarp_from_products(k, from, b);
    Twice { first, second }
}

fn products_meet_twice(k: u32, a: u32, b: u32) -> Twice<i64>
    ensures { result.first ≡ result.second }
{
    let first = breakwarp_products_meet(k, a, b);
    let second = breakwarp_products_meet(k, a, b);
    Twice { first, second }
}

fn read_sheet_twice(
    s: &[u8],
    a: &mut [u8],
    p: &mut [u32],
    t: &mut [u32],
    z: &mut [u64],
    b: &mut [u8],
    q: &mut [u32],
    u: &mut [u32],
    y: &mut [u64],
) -> Twice<i64>
    requires { ◌≡◌ {A = Lent} (record { strings = record { alphabet = a.old; pattern = p.old; text = t.old }; sizes = z.old }) (record { strings = record { alphabet = b.old; pattern = q.old; text = u.old }; sizes = y.old }) }
    ensures { (result.first ≡ result.second) × (◌≡◌ {A = Lent} (record { strings = record { alphabet = a.new; pattern = p.new; text = t.new }; sizes = z.new }) (record { strings = record { alphabet = b.new; pattern = q.new; text = u.new }; sizes = y.new })) }
{
    let first = breakwarp_read_sheet(s, a, p, t, z);
    let second = breakwarp_read_sheet(s, b, q, u, y);
    Twice { first, second }
}

fn write_sheet_twice(
    k: u32,
    alphabet: &[u8],
    p: &[u32],
    t: &[u32],
    a: &mut [u8],
    b: &mut [u8],
) -> Twice<i64>
    requires { a.old ≡ b.old }
    ensures { (result.first ≡ result.second) × (a.new ≡ b.new) }
{
    let first = breakwarp_write_sheet(k, alphabet, p, t, a);
    let second = breakwarp_write_sheet(k, alphabet, p, t, b);
    Twice { first, second }
}

fn report_twice(s: &[u8], a: &mut [u8], b: &mut [u8]) -> Twice<i64>
    requires { a.old ≡ b.old }
    ensures { (result.first ≡ result.second) × (a.new ≡ b.new) }
{
    let first = breakwarp_report(s, a);
    let second = breakwarp_report(s, b);
    Twice { first, second }
}
