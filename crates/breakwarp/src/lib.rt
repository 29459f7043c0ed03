// The library for C: each function is a shell over one call. It keeps no state and uses no heap.
#![tactic(auto)]

mod twice;

ghost use Rattle.brute.specs.Brute.{brute_run};
ghost use Rattle.kmp.specs.Kmp.{kmp_run};
ghost use Rattle.bm.specs.Bm.{bm_run};
ghost use Rattle.sunday.specs.Sunday.{sunday_run};
ghost use Rattle.shiftand.specs.ShiftAnd.{shiftand_run};
ghost use Rattle.hybrid.specs.Hybrid.{hybrid_run};
ghost use Rattle.codes.specs.Called.{Called};
ghost use Rattle.first.specs.Called.{FirstCalled};
ghost use Rattle.bound.specs.Called.{BoundCalled, ChoiceCalled};
ghost use Rattle.reasons.specs.Reasons.{SharedCalled};
ghost use Rattle.products.specs.Calls.{ToCalled, FromCalled, MeetCalled};
ghost use Rattle.sheet.specs.Called.{ReadCalled};
ghost use Rattle.writer.specs.Writer.{WriteCalled};
ghost use Rattle.report.specs.Report.{ReportCalled};

use bm::Bm;
use bound::c::choice_called;
use brute::Brute;
use codes::search::called_through;
use hybrid::Hybrid;
use kmp::Kmp;
use letters::letter::Letter;
use letters::strings::{Pattern, Text};
use products::c::{from_called, meet_called, to_called};
use products::product::Product;
use report::c::report_called;
use sheet::Sheet;
use sheet::c::read_called;
use shiftand::ShiftAnd;
use sunday::Sunday;
use writer::c::write_called;

#[unsafe(no_mangle)]
pub extern "C" fn breakwarp_brute(
    k: u32,
    p: &[u32],
    t: &[u32],
    hits: &mut [u32],
    work: &mut [u64],
) -> i64
    ensures { Called brute_run Letter.MAX_K Pattern.MAX_M Text.MAX_N k p.now t.now hits.old work.old result hits.new work.new }
{
    called_through::<Brute>(k, p, t, hits, work)
}

#[unsafe(no_mangle)]
pub extern "C" fn breakwarp_kmp(
    k: u32,
    p: &[u32],
    t: &[u32],
    hits: &mut [u32],
    work: &mut [u64],
) -> i64
    ensures { Called kmp_run Letter.MAX_K Pattern.MAX_M Text.MAX_N k p.now t.now hits.old work.old result hits.new work.new }
{
    called_through::<Kmp>(k, p, t, hits, work)
}

#[unsafe(no_mangle)]
pub extern "C" fn breakwarp_bm(
    k: u32,
    p: &[u32],
    t: &[u32],
    hits: &mut [u32],
    work: &mut [u64],
) -> i64
    ensures { Called bm_run Letter.MAX_K Pattern.MAX_M Text.MAX_N k p.now t.now hits.old work.old result hits.new work.new }
{
    called_through::<Bm>(k, p, t, hits, work)
}

#[unsafe(no_mangle)]
pub extern "C" fn breakwarp_sunday(
    k: u32,
    p: &[u32],
    t: &[u32],
    hits: &mut [u32],
    work: &mut [u64],
) -> i64
    ensures { Called sunday_run Letter.MAX_K Pattern.MAX_M Text.MAX_N k p.now t.now hits.old work.old result hits.new work.new }
{
    called_through::<Sunday>(k, p, t, hits, work)
}

#[unsafe(no_mangle)]
pub extern "C" fn breakwarp_shiftand(
    k: u32,
    p: &[u32],
    t: &[u32],
    hits: &mut [u32],
    work: &mut [u64],
) -> i64
    ensures { Called shiftand_run Letter.MAX_K Pattern.MAX_M Text.MAX_N k p.now t.now hits.old work.old result hits.new work.new }
{
    called_through::<ShiftAnd>(k, p, t, hits, work)
}

#[unsafe(no_mangle)]
pub extern "C" fn breakwarp_hybrid(
    k: u32,
    p: &[u32],
    t: &[u32],
    hits: &mut [u32],
    work: &mut [u64],
) -> i64
    ensures { Called hybrid_run Letter.MAX_K Pattern.MAX_M Text.MAX_N k p.now t.now hits.old work.old result hits.new work.new }
{
    called_through::<Hybrid>(k, p, t, hits, work)
}

#[unsafe(no_mangle)]
pub extern "C" fn breakwarp_first(k: u32, p: &[u32], t: &[u32], found: &mut [u64]) -> i64
    ensures { FirstCalled Letter.MAX_K Pattern.MAX_M Text.MAX_N k p.now t.now found.old result found.new }
{
    first::c::called(k, p, t, found)
}

#[unsafe(no_mangle)]
pub extern "C" fn breakwarp_bound(k: u32, p: &[u32], t: &[u32], hits: &mut [u32]) -> i64
    ensures { BoundCalled Letter.MAX_K Pattern.MAX_M Text.MAX_N k p.now t.now hits.old result hits.new }
{
    bound::c::called(k, p, t, hits)
}

#[unsafe(no_mangle)]
pub extern "C" fn breakwarp_bound_choice(
    k: u32,
    p: &[u32],
    t: &[u32],
    start: usize,
    choice: &mut [u32],
) -> i64
    ensures { ChoiceCalled Letter.MAX_K Pattern.MAX_M Text.MAX_N k p.now t.now start choice.old result choice.new }
{
    choice_called(k, p, t, start, choice)
}

#[unsafe(no_mangle)]
pub extern "C" fn breakwarp_reasons(
    k: u32,
    p: &[u32],
    t: &[u32],
    start: usize,
    sets: &mut [u32],
) -> i64
    ensures { SharedCalled Letter.MAX_K Pattern.MAX_M Text.MAX_N k p.now t.now start sets.old result sets.new }
{
    reasons::c::called(k, p, t, start, sets)
}

#[unsafe(no_mangle)]
pub extern "C" fn breakwarp_to_products(k: u32, from: &[u32], to: &mut [u32]) -> i64
    ensures { ToCalled Letter.MAX_K Product.MAX_K Text.MAX_N k from.now to.old result to.new }
{
    to_called(k, from, to)
}

#[unsafe(no_mangle)]
pub extern "C" fn breakwarp_from_products(k: u32, from: &[u32], to: &mut [u32]) -> i64
    ensures { FromCalled Letter.MAX_K Product.MAX_K Text.MAX_N k from.now to.old result to.new }
{
    from_called(k, from, to)
}

#[unsafe(no_mangle)]
pub extern "C" fn breakwarp_products_meet(k: u32, a: u32, b: u32) -> i64
    ensures { MeetCalled Letter.MAX_K Product.MAX_K k a b result }
{
    meet_called(k, a, b)
}

#[unsafe(no_mangle)]
pub extern "C" fn breakwarp_read_sheet(
    s: &[u8],
    alphabet: &mut [u8],
    p: &mut [u32],
    t: &mut [u32],
    sizes: &mut [u64],
) -> i64
    ensures { ReadCalled Sheet.MAX_BYTES Letter.MAX_K Pattern.MAX_M Text.MAX_N s.now (record { alphabet = alphabet.old; pattern = p.old; text = t.old }) sizes.old result (record { alphabet = alphabet.new; pattern = p.new; text = t.new }) sizes.new }
{
    read_called(s, alphabet, p, t, sizes)
}

#[unsafe(no_mangle)]
pub extern "C" fn breakwarp_write_sheet(
    k: u32,
    alphabet: &[u8],
    p: &[u32],
    t: &[u32],
    out: &mut [u8],
) -> i64
    ensures { WriteCalled Sheet.MAX_BYTES Letter.MAX_K Pattern.MAX_M Text.MAX_N k alphabet.now p.now t.now out.old result out.new }
{
    write_called(k, alphabet, p, t, out)
}

#[unsafe(no_mangle)]
pub extern "C" fn breakwarp_report(s: &[u8], out: &mut [u8]) -> i64
    ensures { ReportCalled Sheet.MAX_BYTES Letter.MAX_K Pattern.MAX_M Text.MAX_N s.now out.old result out.new }
{
    report_called(s, out)
}
