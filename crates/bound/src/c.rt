// The bound mode for C.
ghost use Rattle.bound.specs.Called.{BoundCalled, ChoiceCalled};

use codes::{refusal_code, written_code};
use letters::letter::Letter;
use letters::strings::{Pattern, Text};

// The total or minus the refusal, with the starts in lent memory.
pub fn called(k: u32, p: &[u32], t: &[u32], hits: &mut [u32]) -> i64
    ensures { BoundCalled Letter.MAX_K Pattern.MAX_M Text.MAX_N k p.now t.now hits.old result hits.new }
{
    written_code(crate::search(k, p, t, hits))
}

// 1 where the start is bound-listed, with the choice in lent memory; 0 where it is not; or minus the refusal.
pub fn choice_called(k: u32, p: &[u32], t: &[u32], start: usize, choice: &mut [u32]) -> i64
    ensures { ChoiceCalled Letter.MAX_K Pattern.MAX_M Text.MAX_N k p.now t.now start choice.old result choice.new }
{
    // As `products::c::meet_called`, three lines: one function for both would take their must-fail edits out of these crates.
    match crate::choice::choose(k, p, t, start, choice) {
        Err(r) => refusal_code(r),
        Ok(true) => 1,
        Ok(false) => 0,
    }
}
