// The shared sets for C.
ghost use Rattle.reasons.specs.Reasons.{SharedCalled};

use codes::written_code;
use letters::letter::Letter;
use letters::strings::{Pattern, Text};

// How many sets were written, or minus the refusal; the sets in lent memory.
pub fn called(k: u32, p: &[u32], t: &[u32], start: usize, sets: &mut [u32]) -> i64
    ensures { SharedCalled Letter.MAX_K Pattern.MAX_M Text.MAX_N k p.now t.now start sets.old result sets.new }
{
    written_code(crate::shared_at(k, p, t, start, sets))
}
