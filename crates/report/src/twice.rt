// The report made twice.
ghost use Rattle.std.specs.Prelude.{◌≡◌};

use crate::of_sheet;
use inputs::refusal::Refusal;
use inputs::twice::Twice;

fn of_sheet_twice(sheet: &[u8], a: &mut [u8], b: &mut [u8]) -> Twice<Result<usize, Refusal>>
    requires { a.old ≡ b.old }
    ensures { (result.first ≡ result.second) × (a.new ≡ b.new) }
{
    let first = of_sheet(sheet, a);
    let second = of_sheet(sheet, b);
    Twice { first, second }
}
