// What is printed, made twice.
ghost use Rattle.std.specs.Prelude.{◌≡◌};

use crate::of_sheet;
use inputs::twice::Twice;
use report::Report;
use sheet::Sheet;

fn of_sheet_twice(
    sheet: &[u8; Sheet::MAX_BYTES + 1],
    n: usize,
    a: &mut [u8; Report::MAX_BYTES],
    b: &mut [u8; Report::MAX_BYTES],
) -> Twice<usize>
    requires { a.old ≡ b.old }
    ensures { (result.first ≡ result.second) × (a.new ≡ b.new) }
{
    let first = of_sheet(sheet, n, a);
    let second = of_sheet(sheet, n, b);
    Twice { first, second }
}
