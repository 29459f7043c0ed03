// What the program prints: the report of a sheet, or the line of its refusal.
#![tactic(auto)]

mod twice;

ghost use Rattle.std.specs.Prelude.{◌≡◌, ◌≤◌, length, take};
ghost use Rattle.lent.specs.Over.{over};
ghost use Rattle.inputs.specs.Numbers.{number_of};
ghost use Rattle.printed.specs.Printed.{refusal_line, PrintInto, NoMore};

use decimal::bytes::put_ended;
use inputs::refusal::Refusal;
use lent::put_bytes;
use letters::letter::Letter;
use letters::strings::{Pattern, Text};
use report::Report;
use sheet::Sheet;

// The line of a refusal. It has 11 bytes of words and two numbers of 20 digits at most, each with the byte after it. The bytes go into the lent list by
// four puts: a Display of its own and a formatter over that list would state the same bytes twice, and be no plainer.
fn put_refusal(out: &mut [u8], r: Refusal) -> usize
    requires { 53 ≤ length out.old }
    ensures { (result ≡ length (refusal_line (number_of r.kind) r.place)) × (out.new ≡ over (refusal_line (number_of r.kind) r.place) out.old) × (result ≤ length out.new) }
{
    let a = put_bytes(out, 0, b"refused ");
    let b = put_ended(out, a, u64::from(u32::from(r.kind)), b' ');
    let c = put_bytes(out, b, b"at ");
    put_ended(out, c, r.place as u64, b'\n')
}

// The bytes for the sheet that the first n bytes of a list are, over the front of the lent list; answers how many. The list and how much of it is
// read, as the clause `all` of `of_sheet` speaks of both.
pub fn of_front(sheet: &[u8], n: usize, out: &mut [u8]) -> usize
    requires { Report.MAX_BYTES ≤ length out.old }
    ensures promise { PrintInto Sheet.MAX_BYTES Letter.MAX_K Pattern.MAX_M Text.MAX_N (take n sheet.now) out.old result out.new }
    ensures within { result ≤ length out.new }
{
    let read = n.min(sheet.len());
    match report::of_sheet(&sheet[..read], out) {
        Ok(len) => len,
        Err(r) => put_refusal(out, r),
    }
}

// The same for a sheet that was read into a list with room for one byte more than the longest sheet has, so that a longer one is seen to be too
// long, and a list that has room for any report.
pub fn of_sheet(
    sheet: &[u8; Sheet::MAX_BYTES + 1],
    n: usize,
    out: &mut [u8; Report::MAX_BYTES],
) -> usize
    ensures promise { PrintInto Sheet.MAX_BYTES Letter.MAX_K Pattern.MAX_M Text.MAX_N (take n sheet.now) out.old result out.new }
    ensures all { NoMore Sheet.MAX_BYTES Letter.MAX_K Pattern.MAX_M Text.MAX_N sheet.now n }
    ensures within { result ≤ length out.new }
{
    of_front(sheet, n, out)
}
