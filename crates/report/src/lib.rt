// The report of a search sheet: its values first, then their bytes.
#![tactic(auto)]

pub mod c;
mod twice;
pub mod values;

ghost use Rattle.std.specs.Prelude.{◌≡◌, ◌≤◌, ◌<◌, length, Ok};
ghost use Rattle.inputs.specs.Refusals.{verdict};
ghost use Rattle.codes.specs.Codes.{wrote_of};
ghost use Rattle.reportbytes.specs.Bytes.{bytes_of};
ghost use Rattle.report.specs.Values.{values_of};
ghost use Rattle.report.specs.Report.{fitting, BytesInto, ReportInto, Enough};

use crate::values::searched;
use inputs::refusal::{Kind, Refusal};
use letters::letter::Letter;
use letters::strings::{Pattern, Text};
use reportbytes::lengths::report_len;
use reportbytes::lines::put_report;
use sheet::Sheet;

#[derive(Clone, Copy, Debug, PartialEq, Eq)]
pub struct Report {
    pub len: usize,
}

impl Report {
    // No report of an accepted sheet is longer.
    pub const MAX_BYTES: usize = 40000;

    // It as a number, which the C header has too.
    pub fn pinned() -> usize
        ensures { result ≡ 40000 }
    {
        Report::MAX_BYTES
    }
}

// The report of strings that the reader accepted. Their text is shorter than a sheet, so all starts are listed.
fn of_strings(k: u32, p: &[u32], t: &[u32], out: &mut [u8]) -> Result<usize, Refusal>
    requires { (verdict Letter.MAX_K Pattern.MAX_M Text.MAX_N k p.now t.now ≡ Ok tt) × (length t.now < Sheet.MAX_BYTES) }
    ensures { BytesInto (fitting (length out.old) (bytes_of (values_of p.now t.now))) out.old result out.new }
{
    let mut starts = [0u32; Sheet::MAX_BYTES];
    let works = searched(k, p, t, &mut starts);
    let listed = &starts[..works[0].total];
    if out.len() < report_len(&works, listed) {
        return Err(Kind::Room.at(0));
    }
    Ok(put_report(out, &works, listed))
}

// The report of a sheet.
pub fn of_sheet(sheet: &[u8], out: &mut [u8]) -> Result<usize, Refusal>
    ensures promise { ReportInto Sheet.MAX_BYTES Letter.MAX_K Pattern.MAX_M Text.MAX_N sheet.now out.old result out.new }
    ensures enough { Enough Report.MAX_BYTES out.old result }
    ensures small { wrote_of result ≤ Report.MAX_BYTES }
{
    let mut alphabet = [0u8; Letter::MAX_K as usize];
    let mut pattern = [0u32; Pattern::MAX_M];
    let mut text = [0u32; Sheet::MAX_BYTES];
    let sizes = sheet::read(sheet, &mut alphabet, &mut pattern, &mut text)?;
    of_strings(sizes.k, &pattern[..sizes.m], &text[..sizes.n], out)
}
