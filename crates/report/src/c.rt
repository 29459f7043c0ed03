// The report for C.
ghost use Rattle.report.specs.Report.{ReportCalled};

use crate::of_sheet;
use codes::written_number;
use letters::letter::Letter;
use letters::strings::{Pattern, Text};
use sheet::Sheet;

// The report's length in bytes, or minus the refusal's number alone.
pub fn report_called(s: &[u8], out: &mut [u8]) -> i64
    ensures { ReportCalled Sheet.MAX_BYTES Letter.MAX_K Pattern.MAX_M Text.MAX_N s.now out.old result out.new }
{
    written_number(of_sheet(s, out))
}
