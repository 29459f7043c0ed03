// Reads a search sheet on standard input and prints its report, or the line of its refusal. Where the reading or the writing fails it says so on
// standard error; nothing is printed after a reading that failed.
#![tactic(auto)]

use report::Report;
use sheet::Sheet;
use std::io::{Stderr, Stdout};
use streams::{read_whole, tell, write_whole};

// What is printed for the sheet that the first n bytes of the list are.
fn print(output: &mut Stdout, errors: &mut Stderr, sheet: &[u8; Sheet::MAX_BYTES + 1], n: usize) {
    let mut out = [0u8; Report::MAX_BYTES];
    let len = printed::of_sheet(sheet, n, &mut out);
    if let Err(error) = write_whole(output, &out[..len]) {
        let _ = tell(errors, "search: cannot write", &error);
    }
}

fn main(rt: HostRuntime) {
    let mut errors = rt.stderr();
    let mut sheet = [0u8; Sheet::MAX_BYTES + 1];
    match read_whole(&mut rt.stdin(), &mut sheet) {
        Ok(n) => print(&mut rt.stdout(), &mut errors, &sheet, n),
        Err(error) => {
            let _ = tell(&mut errors, "search: cannot read", &error);
        }
    }
}
