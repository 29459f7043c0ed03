// The bytes of a sheet, one line after another.
ghost use Rattle.std.specs.Prelude.{◌≡◌, [], ◌∷◌, ◌++◌, ◌+◌, ◌^◌, ◌≤◌, ◌<◌, length};
ghost use Rattle.lent.specs.Over.{over, Stored};
ghost use Rattle.sheet.specs.Bytes.{sheet_bytes};
ghost use Rattle.writer.specs.Writer.{Spellable};

use decimal::bytes::put_ended;
use lent::{put_byte, put_bytes};
use spelling::{line_len, put_line};

// Writes the alphabet line.
fn put_alphabet(alphabet: &[u8], out: &mut [u8], at: usize) -> usize
    requires { at + length (alphabet.now ++ (10 ∷ [])) ≤ length out.old }
    ensures { Stored out.old at (alphabet.now ++ (10 ∷ [])) result out.new }
{
    let e = put_bytes(out, at, alphabet);
    put_byte(out, e, b'\n')
}

// How many bytes the sheet has.
pub(crate) fn sheet_len(alphabet: &[u8], pattern: &[u32], text: &[u32]) -> usize
    requires { Spellable alphabet.now pattern.now text.now × (length (sheet_bytes alphabet.now pattern.now text.now) < 2 ^ 64) }
    ensures { result ≡ length (sheet_bytes alphabet.now pattern.now text.now) }
{
    let a = decimal::len(alphabet.len() as u64) + 1 + alphabet.len() + 1;
    let p = decimal::len(pattern.len() as u64) + 1 + line_len(alphabet, pattern);
    let t = decimal::len(text.len() as u64) + 1 + line_len(alphabet, text);
    a + p + t
}

// Writes the bytes of a sheet.
pub(crate) fn put_sheet(alphabet: &[u8], pattern: &[u32], text: &[u32], out: &mut [u8])
    requires { Spellable alphabet.now pattern.now text.now × (length (sheet_bytes alphabet.now pattern.now text.now) ≤ length out.old) }
    ensures { out.new ≡ over (sheet_bytes alphabet.now pattern.now text.now) out.old }
{
    let a = put_ended(out, 0, alphabet.len() as u64, 10);
    let b = put_alphabet(alphabet, out, a);
    let c = put_ended(out, b, pattern.len() as u64, 10);
    let d = put_line(alphabet, pattern, out, c);
    let e = put_ended(out, d, text.len() as u64, 10);
    put_line(alphabet, text, out, e);
}
