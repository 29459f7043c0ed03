// The count line: 1 to 5 digits, no leading 0 except "0" itself, then LF.
ghost use Rattle.std.specs.Prelude.{◌≡◌, ◌≤◌, EachIndex, IsTrue, length, drop, slice_index};
ghost use Rattle.std.specs.Char.{is_ascii_digit};
ghost use Rattle.decimal.specs.Decimal.{front_digits, value};
ghost use Rattle.decimal.specs.CountLine.{right_count, count_at};

// A count line: its number and the place after it.
#[derive(Clone, Copy, Debug, PartialEq, Eq)]
pub struct Counted {
    pub number: usize,
    pub next: usize,
}

// How many digits stand in front.
fn count_digits(line: &[u8]) -> usize
    ensures { result ≡ length (front_digits line.now) }
{
    line.iter().take_while(|b| b.is_ascii_digit()).count()
}

// The number that digits write.
fn value_of(digits: &[u8]) -> usize
    requires digits { EachIndex digits.now (λ i. IsTrue (is_ascii_digit (slice_index digits.now i))) }
    requires few { length digits.now ≤ 5 }
    ensures { result ≡ value 0 digits.now }
{
    let mut v: usize = 0;
    for b in digits {
        v = v * 10 + usize::from(b - b'0');
    }
    v
}

// Whether a line begins with a right count of n digits.
fn is_right(line: &[u8], n: usize) -> bool
    requires { n ≤ length line.now }
    ensures { result ≡ right_count line.now n }
{
    let ended = n < line.len() && line[n] == b'\n';
    0 < n && n <= 5 && ended && !(1 < n && line[0] == b'0')
}

// Reads the count line at a place, where it is well-formed.
pub fn read_count(sheet: &[u8], from: usize) -> Option<Counted>
    requires { from ≤ length sheet.now }
    ensures { result ≡ count_at from (drop from sheet.now) }
{
    let line = &sheet[from..];
    let n = count_digits(line);
    if !is_right(line, n) {
        return None;
    }
    Some(Counted {
        number: value_of(&line[..n]),
        next: from + n + 1,
    })
}
