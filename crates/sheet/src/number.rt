//! A number in a column: to the right, with spaces before it.
ghost use Rattle.std.specs.Prelude.{◌≡◌, length, is_ok, codes, replicate, Some};
ghost use Rattle.sheet.specs.Numbers.{glyph, column_of, fits, digit_of, number_of, word_of, Reads};

use std::error::Error;
use std::fmt;

/// A number has more digits than its column has places.
#[derive(Clone, Copy, PartialEq, Eq, Debug)]
pub struct TooNarrow;

impl fmt::Display for TooNarrow {
    ghost output = { λ _. Some (codes "a number does not fit its field") };

    fn fmt<W: fmt::Write>(&self, f: &mut fmt::Formatter<W>) -> fmt::Result {
        f.write_str("a number does not fit its field")
    }
}

impl Error for TooNarrow {}

/// The byte at one place, from what is left of a number before the places after it.
fn glyph_at(left: u64, last: bool) -> u8
    ensures { result ≡ glyph last left }
{
    if left == 0 && !last {
        b' '
    } else {
        b'0' + (left % 10) as u8
    }
}

/// Writes a number over a column of spaces. If it does not fit, the column has its last digits.
// Apart from `write_number`, for a row, which is spaces already: a turn a digit is left to do, and not one a place.
pub(crate) fn write_digits(column: &mut [u8], number: u64) -> Result<(), TooNarrow>
    ensures shown { column.old ≡ replicate (length column.old) 32 → column.new ≡ column_of (length column.old) number }
    ensures whole { is_ok result ≡ fits (length column.old) number }
{
    let width = column.len();
    let mut left = number;
    // By index: of bytes that are written through `iter_mut().rev()` a proof knows their number alone.
    for at in (0..width).rev() {
        column[at] = glyph_at(left, at + 1 == width);
        left /= 10;
        if left == 0 {
            return Ok(());
        }
    }
    if left == 0 { Ok(()) } else { Err(TooNarrow) }
}

/// Writes a number into a column of any width. If it does not fit, the column has its last digits.
pub fn write_number(column: &mut [u8], number: u64) -> Result<(), TooNarrow>
    ensures shown { column.new ≡ column_of (length column.old) number }
    ensures whole { is_ok result ≡ fits (length column.old) number }
{
    column.fill(b' ');
    write_digits(column, number)
}

/// The value of a digit.
fn digit(b: u8) -> Option<u64>
    ensures { result ≡ digit_of b }
{
    b.is_ascii_digit().then(|| u64::from(b - b'0'))
}

/// The number of at most 18 digits.
fn word(digits: &[u8]) -> Option<u64>
    ensures { result ≡ word_of digits.now }
{
    if digits.len() > 18 {
        return None;
    }
    let mut so_far = 0;
    for b in digits {
        so_far = so_far * 10 + digit(*b)?;
    }
    Some(so_far)
}

/// The number that a column of any width shows, if it shows one of at most 18 digits just as it would be written: spaces,
/// then its digits with no nought before them, but for 0 itself.
#[tactic(auto, using(std::proofs::lemmas::Grind::common_steps, crate::proofs::Columns::reads_number))]
pub fn read_number(column: &[u8]) -> Option<u64>
    ensures value { result ≡ number_of column.now }
    ensures writing { Reads column.now result }
{
    match column {
        [b' ', rest @ ..] => read_number(rest),
        [b'0'] => Some(0),
        [] | [b'0', ..] => None,
        digits => word(digits),
    }
}
