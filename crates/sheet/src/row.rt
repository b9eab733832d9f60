//! Columns side by side in a row of bytes.
ghost use Rattle.std.specs.Prelude.{◌≡◌, ℕ, ◌≤◌, length, is_ok, sum_by, Option, IfOk, replicate};
ghost use Rattle.std.specs.List.{list_all};
ghost use Rattle.sheet.specs.Rows.{entry_of, entry_fits, row_of, row_written};

use crate::number::{TooNarrow, write_digits};

/// Writes a field of spaces: its number, or nothing more if it has none.
fn write_entry(field: &mut [u8], entry: Option<u64>) -> Result<(), TooNarrow>
    ensures shown { field.old ≡ replicate (length field.old) 32 → field.new ≡ entry_of (length field.old) entry }
    ensures whole { is_ok result ≡ entry_fits (length field.old) entry }
{
    match entry {
        Some(number) => write_digits(field, number),
        None => Ok(()),
    }
}

/// Writes columns one after another over a row of spaces, and newlines after them.
fn write_columns(bytes: &mut [u8], columns: &[(usize, Option<u64>)]) -> Result<(), TooNarrow>
    requires { sum_by (λ (c : ℕ × Option ℕ). c.0) columns.now ≤ length bytes.old }
    ensures shown { bytes.old ≡ replicate (length bytes.old) 32 → IfOk result (λ _. bytes.new ≡ row_of (length bytes.old) columns.now) }
    ensures whole { is_ok result ≡ list_all (λ (c : ℕ × Option ℕ). entry_fits c.0 c.1) columns.now }
{
    let [(width, entry), later @ ..] = columns else {
        bytes.fill(b'\n');
        return Ok(());
    };
    let (field, rest) = bytes.split_at_mut(*width);
    write_entry(field, *entry)?;
    // By recursion: after a `for` that moves `rest` on, which was tried, a proof knows nothing of the row.
    write_columns(rest, later)
}

/// A row of columns, each with its width and its number if it has one, and newlines after them.
pub(crate) fn row<const N: usize>(columns: &[(usize, Option<u64>)]) -> Result<[u8; N], TooNarrow>
    requires { sum_by (λ (c : ℕ × Option ℕ). c.0) columns.now ≤ N }
    ensures { result ≡ row_written N columns.now }
{
    let mut row = [b' '; N];
    write_columns(&mut row, columns)?;
    Ok(row)
}
