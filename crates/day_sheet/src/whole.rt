//! A whole sheet.
ghost use Rattle.std.specs.Prelude.{◌≡◌, ◌*◌, ◌/◌, ◌≤◌, [], length, vec_len, vec_capacity};
ghost use Rattle.sheet.specs.Cuts.{lines_of};
ghost use Rattle.day_sheet.specs.Clears.{Cleared, SheetCleared};

use crate::lines::{carry_line, print_line};
use book::Book;
use clearing::Room;
use margin::rule::MarginRule;
use sheet::cuts::{WIDTH, count_lines};
use std::alloc::{AllocError, Global};

/// The bytes of a printed line.
const PRINTED: usize = 34;

// Carries the lines out in their order, and prints the outcome of each.
fn clear_lines<'b, 'r, B: Book, R: MarginRule>(
    room: &mut Room<'b, 'r, B, R>,
    sheet: &[u8],
    page: &mut Vec<u8>,
)
    requires few { length sheet.now ≤ 50000 }
    requires empty { (page.old.items ≡ []) × (vec_len page.old ≡ 0) }
    requires memory { length sheet.now / 50 * 34 ≤ vec_capacity page.old }
    ensures { Cleared B.Book R.MarginRule room.old (lines_of (length sheet.now / 50) sheet.now) page.new.items room.new }
{
    for (index, line) in sheet.chunks_exact(WIDTH).enumerate() {
        let outcome = carry_line(room, line);
        print_line(page, index as u32 + 1, outcome);
    }
}

/// Carries a sheet out on a room: an answer for each line in its order, or the one refusal of the sheet.
/// For want of memory nothing is carried out.
pub fn clear_sheet<'b, 'r, B: Book, R: MarginRule>(
    room: &mut Room<'b, 'r, B, R>,
    sheet: &[u8],
    alloc: Global,
) -> Result<Vec<u8>, AllocError>
    ensures { SheetCleared B.Book R.MarginRule room.old sheet.now result room.new }
{
    match count_lines(sheet) {
        Ok(lines) => {
            let mut page = Vec::with_capacity(alloc, lines * PRINTED)?;
            clear_lines(room, sheet, &mut page);
            Ok(page)
        }
        Err(fault) => {
            let mut page = Vec::with_capacity(alloc, PRINTED)?;
            print_line(&mut page, 0, Err(fault));
            Ok(page)
        }
    }
}
