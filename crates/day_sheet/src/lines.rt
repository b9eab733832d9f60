//! One line of a sheet.
ghost use Rattle.std.specs.Prelude.{◌≡◌, ◌+◌, ◌≤◌, true, ◌++◌, vec_len, vec_capacity};
ghost use Rattle.sheet.specs.Printed.{answered, columns_of, fitting};
ghost use Rattle.day_sheet.specs.Clears.{Carried};

use book::Book;
use clearing::Room;
use margin::rule::MarginRule;
use sheet::line::read_line;
use sheet::printed::PrintedLine;
use terms::call::Answer;
use terms::fault::Fault;

// Makes the call that a line asks for, or refuses the line.
pub(crate) fn carry_line<'b, 'r, B: Book, R: MarginRule>(
    room: &mut Room<'b, 'r, B, R>,
    line: &[u8],
) -> Result<Answer, Fault>
    ensures { Carried B.Book R.MarginRule room.old line.now result room.new }
{
    let call = read_line(line)?;
    room.make(call)
}

// Prints the outcome of a line, for which there is memory.
pub(crate) fn print_line(page: &mut Vec<u8>, line: u32, outcome: Result<Answer, Fault>)
    requires memory { vec_len page.old + 34 ≤ vec_capacity page.old }
    requires fit { fitting (answered line outcome) ≡ true }
    ensures items { page.new.items ≡ page.old.items ++ columns_of (answered line outcome) }
    ensures len { vec_len page.new ≡ vec_len page.old + 34 }
    ensures capacity { vec_capacity page.old ≤ vec_capacity page.new }
{
    let bytes = PrintedLine::new(line, outcome).bytes().unwrap();
    page.extend_from_slice(&bytes).unwrap();
}
