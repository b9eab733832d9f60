//! A line of the sheet: a code of two bytes, and the rest by its call.
ghost use Rattle.std.specs.Prelude.{◌≡◌, IfOk, Ok};
ghost use Rattle.sheet.specs.Lines.{blank, entry_said, field_of, ended, fields_of, unlent, kind_said, coded_said, line_said, written_of, ReadsLine};

use crate::kind::{Fields, Kind};
use crate::number::{TooNarrow, read_number};
use crate::row::row;
use terms::call::Call;
use terms::fault::Fault;

/// How many bytes each field after the code has.
const WIDTHS: Fields<usize> = Fields {
    first: 5,
    second: 5,
    series: 3,
    count: 5,
    price: 11,
    amount: 18,
};

fn is_blank(field: &[u8]) -> bool
    ensures { result ≡ blank field.now }
{
    field.iter().all(|b| *b == b' ')
}

/// What the field at a place says: its number if it is used, and nothing if it is not.
fn read_field(place: u32, used: bool, field: &[u8]) -> Result<Option<u64>, Fault>
    ensures { result ≡ entry_said place used field.now }
{
    // `used` is no flag of a number: it is the table's word on a text that is still to be read.
    if used {
        let number = read_number(field).ok_or(Fault::Field { place })?;
        Ok(Some(number))
    } else if is_blank(field) {
        Ok(None)
    } else {
        Err(Fault::Field { place })
    }
}

/// The field at a place, and what stands after it. A text that ends within the field has it ill-formed.
fn take_field(
    place: u32,
    width: usize,
    used: bool,
    text: &[u8],
) -> Result<(Option<u64>, &[u8]), Fault>
    ensures { unlent result ≡ field_of place width used text.now }
{
    let (field, rest) = text.split_at_checked(width).ok_or(Fault::Field { place })?;
    let entry = read_field(place, used, field)?;
    Ok((entry, rest))
}

/// The end of a line: a newline, and nothing after it.
fn read_end(text: &[u8]) -> Result<(), Fault>
    ensures { result ≡ ended text.now }
{
    match text {
        [b'\n'] => Ok(()),
        _ => Err(Fault::Field { place: 8 }),
    }
}

/// The fields after the code, in turn, and the line's end.
fn read_fields(uses: Fields<bool>, text: &[u8]) -> Result<Fields<Option<u64>>, Fault>
    ensures { result ≡ fields_of uses text.now }
{
    // One by one, since each goes where its name says: a loop over columns would number them.
    let (first, text) = take_field(2, WIDTHS.first, uses.first, text)?;
    let (second, text) = take_field(3, WIDTHS.second, uses.second, text)?;
    let (series, text) = take_field(4, WIDTHS.series, uses.series, text)?;
    let (count, text) = take_field(5, WIDTHS.count, uses.count, text)?;
    let (price, text) = take_field(6, WIDTHS.price, uses.price, text)?;
    let (amount, text) = take_field(7, WIDTHS.amount, uses.amount, text)?;
    read_end(text)?;
    Ok(Fields {
        first,
        second,
        series,
        count,
        price,
        amount,
    })
}

/// The kind of call that a code names.
fn read_kind(tens: u8, units: u8) -> Result<Kind, Fault>
    ensures { result ≡ kind_said tens units }
{
    let code = read_number(&[tens, units]).ok_or(Fault::Field { place: 1 })?;
    Kind::try_from(code)
}

/// The call that a code names, from what stands after it.
fn read_coded(tens: u8, units: u8, rest: &[u8]) -> Result<Call, Fault>
    ensures { result ≡ coded_said tens units rest.now }
{
    let kind = read_kind(tens, units)?;
    let fields = read_fields(kind.uses(), rest)?;
    Ok(kind.call(fields))
}

/// The call that a line asks for. A line that ends too soon has that field ill-formed, and one that is too long has no end.
#[tactic(auto, using(std::proofs::lemmas::Grind::common_steps, crate::proofs::Lines::reads_line))]
pub fn read_line(line: &[u8]) -> Result<Call, Fault>
    ensures value { result ≡ line_said line.now }
    ensures writing { ReadsLine line.now result }
{
    match line {
        [tens, units, rest @ ..] => read_coded(*tens, *units, rest),
        _ => Err(Fault::Field { place: 1 }),
    }
}

/// The line of a call, if its numbers fit their fields. It is read as that call.
#[tactic(auto, using(crate::proofs::Lines::line_written_of))]
pub fn write_call(call: Call) -> Result<[u8; 50], TooNarrow>
    ensures value { result ≡ written_of call }
    ensures back { IfOk result (λ line. line_said line ≡ Ok call) }
{
    let kind = Kind::from(call);
    let fields = Fields::from(call);
    row(&[
        (2, Some(u64::from(kind))),
        (WIDTHS.first, fields.first),
        (WIDTHS.second, fields.second),
        (WIDTHS.series, fields.series),
        (WIDTHS.count, fields.count),
        (WIDTHS.price, fields.price),
        (WIDTHS.amount, fields.amount),
    ])
}
