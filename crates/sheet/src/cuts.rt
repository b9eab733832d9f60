//! A sheet cut into lines.
ghost use Rattle.std.specs.Prelude.{◌≡◌, length, IfOk};
ghost use Rattle.std.specs.Option.{option_map};
ghost use Rattle.sheet.specs.Cuts.{count_of, line_at, Cut, InSheet};

use terms::fault::Fault;

/// The bytes of a line.
pub const WIDTH: usize = 50;

/// The longest sheet, in bytes.
pub const LONGEST: usize = 50_000;

/// How many lines a sheet has.
pub fn count_lines(sheet: &[u8]) -> Result<usize, Fault>
    ensures value { result ≡ count_of (length sheet.now) }
    ensures cut { IfOk result (λ n. Cut n sheet.now) }
{
    if sheet.len() > LONGEST || sheet.len() % WIDTH != 0 {
        return Err(Fault::SheetSize);
    }
    Ok(sheet.len() / WIDTH)
}

/// The line of a sheet at an index from 0, if the sheet has it whole.
#[tactic(auto, using(crate::proofs::Pieces::line_is))]
pub fn line_at(sheet: &[u8], index: usize) -> Option<&[u8]>
    ensures value { option_map (λ x. x.now) result ≡ line_at index sheet.now }
    ensures part { InSheet index sheet.now (option_map (λ x. x.now) result) }
{
    if index >= sheet.len() / WIDTH {
        return None;
    }
    let from = index * WIDTH;
    Some(&sheet[from..from + WIDTH])
}
