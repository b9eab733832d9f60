//! Clears a day: reads its sheet from standard input and prints the answers, over a table book in which every balance is
//! 0 and a margin of 5,000 rials a contract, 3,500 at least, in every series.
#![tactic(auto)]

use book::TableBook;
use clearing::Room;
use day_sheet::clear_sheet;
use margin::flat::Flat;
use margin::tariff::Tariff;
use sheet::cuts::LONGEST;
use std::io::{Read, Write};

fn main(rt: HostRuntime) -> anyhow::Result<()> {
    let alloc = rt.alloc();
    // One byte more than a sheet may have tells a longer one apart.
    let mut sheet = Vec::new(alloc);
    let _ = rt.stdin().take(LONGEST as u64 + 1).read_to_end(&mut sheet)?;
    let rule = Flat::uniform(Tariff::new(5_000, 3_500)?);
    let mut book = TableBook::new();
    let mut room = Room::new(&mut book, &rule);
    let answers = clear_sheet(&mut room, sheet.as_slice(), alloc)?;
    rt.stdout().write_all(answers.as_slice())?;
    Ok(())
}
