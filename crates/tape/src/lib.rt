//! The tape: a day's trades and quotations as plain text, one item a line.
#![tactic(auto)]

ghost use Rattle.std.specs.Prelude.{◌≡◌};
ghost use Rattle.tape.specs.Tapes.{Gives, Reads, finish};
ghost use Rattle.tape.specs.declared.item.Refusal.TheVariants.{Memory};

use crate::item::{Day, Header, Keyword, Refusal};
use price::day::{Session, Trade};
use std::alloc::{AllocFailed, Global};

pub mod item;
mod lines;
mod words;

const NEWLINE: u8 = b'\n';

impl From<AllocFailed<Trade>> for Refusal {
    ghost from_gives = { λ _ r. r ≡ Memory };

    fn from(_refused: AllocFailed<Trade>) -> Refusal {
        Refusal::Memory
    }
}

/// The day that a tape tells of, or why it is refused: the first line that cannot be read, or what no line says.
pub fn read_day(alloc: Global, text: &[u8]) -> Result<Day, Refusal>
    ensures { Reads text.now result }
{
    let mut header = Header::default();
    let mut trades = Vec::new(alloc);
    for (i, line) in text.split(|b| *b == NEWLINE).enumerate() {
        let trade = header.note_line(line).map_err(|trouble| Refusal::Line {
            line: i as u64 + 1,
            trouble,
        })?;
        if let Some(trade) = trade {
            trades.push(trade)?;
        }
    }
    finished(header, trades)
}

/// A tape to its end has told the last second and the band.
fn finished(header: Header, trades: Vec<Trade>) -> Result<Day, Refusal>
    ensures { Gives (finish header trades.items) result }
{
    let session = Session {
        last: header.last.ok_or(Refusal::Missing(Keyword::Last))?,
        band: header.band.ok_or(Refusal::Missing(Keyword::Band))?,
        bid: header.bid,
        ask: header.ask,
        committee: header.committee,
    };
    Ok(Day { trades, session })
}
