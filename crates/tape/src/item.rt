//! What a line of the tape says.
ghost use Rattle.std.specs.Prelude.{◌≡◌, Some};
ghost use Rattle.tape.specs.Names.{name_of, form_of};
ghost use Rattle.tape.specs.Messages.{trouble_words, refusal_words};

use price::day::{Band, Session, Trade};
use std::error::Error;
use std::fmt;

/// The words with which a line begins.
#[derive(Clone, Copy, PartialEq, Eq, Debug)]
pub enum Keyword {
    Last,
    Band,
    Bid,
    Ask,
    Committee,
    Trade,
}

impl Keyword {
    /// The word itself.
    pub fn name(self) -> &'static str
        ensures { result.now ≡ name_of self }
    {
        match self {
            Keyword::Last => "last",
            Keyword::Band => "band",
            Keyword::Bid => "bid",
            Keyword::Ask => "ask",
            Keyword::Committee => "committee",
            Keyword::Trade => "trade",
        }
    }

    /// How a line with this word is written.
    pub fn form(self) -> &'static str
        ensures { result.now ≡ form_of self }
    {
        match self {
            Keyword::Last => "last SECOND",
            Keyword::Band => "band LOW HIGH",
            Keyword::Bid => "bid PRICE",
            Keyword::Ask => "ask PRICE",
            Keyword::Committee => "committee PRICE",
            Keyword::Trade => "trade SECOND PRICE COUNT",
        }
    }
}

impl fmt::Display for Keyword {
    ghost output = { λ keyword. Some (name_of keyword) };

    fn fmt<W: fmt::Write>(&self, f: &mut fmt::Formatter<W>) -> fmt::Result {
        f.write_str(self.name())
    }
}

/// What a line says, unless it is a remark.
#[derive(Clone, Copy)]
pub enum Item {
    Last(u64),
    Band(Band),
    Bid(u64),
    Ask(u64),
    Committee(u64),
    Trade(Trade),
}

/// Why a line is refused.
#[derive(Clone, Copy, PartialEq, Eq, Debug)]
pub enum Trouble {
    /// It begins with no word that is known.
    Keyword,
    /// After the keyword there are not just the numbers that it takes.
    Numbers(Keyword),
    /// What may be said once has been said before.
    Again(Keyword),
}

impl fmt::Display for Trouble {
    ghost output = { λ trouble. Some (trouble_words trouble) };

    fn fmt<W: fmt::Write>(&self, f: &mut fmt::Formatter<W>) -> fmt::Result {
        match *self {
            Trouble::Keyword => f.write_str(
                "a line begins with last, band, bid, ask, committee, trade or #",
            ),
            Trouble::Numbers(keyword) => write!(f, "expected {}", keyword.form()),
            Trouble::Again(keyword) => write!(f, "there is a line with {keyword} before"),
        }
    }
}

impl Error for Trouble {}

/// Why a tape is refused.
#[derive(Clone, Copy, PartialEq, Eq, Debug)]
pub enum Refusal {
    /// A line, counted from 1.
    Line { line: u64, trouble: Trouble },
    /// There is no line with this keyword.
    Missing(Keyword),
    /// There was no memory for the trades.
    Memory,
}

impl fmt::Display for Refusal {
    ghost output = { λ refusal. Some (refusal_words refusal) };

    fn fmt<W: fmt::Write>(&self, f: &mut fmt::Formatter<W>) -> fmt::Result {
        match *self {
            Refusal::Line { line, trouble } => write!(f, "line {line}: {trouble}"),
            Refusal::Missing(keyword) => write!(f, "no line with {keyword}"),
            Refusal::Memory => f.write_str("no memory for the trades"),
        }
    }
}

impl Error for Refusal {}

/// What is said once: all but the trades.
#[derive(Clone, Copy, Default)]
pub struct Header {
    pub last: Option<u64>,
    pub band: Option<Band>,
    pub bid: Option<u64>,
    pub ask: Option<u64>,
    pub committee: Option<u64>,
}

/// A day as a tape tells it.
#[derive(Drop)]
pub struct Day {
    pub trades: Vec<Trade>,
    pub session: Session,
}
