//! What is refused, and why.
ghost use Rattle.std.specs.Prelude.{◌≡◌, Some};
ghost use Rattle.terms.specs.Faults.{layer_of, number_of, place_of};
ghost use Rattle.terms.specs.Words.{layer_words, fault_words};

use std::error::Error;
use std::fmt;

/// The part of the clearing that refuses.
#[derive(Clone, Copy, PartialEq, Eq, Debug)]
pub enum Layer {
    Sheet,
    Price,
    Book,
    Room,
}

impl fmt::Display for Layer {
    ghost output = { λ layer. Some (layer_words layer) };

    fn fmt<W: fmt::Write>(&self, f: &mut fmt::Formatter<W>) -> fmt::Result {
        f.write_str(match self {
            Layer::Sheet => "sheet",
            Layer::Price => "price",
            Layer::Book => "book",
            Layer::Room => "room",
        })
    }
}

/// A refusal. Each case has its layer, its number and its place.
#[derive(Clone, Copy, PartialEq, Eq, Debug)]
pub enum Fault {
    /// A sheet is too long, or its length is no whole number of lines.
    SheetSize,
    /// A field of a line is ill-formed: 1 to 7, or 8 for the line's end.
    Field { place: u32 },
    /// A line's code names no call.
    Code,
    /// An account of a kind that the call does not take.
    AccountKind { account: u32 },
    /// There is no such series.
    NoSeries { series: u32 },
    /// A number is out of its range.
    OutOfRange,
    /// Both parties are the same.
    SameParties { account: u32 },
    // No Option for the trade: the place that is printed is 0 there too.
    /// The input of the settlement price is out of range: in the trade at this place, from 1, or outside the trades, 0.
    PriceInput { trade: u32 },
    /// No rule gives a settlement price.
    NoPrice,
    /// The room is in another phase.
    WrongPhase,
    /// The customer is enrolled already, or not enrolled.
    Enrolment { customer: u32 },
    /// The series was listed already, or is not listed or has ended.
    Listing { series: u32 },
    /// The series is marked already, or not marked yet.
    Marking { series: u32 },
    /// A party under notice does not close.
    UnderNotice { account: u32 },
    /// A party that does not close would pass the limit.
    PastLimit { account: u32 },
    /// It would end below its initial margin, or below 0.
    BelowMargin { account: u32 },
    /// A customer that cannot be forced: not under notice, or without position there.
    NothingToForce { account: u32 },
    /// There is no debt to cover, or the broker has nothing.
    NothingToCover { account: u32 },
    /// A posting would take this account's balance out of its bounds.
    OutOfBounds { account: u32 },
    /// The book has too few lines left.
    NoLines,
    /// The room cannot open: this account's balance is not 0.
    NotEmpty { account: u32 },
}

impl Fault {
    pub fn layer(self) -> Layer
        ensures { result ≡ layer_of self }
    {
        match self {
            Fault::SheetSize | Fault::Field { .. } | Fault::Code => Layer::Sheet,
            Fault::PriceInput { .. } | Fault::NoPrice => Layer::Price,
            Fault::OutOfBounds { .. } | Fault::NoLines => Layer::Book,
            _ => Layer::Room,
        }
    }

    pub fn number(self) -> u32
        ensures { result ≡ number_of self }
    {
        match self {
            Fault::SheetSize => 1,
            Fault::Field { .. } => 2,
            Fault::Code => 3,
            Fault::AccountKind { .. } => 4,
            Fault::NoSeries { .. } => 5,
            Fault::OutOfRange => 6,
            Fault::SameParties { .. } => 7,
            Fault::PriceInput { .. } => 8,
            Fault::NoPrice => 9,
            Fault::WrongPhase => 21,
            Fault::Enrolment { .. } => 22,
            Fault::Listing { .. } => 23,
            Fault::Marking { .. } => 24,
            Fault::UnderNotice { .. } => 25,
            Fault::PastLimit { .. } => 26,
            Fault::BelowMargin { .. } => 27,
            Fault::NothingToForce { .. } => 28,
            Fault::NothingToCover { .. } => 29,
            Fault::OutOfBounds { .. } => 30,
            Fault::NoLines => 31,
            Fault::NotEmpty { .. } => 32,
        }
    }

    /// What the refusal is about: the number of an account, a series, a trade or a field; 0 where it is about none.
    pub fn place(self) -> u32
        ensures { result ≡ place_of self }
    {
        match self {
            Fault::Field { place } => place,
            Fault::Code => 1,
            Fault::PriceInput { trade } => trade,
            Fault::Enrolment { customer } => customer,
            Fault::NoSeries { series } | Fault::Listing { series } | Fault::Marking { series } =>
                series,
            Fault::AccountKind { account }
            | Fault::SameParties { account }
            | Fault::UnderNotice { account }
            | Fault::PastLimit { account }
            | Fault::BelowMargin { account }
            | Fault::NothingToForce { account }
            | Fault::NothingToCover { account }
            | Fault::OutOfBounds { account }
            | Fault::NotEmpty { account } => account,
            Fault::SheetSize
            | Fault::OutOfRange
            | Fault::NoPrice
            | Fault::WrongPhase
            | Fault::NoLines => 0,
        }
    }
}

impl fmt::Display for Fault {
    ghost output = { λ fault. Some (fault_words fault) };

    fn fmt<W: fmt::Write>(&self, f: &mut fmt::Formatter<W>) -> fmt::Result {
        let number = self.number();
        let layer = self.layer();
        let place = self.place();
        write!(f, "refused: number {number}, layer {layer}, place {place}")
    }
}

impl Error for Fault {}
