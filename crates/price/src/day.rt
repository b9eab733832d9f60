//! What a day hands in, as raw numbers, and what comes of it.
ghost use Rattle.std.specs.Prelude.{◌≡◌, Some};
ghost use Rattle.price.specs.Letters.{letter_of};
ghost use Rattle.price.specs.Words.{rule_words, settlement_words};

use std::fmt;
use terms::ranges::Price;

/// A trade: the second of the day at which it was made, its price and its contracts.
#[derive(Clone, Copy, PartialEq, Eq, Debug)]
pub struct Trade {
    pub second: u64,
    pub price: u64,
    pub count: u64,
}

/// The prices between which a quotation counts.
#[derive(Clone, Copy, PartialEq, Eq, Debug)]
pub struct Band {
    pub low: u64,
    pub high: u64,
}

/// The session around the trades: its last second, the band, and what was quoted or set, where it was.
#[derive(Clone, Copy, PartialEq, Eq, Debug)]
pub struct Session {
    pub last: u64,
    pub band: Band,
    pub bid: Option<u64>,
    pub ask: Option<u64>,
    pub committee: Option<u64>,
}

/// The rules by which a price is found, in the order in which they are tried.
#[derive(Clone, Copy, PartialEq, Eq, Debug)]
pub enum Rule {
    /// a: the mean of the last 1,800 seconds, unless five times its volume is less than the day's.
    LastHalfHour,
    /// b: the same with 3,600 seconds.
    LastHour,
    /// c: the mean of the day.
    WholeDay,
    /// d: without trades, the mean of best bid and best ask, if both are there and in the band.
    Quotations,
    /// e: the price that the committee set.
    Committee,
}

impl Rule {
    /// The rule's letter, a to e.
    pub fn letter(self) -> char
        ensures { result ≡ letter_of self }
    {
        match self {
            Rule::LastHalfHour => 'a',
            Rule::LastHour => 'b',
            Rule::WholeDay => 'c',
            Rule::Quotations => 'd',
            Rule::Committee => 'e',
        }
    }
}

impl fmt::Display for Rule {
    ghost output = { λ rule. Some (rule_words rule) };

    fn fmt<W: fmt::Write>(&self, f: &mut fmt::Formatter<W>) -> fmt::Result {
        f.write_str(match self {
            Rule::LastHalfHour => "the mean of the last half hour",
            Rule::LastHour => "the mean of the last hour",
            Rule::WholeDay => "the mean of the day",
            Rule::Quotations => "the mean of best bid and best ask",
            Rule::Committee => "the committee's price",
        })
    }
}

/// A settlement price, and the rule that gave it.
#[derive(Clone, Copy, PartialEq, Eq, Debug)]
pub struct Settlement {
    pub price: Price,
    pub rule: Rule,
}

impl fmt::Display for Settlement {
    ghost output = { λ settlement. Some (settlement_words settlement) };

    fn fmt<W: fmt::Write>(&self, f: &mut fmt::Formatter<W>) -> fmt::Result {
        let price = self.price.get();
        let rule = self.rule;
        let letter = rule.letter();
        write!(f, "settlement price: {price}, by rule {letter}, {rule}")
    }
}
