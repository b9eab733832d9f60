//! The rules of the settlement price, in the order in which they are tried.
ghost use Rattle.std.specs.Prelude.{◌≡◌, true, false, length, nat_lt, MatchResult};
ghost use Rattle.std.specs.Option.{option_map};
ghost use Rattle.price.specs.Prices.{banded, quoted, price_if_any, session_fits, first_of, all_rules, settlement, told};
ghost use Rattle.price.specs.Rules.{Stands};
ghost use Rattle.price.specs.Tally.{by_sums, raw, shown};

use crate::day::{Band, Rule, Session, Settlement, Trade};
use crate::sums::{Sum, Sums};
use crate::tally::tally;
use terms::fault::Fault;
use terms::ranges::{Price, Second};

/// The most trades that a day hands in.
const MOST_TRADES: usize = 4_096;

/// A session whose second and prices are in range by their type. Its band was found in range, and does not run backward.
#[derive(Clone, Copy)]
pub(crate) struct CheckedSession {
    pub last: Second,
    pub band: Band,
    pub bid: Option<Price>,
    pub ask: Option<Price>,
    pub committee: Option<Price>,
}

fn too_many(trades: &[Trade]) -> bool
    ensures { result ≡ nat_lt 4096 (length trades.now) }
{
    trades.len() > MOST_TRADES
}

impl Band {
    /// A quotation, if there is one and it lies in the band.
    fn holding(&self, quotation: Option<Price>) -> Option<Price>
        ensures { option_map (λ p. p.value) result ≡ banded self.now (option_map (λ p. p.value) quotation) }
    {
        quotation.filter(|price| (self.low..=self.high).contains(&price.get()))
    }
}

/// A price that may be missing, as one in its range; a fault where it is out of range.
fn price_if_any(rials: Option<u64>) -> Result<Option<Price>, Fault>
    ensures { MatchResult result (λ p. (price_if_any rials ≡ true) × (option_map (λ p. p.value) p ≡ rials)) (λ _. price_if_any rials ≡ false) }
{
    rials.map(Price::try_from).transpose()
}

impl Session {
    /// The session in types that know their ranges; a fault where a number is out of range or the band runs backward.
    fn checked(&self) -> Result<CheckedSession, Fault>
        ensures { MatchResult result (λ s. (session_fits self.now ≡ true) × (raw s ≡ self.now)) (λ _. session_fits self.now ≡ false) }
    {
        let low = Price::try_from(self.band.low)?;
        let high = Price::try_from(self.band.high)?;
        if low > high {
            return Err(Fault::OutOfRange);
        }
        Ok(CheckedSession {
            last: Second::try_from(self.last)?,
            band: self.band,
            bid: price_if_any(self.bid)?,
            ask: price_if_any(self.ask)?,
            committee: price_if_any(self.committee)?,
        })
    }
}

impl CheckedSession {
    /// The mean of best bid and best ask, if both are there and in the band.
    fn quotation(&self) -> Option<Price>
        ensures { option_map (λ p. p.value) result ≡ quoted (raw self.now) }
    {
        let bid = self.band.holding(self.bid)?;
        let ask = self.band.holding(self.ask)?;
        Sum::pair(bid, ask).mean()
    }
}

impl Rule {
    /// All rules, in the order in which they are tried.
    const ALL: [Rule; 5] = [
        Rule::LastHalfHour,
        Rule::LastHour,
        Rule::WholeDay,
        Rule::Quotations,
        Rule::Committee,
    ];

    /// The price that this rule gives, if it applies. Quotations need not ask for trades: with trades the day has a mean,
    /// and that is tried first.
    fn price(self, sums: &Sums, session: &CheckedSession) -> Option<Price>
        ensures { option_map (λ p. p.value) result ≡ by_sums (raw session.now) sums.now self }
    {
        match self {
            Rule::LastHalfHour => sums.half.mean_of_fifth(sums.day),
            Rule::LastHour => sums.hour.mean_of_fifth(sums.day),
            Rule::WholeDay => sums.day.mean(),
            Rule::Quotations => session.quotation(),
            Rule::Committee => session.committee,
        }
    }
}

/// The price of the first rule that applies.
fn first_that_applies(sums: &Sums, session: &CheckedSession) -> Option<Settlement>
    ensures { option_map shown result ≡ first_of (by_sums (raw session.now) sums.now) all_rules }
{
    Rule::ALL.iter().find_map(|rule| {
        let price = rule.price(sums, session)?;
        Some(Settlement { price, rule: *rule })
    })
}

/// The settlement price of a day: that of the first rule that applies.
///
/// Refused are a number out of range, with the place of the first faulty trade or 0 outside the trades, and a day to
/// which no rule applies.
pub fn settlement_price(trades: &[Trade], session: &Session) -> Result<Settlement, Fault>
    ensures answer { told result ≡ settlement session.now trades.now }
    ensures law { Stands session.now trades.now result }
{
    let outside_trades = Fault::PriceInput { trade: 0 };
    let session = session.checked().map_err(|_| outside_trades)?;
    if too_many(trades) {
        return Err(outside_trades);
    }
    let sums = tally(trades, session.last)?;
    first_that_applies(&sums, &session).ok_or(Fault::NoPrice)
}
