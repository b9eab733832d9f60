//! One pass over the trades of a day: each is tested, and summed into the day and the windows that it lies in.
ghost use Rattle.std.specs.Prelude.{◌≡◌, ◌+◌, ◌-◌, ◌<◌, ◌≤◌, true, false, length, MatchOption};
ghost use Rattle.terms.specs.declared.fault.Fault.TheVariants.{PriceInput};
ghost use Rattle.price.specs.Prices.{trade_fits};
ghost use Rattle.price.specs.Tally.{Tallied, Grown};

use crate::day::Trade;
use crate::sums::{Deal, Sum, Sums};
use terms::fault::Fault;
use terms::ranges::{Count, Price, Second};

/// The windows of the rules, in seconds.
const HALF_HOUR: u64 = 1_800;

const HOUR: u64 = 3_600;

impl Trade {
    /// The trade in types that know their ranges; none where a number is out of range or the session was over.
    fn checked(&self, last: Second) -> Option<Deal>
        ensures { MatchOption result (trade_fits last.value self.now ≡ false) (λ d. (trade_fits last.value self.now ≡ true) × (d.ago ≡ last.value - self.now.second) × (d.price.value ≡ self.now.price) × (d.count.value ≡ self.now.count)) }
    {
        let price = Price::new(self.price)?;
        let count = Count::new(self.count)?;
        let second = Second::new(self.second)?;
        let ago = last.get().checked_sub(second.get())?;
        Some(Deal { ago, price, count })
    }
}

impl Sums {
    /// No trades, in no window: a constant, since `Sum` has no `Default`.
    const NONE: Sums = Sums {
        half: Sum::NONE,
        hour: Sum::NONE,
        day: Sum::NONE,
    };

    // Asked of each window: a fact that the windows lie within the day takes more lines than it saves.
    fn with(self, deal: Deal) -> Self
        requires half { self.half.volume + deal.count.value ≤ 4096000 }
        requires hour { self.hour.volume + deal.count.value ≤ 4096000 }
        requires day { self.day.volume + deal.count.value ≤ 4096000 }
        ensures { Grown self deal result }
    {
        Sums {
            half: self.half.with_recent(HALF_HOUR, deal),
            hour: self.hour.with_recent(HOUR, deal),
            day: self.day.with(deal),
        }
    }
}

/// The fault of the trade at this index: its place is counted from 1.
fn fault_at(index: usize) -> Fault
    requires { index < 4096 }
    ensures { result ≡ PriceInput (index + 1) }
{
    Fault::PriceInput {
        trade: index as u32 + 1,
    }
}

/// The sums of a day's trades, or the fault of the first one that is out of range.
pub(crate) fn tally(trades: &[Trade], last: Second) -> Result<Sums, Fault>
    requires { length trades.now ≤ 4096 }
    ensures { Tallied last.value trades.now result }
{
    let mut sums = Sums::NONE;
    for (i, trade) in trades.iter().enumerate() {
        let deal = trade.checked(last).ok_or(fault_at(i))?;
        sums = sums.with(deal);
    }
    Ok(sums)
}
