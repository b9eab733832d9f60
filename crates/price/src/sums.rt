//! Contracts and money summed over trades, in a window and in the day, and their mean.
ghost use Rattle.std.specs.Prelude.{◌≡◌, ◌+◌, ◌*◌, ◌<◌, ◌≤◌, if◌then◌else◌, None, nat_le};
ghost use Rattle.std.specs.Option.{option_map};
ghost use Rattle.price.specs.Means.{mean, nearest};

use terms::ranges::{Count, Price};

/// A trade whose numbers are in range: how many seconds before the session's last, its price and its contracts.
#[derive(Clone, Copy)]
pub(crate) struct Deal {
    pub ago: u64,
    pub price: Price,
    pub count: Count,
}

/// The contracts of some trades of one day, and their money; at most 4,096 trades of 1,000 contracts.
#[derive(Clone, Copy)]
pub(crate) struct Sum {
    pub volume: u64,
    pub value: u64,
    ghost most: { volume ≤ 4096000 },
    ghost low: { volume ≤ value },
    ghost high: { value ≤ volume * 1000000000 },
}

/// The trades of the last half hour, of the last hour and of the whole day.
#[derive(Clone, Copy)]
pub(crate) struct Sums {
    pub half: Sum,
    pub hour: Sum,
    pub day: Sum,
}

impl Sum {
    /// No trades. A struct with a ghost field has no derived `Default`, and an impl of it is longer than this.
    pub(crate) const NONE: Sum = Sum {
        volume: 0,
        value: 0,
    };

    /// One contract at each of two prices.
    pub(crate) fn pair(bid: Price, ask: Price) -> Self
        ensures volume { result.volume ≡ 2 }
        ensures value { result.value ≡ bid.value + ask.value }
    {
        let value = bid.get() + ask.get();
        Sum { volume: 2, value }
    }

    /// With one trade more.
    pub(crate) fn with(self, deal: Deal) -> Self
        requires { self.volume + deal.count.value ≤ 4096000 }
        ensures volume { result.volume ≡ self.volume + deal.count.value }
        ensures value { result.value ≡ self.value + deal.price.value * deal.count.value }
    {
        let volume = self.volume + deal.count.get();
        let value = self.value + deal.price.get() * deal.count.get();
        Sum { volume, value }
    }

    /// With one trade more, if it lies at most so many seconds back.
    pub(crate) fn with_recent(self, window: u64, deal: Deal) -> Self
        requires { self.volume + deal.count.value ≤ 4096000 }
        ensures volume { result.volume ≡ self.volume + (if nat_le deal.ago window then deal.count.value else 0) }
        ensures value { result.value ≡ self.value + (if nat_le deal.ago window then deal.price.value * deal.count.value else 0) }
    {
        if deal.ago <= window {
            self.with(deal)
        } else {
            self
        }
    }

    /// The mean of these trades, unless five times their volume is less than the day's.
    pub(crate) fn mean_of_fifth(self, day: Sum) -> Option<Price>
        ensures { option_map (λ p. p.value) result ≡ (if nat_le day.volume (5 * self.volume) then mean self.value self.volume else None) }
    {
        if 5 * self.volume < day.volume {
            None
        } else {
            self.mean()
        }
    }

    /// The mean price to the nearest rial, halves up; absent without volume.
    pub(crate) fn mean(self) -> Option<Price>
        ensures { option_map (λ p. p.value) result ≡ mean self.value self.volume }
    {
        if self.volume == 0 {
            return None;
        }
        Price::new(self.nearest())
    }

    /// Value by volume to the nearest whole number, halves up.
    fn nearest(self) -> u64
        requires { 0 < self.volume }
        ensures { result ≡ nearest self.value self.volume }
    {
        (2 * self.value + self.volume) / (2 * self.volume)
    }
}
