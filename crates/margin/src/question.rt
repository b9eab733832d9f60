//! The questions that a margin rule answers.
ghost use Rattle.std.specs.Prelude.{◌≡◌, ◌*◌, ◌≤◌};
ghost use Rattle.std.specs.Option.{option_map};
ghost use Rattle.margin.specs.Laws.{most};
ghost use Rattle.margin.specs.Question.{in_ranges};

use terms::ranges::{Price, Ranged, SeriesNumber};

// Rials for each step of the price.
type Size = Ranged<1, 1_000>;

// Contracts, or none.
type Held = Ranged<0, 1_000>;

// A question in range: so many contracts of a series of this size at this price.
#[derive(Clone, Copy)]
pub(crate) struct Question {
    pub series: SeriesNumber,
    pub size: Size,
    pub price: Price,
    pub count: Held,
}

impl Question {
    // The question of these numbers, if each of them is in its range.
    pub(crate) fn new(series: u32, size: u64, price: u64, count: u64) -> Option<Question>
        ensures { option_map (λ q. (q.series.value, q.size.value, q.price.value, q.count.value)) result ≡ in_ranges series size price count }
    {
        Some(Question {
            series: SeriesNumber::new(u64::from(series))?,
            size: Size::new(size)?,
            price: Price::new(price)?,
            count: Held::new(count)?,
        })
    }

    // What the contracts are worth.
    pub(crate) fn value(self) -> u64
        ensures value { result ≡ self.price.value * self.size.value * self.count.value }
        ensures bounded { result ≤ most }
    {
        self.price.get() * self.size.get() * self.count.get()
    }
}
