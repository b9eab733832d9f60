//! A series.
ghost use Rattle.std.specs.Prelude.{◌≡◌};
ghost use Rattle.steps.specs.State.{no_series};
ghost use Rattle.steps.specs.Steps.{settled_at, ended_at, cleared};
ghost use Rattle.tables.specs.Views.{series_of, listed};

use steps::Stage;
use terms::ranges::{Count, Fee, Price, Ranged};

/// What a series is listed with.
#[derive(Clone, Copy, PartialEq, Eq, Debug)]
pub struct Specification {
    pub size: Count,
    pub limit: Count,
    pub price: Price,
    pub fee: Fee,
}

/// A series: what it was listed with, the price that stands, and whether it was marked since the last notices.
/// Every number is 0 until the series is listed.
// No Option of a listing: one that has ended keeps its numbers, and the clearing steps speak of 0 where there are none.
#[derive(Clone, Copy)]
pub struct Series {
    pub stage: Stage,
    pub size: Ranged<0, 1_000>,
    pub limit: Ranged<0, 1_000>,
    pub fee: Fee,
    pub price: Ranged<0, 1_000_000_000>,
    pub marked: bool,
}

impl Series {
    // No `Default`, since `Ranged` has none.
    /// A series that was never listed.
    pub fn unlisted() -> Series
        ensures { series_of result ≡ no_series }
    {
        Series {
            stage: Stage::Unlisted,
            size: Ranged::nought(),
            limit: Ranged::nought(),
            fee: Ranged::nought(),
            price: Ranged::nought(),
            marked: false,
        }
    }

    /// Opens the series, unmarked, at a price that stands from now on.
    pub fn list(&mut self, specification: Specification)
        ensures { series_of self.new ≡ listed specification.size.value specification.limit.value specification.price.value specification.fee.value }
    {
        self.stage = Stage::Open;
        self.size = specification.size.from_nought();
        self.limit = specification.limit.from_nought();
        self.fee = specification.fee;
        self.price = specification.price.from_nought();
        self.clear();
    }

    /// Marks the series at a price, which stands from now on.
    pub fn mark(&mut self, price: Price)
        ensures { series_of self.new ≡ settled_at (series_of self.old) price.value }
    {
        self.price = price.from_nought();
        self.marked = true;
    }

    /// Marks the series for the last time, and ends it.
    pub fn end(&mut self, price: Price)
        ensures { series_of self.new ≡ ended_at (series_of self.old) price.value }
    {
        self.mark(price);
        self.stage = Stage::Ended;
    }

    /// Takes the mark away.
    pub fn clear(&mut self)
        ensures { series_of self.new ≡ cleared (series_of self.old) }
    {
        self.marked = false;
    }
}
