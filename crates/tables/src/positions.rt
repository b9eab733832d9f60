//! The positions of a customer.
ghost use Rattle.std.specs.Prelude.{◌≡◌, ℕ, ◌-◌, ◌≤◌, length, replicate, pos, slice_index_or, slice_set, unsigned_abs};

use crate::position::Position;
use terms::ranges::SeriesNumber;

/// A position in each of the series.
#[derive(Clone, Copy)]
pub struct Positions {
    // Numbers and no `Position`s: the clearing steps speak of a list of numbers, and this is it.
    held: [i64; 24],
    ghost all: { length held ≡ 24 },
    ghost small: { (k : ℕ) → unsigned_abs (slice_index_or held k (pos 0)) ≤ 1000 },
}

impl Positions {
    // No `Default`, as at `Position::none`.
    /// No position in any series.
    pub fn new() -> Positions
        ensures { result.held ≡ replicate 24 (pos 0) }
    {
        Positions { held: [0; 24] }
    }

    /// The position in a series.
    pub fn get(&self, series: SeriesNumber) -> Position
        ensures { result.contracts ≡ slice_index_or self.now.held (series.value - 1) (pos 0) }
    {
        Position {
            contracts: self.held[series.index()],
        }
    }

    /// Replaces the position in a series.
    pub fn put(&mut self, series: SeriesNumber, position: Position)
        ensures { self.new.held ≡ slice_set self.old.held (series.value - 1) position.contracts }
    {
        self.held[series.index()] = position.contracts;
    }
}
