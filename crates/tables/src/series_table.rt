//! The series of a room.
ghost use Rattle.std.specs.Prelude.{◌≡◌, length};

use crate::series::{Series, Specification};
use terms::ranges::{Price, SeriesNumber};

/// The series of a room: a row for each, that of number 1 first.
#[derive(Clone, Copy)]
pub struct SeriesTable {
    pub rows: [Series; 24],
    ghost all: { length rows ≡ 24 },
}

#[tactic(auto, using(crate::proofs::Rows::changes))]
impl SeriesTable {
    ghost use Rattle.std.specs.Prelude.{◌≡◌, ◌-◌, map, replicate, slice_set};
    ghost use Rattle.steps.specs.State.{all_series, no_series};
    ghost use Rattle.steps.specs.Steps.{settled_at, ended_at, cleared};
    ghost use Rattle.tables.specs.Views.{series_of, all_series_of, series_at, listed};

    // No `Default`, as at `Position::none`.
    /// Nothing listed.
    #[tactic(auto, unfolding(steps::specs::State::all_series))]
    pub fn new() -> SeriesTable
        ensures { all_series_of result ≡ replicate all_series no_series }
    {
        SeriesTable {
            rows: [Series::unlisted(); 24],
        }
    }

    /// The series of a number.
    pub fn get(&self, series: SeriesNumber) -> &Series
        ensures { series_of result.now ≡ series_at self.now series.value }
    {
        &self.rows[series.index()]
    }

    // Each change has its method here too: see `Customers`.
    /// Opens a series.
    pub fn list(&mut self, series: SeriesNumber, specification: Specification)
        ensures { all_series_of self.new ≡ slice_set (all_series_of self.old) (series.value - 1) (listed specification.size.value specification.limit.value specification.price.value specification.fee.value) }
    {
        let rows = &mut self.rows;
        rows[series.index()].list(specification);
    }

    /// Marks a series at a price.
    pub fn mark(&mut self, series: SeriesNumber, price: Price)
        ensures { all_series_of self.new ≡ slice_set (all_series_of self.old) (series.value - 1) (settled_at (series_at self.old series.value) price.value) }
    {
        let rows = &mut self.rows;
        rows[series.index()].mark(price);
    }

    /// Marks a series for the last time, and ends it.
    pub fn end(&mut self, series: SeriesNumber, price: Price)
        ensures { all_series_of self.new ≡ slice_set (all_series_of self.old) (series.value - 1) (ended_at (series_at self.old series.value) price.value) }
    {
        let rows = &mut self.rows;
        rows[series.index()].end(price);
    }

    /// Takes the mark of every series away.
    pub fn clear_marks(&mut self)
        ensures { all_series_of self.new ≡ map cleared (all_series_of self.old) }
    {
        for series in self.rows.iter_mut() {
            series.clear();
        }
    }
}
