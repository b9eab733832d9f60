//! The margins of a customer's positions.
ghost use Rattle.std.specs.Prelude.{◌≡◌, ◌≤◌};
ghost use Rattle.steps.specs.State.{all_series};
ghost use Rattle.steps.specs.Margins.{both, part, asks};
ghost use Rattle.exposure.specs.Bounds.{FitsAll};
ghost use Rattle.tables.specs.Views.{all_series_of, series_at};

use margin::rule::MarginRule;
use tables::positions::Positions;
use tables::series_table::SeriesTable;
use terms::ranges::SeriesNumber;

/// What positions are valued by: a margin rule, and the series with the prices that stand.
#[derive(Drop)]
pub struct Valuation<'a, R: MarginRule> {
    pub rule: &'a R,
    pub series: &'a SeriesTable,
}

// Two initial and two minimum margins, each pair together.
fn sum(a: (u64, u64), b: (u64, u64)) -> (u64, u64)
    requires a { FitsAll a }
    requires b { FitsAll b }
    ensures { result ≡ both a b }
{
    (a.0 + b.0, a.1 + b.1)
}

impl<'a, R: MarginRule> Valuation<'a, R> {
    // What so many contracts of a series ask: nothing where there are none, and the rule is not asked.
    pub(crate) fn part(&self, number: SeriesNumber, count: u64) -> (u64, u64)
        ensures { result ≡ part (R.MarginRule.asked self.now.rule.now) number.value (series_at self.now.series.now number.value) count }
    {
        if count == 0 {
            return (0, 0);
        }
        let series = self.series.get(number);
        // `as`: no `From` makes a `u32` of a `u64`, and the check proves that nothing is lost.
        self.rule.margins(
            number.get() as u32,
            series.size.get(),
            series.price.get(),
            count,
        )
    }

    /// The initial and the minimum margin of all positions of a customer.
    pub fn margins(&self, positions: &Positions) -> (u64, u64)
        ensures value { result ≡ asks (R.MarginRule.asked self.now.rule.now) (all_series_of self.now.series.now) positions.now.held all_series }
        ensures bounded { result.0 ≤ 24000000000000000 }
        ensures ordered { result.1 ≤ result.0 }
    {
        let mut all = (0, 0);
        // No `fold`: its closure would not know that the sums so far are small.
        for n in 1..=24 {
            let number = SeriesNumber::new(n).unwrap();
            all = sum(all, self.part(number, positions.get(number).count()));
        }
        all
    }
}
