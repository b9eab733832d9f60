//! Series are marked to market, and end.
ghost use Rattle.std.specs.Prelude.{◌≡◌, ◌-◌, map, pos, ◌-ℤ◌, ◌*ℤ◌, if◌then◌else◌, slice_index_or};
ghost use Rattle.std.specs.List.{range_with_len};
ghost use Rattle.terms.specs.declared.call.Call.TheVariants.{Mark, Final};
ghost use Rattle.terms.specs.declared.fault.Fault.TheVariants.{Marking};
ghost use Rattle.steps.specs.State.{is_customer, house, series_at};
ghost use Rattle.steps.specs.Refusals.{first, refuse, room_refusals};
ghost use Rattle.tables.specs.Views.{customer_at, series_of};
ghost use Rattle.desk.specs.Moves.{Granted};
ghost use Rattle.desk.specs.Served.{Served};
ghost use Rattle.desk.specs.Views.{state};

use crate::desk::Desk;
use crate::numbers::{in_range, series_number};
use book::{Book, NetAmounts, post_all};
use exposure::deal::revalued;
use margin::rule::MarginRule;
use steps::Phase;
use tables::customers::Customers;
use tables::series::Series;
use terms::fault::Fault;
use terms::ranges::{Price, SeriesNumber};

// What each holder is posted when a series is marked at a price, and nothing for the other accounts.
fn for_holders(
    customers: &Customers,
    number: SeriesNumber,
    series: &Series,
    price: Price,
) -> NetAmounts
    ensures { result ≡ map (λ n. (if is_customer n then slice_index_or (customer_at customers.now n).positions (number.value - 1) (pos 0) *ℤ pos (series_of series.now).size *ℤ (pos price.value -ℤ pos (series_of series.now).price) else pos 0)) (range_with_len 1 house) }
{
    let mut amounts = [0; 64];
    for (at, customer) in customers.rows.iter().enumerate() {
        amounts[at] = revalued(customer.positions.get(number), series, price);
    }
    amounts
}

impl<'b, 'r, B: Book, R: MarginRule> Desk<'b, 'r, B, R> {
    fn check_unmarked(&self, series: SeriesNumber) -> Result<(), Fault>
        ensures { Granted result (refuse (series_at (state B.Book R.MarginRule self.now) series.value).marked (Marking series.value)) (λ _. Unit {0}) }
    {
        let row = self.series.get(series);
        if row.marked {
            Err(Fault::Marking {
                series: series.get() as u32,
            })
        } else {
            Ok(())
        }
    }

    // The same for mark and for final.
    fn check_mark(&self, series: u32, price: u64) -> Result<(SeriesNumber, Price), Fault>
        ensures { Granted result (first (room_refusals (state B.Book R.MarginRule self.now) (Mark series price))) (λ x. (x.0.value ≡ series) × (x.1.value ≡ price)) }
    {
        let number = series_number(series)?;
        let at = in_range(price)?;
        self.in_phase((Phase::Shut, Phase::Shut))?;
        self.deals_in(number)?;
        self.check_unmarked(number)?;
        Ok((number, at))
    }

    // What `mark` and `end` share stays in each: a method of it would have to say what a desk is that has posted and not yet marked.

    /// Posts to each holder what its position gained or lost since the standing price; the new price stands.
    pub fn mark(&mut self, series: u32, price: u64) -> Result<u64, Fault>
        ensures { Served B.Book R.MarginRule self.old (Mark series price) result self.new }
    {
        let (number, at) = self.check_mark(series, price)?;
        let amounts = for_holders(&self.customers, number, self.series.get(number), at);
        post_all(self.book, &amounts)?;
        self.series.mark(number, at);
        Ok(0)
    }

    /// Marks a series for the last time; then nobody holds a position in it, and it has ended.
    pub fn end(&mut self, series: u32, price: u64) -> Result<u64, Fault>
        ensures { Served B.Book R.MarginRule self.old (Final series price) result self.new }
    {
        let (number, at) = self.check_mark(series, price)?;
        let amounts = for_holders(&self.customers, number, self.series.get(number), at);
        post_all(self.book, &amounts)?;
        self.series.end(number, at);
        self.customers.close_out(number);
        Ok(0)
    }
}
