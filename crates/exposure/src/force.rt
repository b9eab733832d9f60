//! The least count that a forced close takes.
ghost use Rattle.std.specs.Prelude.{◌≡◌, ◌-◌, ◌≤◌, min, pos, slice_index_or, unsigned_abs};
ghost use Rattle.steps.specs.Deals.{least};
ghost use Rattle.tables.specs.Views.{all_series_of, series_at};
ghost use Rattle.exposure.specs.Forced.{posted, suffices as suffices_for, suffices_beside};

use crate::deal::{deal, lacks};
use crate::margins::Valuation;
use margin::rule::MarginRule;
use tables::position::Position;
use tables::positions::Positions;
use terms::ranges::{Count, Price, SeriesNumber};

// A position that is to be closed, and what stays the same whatever the count.
#[derive(Drop)]
struct Closing<'a, R: MarginRule> {
    valuation: &'a Valuation<'a, R>,
    series: SeriesNumber,
    held: Position,
    price: Price,
    balance: i64,
    // The initial margin of the customer's other positions.
    others: u64,
    ghost bounded: { others ≤ 24000000000000000 },
}

impl<'a, R: MarginRule> Closing<'a, R> {
    // What the customer is posted: it sells a long position, and buys a short one back.
    fn share(&self, count: Count) -> i64
        ensures { result ≡ posted (series_at self.now.valuation.now.series.now self.now.series.value) self.now.held.contracts self.now.price.value count.value }
    {
        let shares = deal(self.valuation.series.get(self.series), count, self.price);
        if self.held.is_long() {
            shares.seller
        } else {
            shares.buyer
        }
    }

    // Whether the balance then reaches the initial margin of what is left.
    fn suffices(&self, count: Count) -> bool
        requires { count.value ≤ unsigned_abs self.now.held.contracts }
        ensures { result ≡ suffices_beside (R.MarginRule.asked self.now.valuation.now.rule.now) self.now.others self.now.series.value (series_at self.now.valuation.now.series.now self.now.series.value) self.now.held.contracts self.now.balance self.now.price.value count.value }
    {
        let left = self.held.count() - count.get();
        let (initial, _) = self.valuation.part(self.series, left);
        !lacks(self.balance, self.share(count), self.others + initial)
    }
}

// How many can be closed: no more than the offer and the position.
fn closable(offer: Count, held: Position) -> u64
    ensures { result ≡ min offer.value (unsigned_abs held.contracts) }
{
    offer.get().min(held.count())
}

impl<'a, R: MarginRule> Valuation<'a, R> {
    /// The least count, up to the offer and the position, that brings a customer to its initial margin; all of that where none does.
    pub fn least_count(
        &self,
        positions: &Positions,
        series: SeriesNumber,
        balance: i64,
        offer: Count,
        price: Price,
    ) -> Count
        ensures { result.value ≡ least (suffices_for (R.MarginRule.asked self.now.rule.now) (all_series_of self.now.series.now) positions.now.held series.value balance price.value) (min offer.value (unsigned_abs (slice_index_or positions.now.held (series.value - 1) (pos 0)))) }
    {
        let held = positions.get(series);
        let mut rest = *positions;
        rest.put(series, Position::none());
        let closing = Closing {
            valuation: self,
            series,
            held,
            price,
            balance,
            others: self.margins(&rest).0,
        };
        let most = closable(offer, held);
        // No `find`: its closure could not require, as `suffices` does, that no more is closed than is held.
        for n in 1..most {
            let count = Count::new(n).unwrap();
            if closing.suffices(count) {
                return count;
            }
        }
        // The last count is taken whether it suffices or not.
        Count::new(most.max(1)).unwrap()
    }
}
