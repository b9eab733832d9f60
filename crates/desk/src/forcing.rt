//! Forced closes of the positions of customers under notice.
ghost use Rattle.std.specs.Prelude.{◌≡◌, ◌≤◌, unsigned_abs};
ghost use Rattle.terms.specs.declared.call.Call.TheVariants.{Force};
ghost use Rattle.steps.specs.State.{position};
ghost use Rattle.steps.specs.Deals.{forced, force_deal};
ghost use Rattle.steps.specs.Refusals.{room_refusals, counterparty as counterparty_refusals};
ghost use Rattle.exposure.specs.Forced.{closed as closed_by};
ghost use Rattle.desk.specs.Bargains.{Agreed, closing_of, unforced};
ghost use Rattle.desk.specs.Moves.{Granted};
ghost use Rattle.desk.specs.Served.{Served};
ghost use Rattle.desk.specs.Views.{state};

use crate::bargain::{Bargain, Lot, Side, Terms};
use crate::desk::Desk;
use book::Book;
use margin::rule::MarginRule;
use steps::Phase;
use tables::position::Position;
use terms::fault::Fault;
use terms::ranges::{Count, CustomerNumber, SeriesNumber};

// What is left of a position once so many contracts of it are closed. That it has so many is asked for here and where the
// deal is made, since only `forced_count` finds it, and for the position that the customer has.
fn closed(held: Position, count: Count) -> Position
    requires { count.value ≤ unsigned_abs held.contracts }
    ensures { result.contracts ≡ closed_by held.contracts count.value }
{
    let count = count.get() as i64;
    if held.is_long() {
        Position {
            contracts: held.get() - count,
        }
    } else {
        Position {
            contracts: held.get() + count,
        }
    }
}

impl<'b, 'r, B: Book, R: MarginRule> Desk<'b, 'r, B, R> {
    // The position of a customer that can be forced: it is under notice and holds contracts there.
    fn check_forced(
        &self,
        customer: CustomerNumber,
        series: SeriesNumber,
    ) -> Result<Position, Fault>
        ensures { Granted result (unforced (state B.Book R.MarginRule self.now) customer.value series.value) (λ p. (p.contracts ≡ position (state B.Book R.MarginRule self.now) customer.value series.value) × (1 ≤ unsigned_abs p.contracts)) }
    {
        let row = self.customers.get(customer);
        let held = row.positions.get(series);
        if !row.notice || held.count() == 0 {
            return Err(Fault::NothingToForce {
                account: customer.get() as u32,
            });
        }
        Ok(held)
    }

    // How many contracts are closed: the count of these terms is the offer.
    fn forced_count(&self, terms: &Terms) -> Count
        ensures { result.value ≡ forced (state B.Book R.MarginRule self.now) terms.now.one.value terms.now.lot.series.value terms.now.lot.count.value terms.now.lot.price.value }
    {
        let row = self.customers.get(terms.one);
        self.valuation().least_count(
            &row.positions,
            terms.lot.series,
            self.book.balance(terms.one.get() as u32),
            terms.lot.count,
            terms.lot.price,
        )
    }

    // The deal that closes so many contracts of one's position: the other buys a long one, and sells a short one back.
    fn check_closing(&self, terms: &Terms, held: Position, count: Count) -> Result<Bargain, Fault>
        requires held { held.contracts ≡ position (state B.Book R.MarginRule self.now) terms.now.one.value terms.now.lot.series.value }
        requires count { count.value ≤ unsigned_abs held.contracts }
        ensures { Agreed (state B.Book R.MarginRule self.now) (closing_of (state B.Book R.MarginRule self.now) terms.now count.value) (counterparty_refusals (state B.Book R.MarginRule self.now) terms.now.other.value terms.now.lot.series.value (closing_of (state B.Book R.MarginRule self.now) terms.now count.value)) result }
    {
        let (one, other) = (terms.one, terms.other);
        let lot = Lot { count, ..terms.lot };
        let left = closed(held, count);
        if held.is_long() {
            let buyer_after = self.check_side(Side::Buyer, other, lot)?;
            Ok(Bargain {
                buyer: other,
                seller: one,
                lot,
                buyer_after,
                seller_after: left,
            })
        } else {
            let seller_after = self.check_side(Side::Seller, other, lot)?;
            Ok(Bargain {
                buyer: one,
                seller: other,
                lot,
                buyer_after: left,
                seller_after,
            })
        }
    }

    fn check_force(
        &self,
        customer: u32,
        counterparty: u32,
        series: u32,
        offer: u64,
        price: u64,
    ) -> Result<Bargain, Fault>
        ensures { Agreed (state B.Book R.MarginRule self.now) (force_deal (state B.Book R.MarginRule self.now) customer counterparty series offer price) (room_refusals (state B.Book R.MarginRule self.now) (Force customer counterparty series offer price)) result }
    {
        let phases = (Phase::Late, Phase::Shut);
        let terms = self.check_terms(customer, counterparty, series, offer, price, phases)?;
        let held = self.check_forced(terms.one, terms.lot.series)?;
        let count = self.forced_count(&terms);
        self.check_closing(&terms, held, count)
    }

    /// Closes the least part of a customer's position that brings it to its initial margin, at most what is offered.
    /// Answers how many contracts that was.
    pub fn force(
        &mut self,
        customer: u32,
        counterparty: u32,
        series: u32,
        offer: u64,
        price: u64,
    ) -> Result<u64, Fault>
        ensures { Served B.Book R.MarginRule self.old (Force customer counterparty series offer price) result self.new }
    {
        let bargain = self.check_force(customer, counterparty, series, offer, price)?;
        self.strike(bargain)?;
        Ok(bargain.lot.count.get())
    }
}
