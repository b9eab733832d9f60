//! The tests of a party of a deal.
ghost use Rattle.std.specs.Prelude.{◌≡◌, ◌-◌, not, ◌&&◌, ◌+ℤ◌, nat_lt, slice_set, unsigned_abs};
ghost use Rattle.terms.specs.declared.fault.Fault.TheVariants.{UnderNotice, PastLimit, BelowMargin};
ghost use Rattle.steps.specs.State.{customer as customer_in, series_at, position, balance, under_notice};
ghost use Rattle.steps.specs.Margins.{margins as margins_in, lacks as lacks_margin};
ghost use Rattle.steps.specs.Deals.{closes as closes_by};
ghost use Rattle.steps.specs.Refusals.{first, refuse, party};
ghost use Rattle.desk.specs.Bargains.{of_side, moves_by};
ghost use Rattle.desk.specs.Moves.{Granted};
ghost use Rattle.desk.specs.Views.{state};

use crate::bargain::{Lot, Side};
use crate::desk::Desk;
use book::Book;
use exposure::deal::{closes, deal, lacks};
use margin::rule::MarginRule;
use tables::position::Position;
use terms::fault::Fault;
use terms::ranges::{CustomerNumber, SeriesNumber};

impl<'b, 'r, B: Book, R: MarginRule> Desk<'b, 'r, B, R> {
    // Each test takes what its refusal speaks of, one by one: a struct would bring to each what the others need.
    // That a party under notice closes.
    fn check_notice(&self, customer: CustomerNumber, closing: bool) -> Result<(), Fault>
        ensures { Granted result (refuse (under_notice (state B.Book R.MarginRule self.now) customer.value && not closing) (UnderNotice customer.value)) (λ _. Unit {0}) }
    {
        let row = self.customers.get(customer);
        if row.notice && !closing {
            return Err(Fault::UnderNotice {
                account: customer.get() as u32,
            });
        }
        Ok(())
    }

    // Moves a position, which must not pass the limit of its series unless it closes.
    fn check_limit(
        &self,
        customer: CustomerNumber,
        series: SeriesNumber,
        by: Position,
    ) -> Result<Position, Fault>
        ensures { Granted result (refuse (not (closes_by (position (state B.Book R.MarginRule self.now) customer.value series.value) by.contracts) && nat_lt (series_at (state B.Book R.MarginRule self.now) series.value).limit (unsigned_abs (position (state B.Book R.MarginRule self.now) customer.value series.value +ℤ by.contracts))) (PastLimit customer.value)) (λ p. p.contracts ≡ position (state B.Book R.MarginRule self.now) customer.value series.value +ℤ by.contracts) }
    {
        let row = self.customers.get(customer);
        let held = row.positions.get(series);
        let limit = self.series.get(series).limit.get();
        // No limit is above what a position can hold.
        held.moved(by)
            .filter(|after| closes(held, by) || after.count() <= limit)
            .ok_or(Fault::PastLimit {
                account: customer.get() as u32,
            })
    }

    // That a party's balance reaches the initial margin of its positions once the deal is made, unless it closes.
    fn check_margin(
        &self,
        customer: CustomerNumber,
        series: SeriesNumber,
        after: Position,
        amount: i64,
        closing: bool,
    ) -> Result<(), Fault>
        ensures { Granted result (refuse (not closing && lacks_margin (balance (state B.Book R.MarginRule self.now) customer.value +ℤ amount) (margins_in (state B.Book R.MarginRule self.now) (slice_set (customer_in (state B.Book R.MarginRule self.now) customer.value).positions (series.value - 1) after.contracts)).0) (BelowMargin customer.value)) (λ _. Unit {0}) }
    {
        if closing {
            return Ok(());
        }
        let account = customer.get() as u32;
        let row = self.customers.get(customer);
        let mut positions = row.positions;
        positions.put(series, after);
        let (initial, _) = self.valuation().margins(&positions);
        if lacks(self.book.balance(account), amount, initial) {
            return Err(Fault::BelowMargin { account });
        }
        Ok(())
    }

    // Tests a party of a deal, and gives the position that it has afterwards.
    fn check_party(
        &self,
        customer: CustomerNumber,
        series: SeriesNumber,
        by: Position,
        amount: i64,
    ) -> Result<Position, Fault>
        ensures { Granted result (first (party (state B.Book R.MarginRule self.now) customer.value series.value by.contracts amount)) (λ p. p.contracts ≡ position (state B.Book R.MarginRule self.now) customer.value series.value +ℤ by.contracts) }
    {
        let row = self.customers.get(customer);
        let closing = closes(row.positions.get(series), by);
        self.check_notice(customer, closing)?;
        let after = self.check_limit(customer, series, by)?;
        self.check_margin(customer, series, after, amount, closing)?;
        Ok(after)
    }

    // Tests whoever deals on a side, and gives the position that it has afterwards.
    pub(crate) fn check_side(
        &self,
        side: Side,
        customer: CustomerNumber,
        lot: Lot,
    ) -> Result<Position, Fault>
        ensures { Granted result (first (of_side (state B.Book R.MarginRule self.now) side customer.value lot.series.value lot.count.value lot.price.value)) (λ p. p.contracts ≡ position (state B.Book R.MarginRule self.now) customer.value lot.series.value +ℤ moves_by side lot.count.value) }
    {
        let shares = deal(self.series.get(lot.series), lot.count, lot.price);
        match side {
            Side::Buyer => {
                let by = Position::long(lot.count);
                self.check_party(customer, lot.series, by, shares.buyer)
            }
            Side::Seller => {
                let by = Position::short(lot.count);
                self.check_party(customer, lot.series, by, shares.seller)
            }
        }
    }
}
