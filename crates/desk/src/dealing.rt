//! Deals between two customers.
ghost use Rattle.std.specs.Prelude.{◌≡◌, false, ◌||◌, is_ok, ◌==◌, ◌≢◌};
ghost use Rattle.terms.specs.declared.call.Call.TheVariants.{Trade};
ghost use Rattle.terms.specs.declared.fault.Fault.TheVariants.{OutOfRange, SameParties};
ghost use Rattle.steps.specs.Phases.{phase_number};
ghost use Rattle.steps.specs.Steps.{trade_deal};
ghost use Rattle.steps.specs.Refusals.{first, room_refusals, refuse, bad_count, bad_price};
ghost use Rattle.desk.specs.Bargains.{Agreed, Fair, Strikes, deal_of, trade_of, parties, terms_refusals};
ghost use Rattle.desk.specs.Moves.{Granted};
ghost use Rattle.desk.specs.Served.{Served};
ghost use Rattle.desk.specs.Views.{state};

use crate::amounts::for_deal;
use crate::bargain::{Bargain, Lot, Side, Terms};
use crate::desk::Desk;
use crate::numbers::{account_in, in_range, series_number};
use book::{Book, post_all};
use exposure::deal::deal;
use margin::rule::MarginRule;
use steps::Phase;
use terms::fault::Fault;
use terms::ranges::{Count, Price};

// How many contracts, and at what price.
fn count_and_price(count: u64, price: u64) -> Result<(Count, Price), Fault>
    ensures { Granted result (refuse (bad_count count || bad_price price) OutOfRange) (λ x. (x.0.value ≡ count) × (x.1.value ≡ price)) }
{
    Ok((in_range(count)?, in_range(price)?))
}

// That there are two parties.
fn check_apart(one: u32, other: u32) -> Result<(), Fault>
    ensures { Granted result (refuse (one == other) (SameParties one)) (λ _. one ≢ other) }
{
    if one == other {
        return Err(Fault::SameParties { account: one });
    }
    Ok(())
}

impl<'b, 'r, B: Book, R: MarginRule> Desk<'b, 'r, B, R> {
    // The terms of a deal, with what is tested of every deal first. Until then its numbers are raw, and come one by one as
    // in the call: a struct of them would promise nothing that the call does not.
    pub(crate) fn check_terms(
        &self,
        one: u32,
        other: u32,
        series: u32,
        count: u64,
        price: u64,
        phases: (Phase, Phase),
    ) -> Result<Terms, Fault>
        ensures { Granted result (first (terms_refusals (state B.Book R.MarginRule self.now) (phase_number phases.0, phase_number phases.1) one other series count price)) (λ t. (t.one.value ≡ one) × (t.other.value ≡ other) × (t.lot.series.value ≡ series) × (t.lot.count.value ≡ count) × (t.lot.price.value ≡ price)) }
    {
        let first = account_in(one)?;
        let second = account_in(other)?;
        let number = series_number(series)?;
        let (count, price) = count_and_price(count, price)?;
        check_apart(one, other)?;
        self.in_phase(phases)?;
        self.knows(first)?;
        self.knows(second)?;
        self.deals_in(number)?;
        Ok(Terms {
            one: first,
            other: second,
            lot: Lot {
                series: number,
                count,
                price,
            },
        })
    }

    // Posts what a deal moves, and gives both parties their new positions.
    pub(crate) fn strike(&mut self, bargain: Bargain) -> Result<(), Fault>
        requires { Fair (state B.Book R.MarginRule self.old) bargain }
        ensures strikes { Strikes (state B.Book R.MarginRule self.old) (deal_of bargain) result (state B.Book R.MarginRule self.new) }
        ensures lent { self.new.book.ghost_name ≡ self.old.book.ghost_name }
        ensures place { B.Book.kept self.old.book.now self.new.book.now }
        ensures same { is_ok result ≡ false → self.new ≡ self.old }
    {
        let lot = bargain.lot;
        let shares = deal(self.series.get(lot.series), lot.count, lot.price);
        let amounts = for_deal(bargain.buyer, bargain.seller, shares);
        post_all(self.book, &amounts)?;
        self.customers
            .hold(bargain.buyer, lot.series, bargain.buyer_after);
        self.customers
            .hold(bargain.seller, lot.series, bargain.seller_after);
        Ok(())
    }

    // The deal by which one buys from the other.
    fn check_parties(&self, terms: &Terms) -> Result<Bargain, Fault>
        ensures { Agreed (state B.Book R.MarginRule self.now) (trade_of terms.now) (parties (state B.Book R.MarginRule self.now) (trade_of terms.now)) result }
    {
        let (buyer, seller, lot) = (terms.one, terms.other, terms.lot);
        let buyer_after = self.check_side(Side::Buyer, buyer, lot)?;
        let seller_after = self.check_side(Side::Seller, seller, lot)?;
        Ok(Bargain {
            buyer,
            seller,
            lot,
            buyer_after,
            seller_after,
        })
    }

    fn check_trade(
        &self,
        buyer: u32,
        seller: u32,
        series: u32,
        count: u64,
        price: u64,
    ) -> Result<Bargain, Fault>
        ensures { Agreed (state B.Book R.MarginRule self.now) (trade_deal buyer seller series count price) (room_refusals (state B.Book R.MarginRule self.now) (Trade buyer seller series count price)) result }
    {
        let phases = (Phase::Session, Phase::Late);
        let terms = self.check_terms(buyer, seller, series, count, price, phases)?;
        self.check_parties(&terms)
    }

    /// Makes a deal between two customers.
    pub fn trade(
        &mut self,
        buyer: u32,
        seller: u32,
        series: u32,
        count: u64,
        price: u64,
    ) -> Result<u64, Fault>
        ensures { Served B.Book R.MarginRule self.old (Trade buyer seller series count price) result self.new }
    {
        let bargain = self.check_trade(buyer, seller, series, count, price)?;
        self.strike(bargain)?;
        Ok(0)
    }
}
