//! A broker pays its customer's debt.
ghost use Rattle.std.specs.Prelude.{◌≡◌, ◌≤◌};
ghost use Rattle.terms.specs.declared.call.Call.TheVariants.{Cover};
ghost use Rattle.steps.specs.Refusals.{first, room_refusals, broker_of};
ghost use Rattle.steps.specs.Steps.{covered};
ghost use Rattle.desk.specs.Moves.{Granted};
ghost use Rattle.desk.specs.Served.{Served};
ghost use Rattle.desk.specs.Views.{state};

use crate::amounts::for_transfer;
use crate::desk::Desk;
use crate::numbers::account_in;
use book::{Book, post_all};
use margin::rule::MarginRule;
use steps::Phase;
use terms::fault::Fault;
use terms::ranges::{BrokerNumber, CustomerNumber};

// What a broker pays, and to whom.
#[derive(Clone, Copy)]
struct Payment {
    from: BrokerNumber,
    to: CustomerNumber,
    amount: u64,
}

impl<'b, 'r, B: Book, R: MarginRule> Desk<'b, 'r, B, R> {
    fn check_cover(&self, account: u32) -> Result<Payment, Fault>
        ensures { Granted result (first (room_refusals (state B.Book R.MarginRule self.now) (Cover account))) (λ p. (p.from.value ≡ broker_of (state B.Book R.MarginRule self.now) account) × (p.to.value ≡ account) × (p.amount ≡ covered (state B.Book R.MarginRule self.now) account) × (p.amount ≤ 1000000000000000000)) }
    {
        let to = account_in(account)?;
        self.in_phase((Phase::Shut, Phase::Shut))?;
        let from = self.broker_of(to)?;
        let balance = self.book.balance(account);
        if balance >= 0 {
            return Err(Fault::NothingToCover { account });
        }
        let purse = from.get() as u32;
        let available = self.book.balance(purse);
        if available <= 0 {
            return Err(Fault::NothingToCover { account: purse });
        }
        let amount = available
            .unsigned_abs()
            .min(balance.unsigned_abs().min(999_999_999_999_999_999));
        Ok(Payment { from, to, amount })
    }

    /// Has the broker pay what the customer's balance lacks to 0, as far as its own balance goes.
    pub fn cover(&mut self, customer: u32) -> Result<u64, Fault>
        ensures { Served B.Book R.MarginRule self.old (Cover customer) result self.new }
    {
        let payment = self.check_cover(customer)?;
        let amounts = for_transfer(payment.from, payment.to, payment.amount);
        post_all(self.book, &amounts)?;
        Ok(payment.amount)
    }
}
