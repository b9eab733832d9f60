//! Calls that move money alone.
ghost use Rattle.std.specs.Prelude.{◌≡◌};
ghost use Rattle.terms.specs.declared.call.Call.TheVariants.{Deposit, Withdraw};
ghost use Rattle.steps.specs.Refusals.{first, room_refusals, least_left};
ghost use Rattle.desk.specs.Moves.{Granted};
ghost use Rattle.desk.specs.Served.{Served};
ghost use Rattle.desk.specs.Views.{state};

use crate::amounts::for_one;
use crate::desk::Desk;
use crate::numbers::{account_in, in_range, payer_number};
use book::{Book, post_all};
use exposure::deal::lacks;
use margin::rule::MarginRule;
use steps::Phase;
use terms::fault::Fault;
use terms::ranges::{AccountNumber, Amount, CustomerNumber};

impl<'b, 'r, B: Book, R: MarginRule> Desk<'b, 'r, B, R> {
    fn check_deposit(&self, account: u32, amount: u64) -> Result<(AccountNumber, Amount), Fault>
        ensures { Granted result (first (room_refusals (state B.Book R.MarginRule self.now) (Deposit account amount))) (λ x. (x.0.value ≡ account) × (x.1.value ≡ amount)) }
    {
        let payer = payer_number(account)?;
        let paid = in_range(amount)?;
        self.in_phase((Phase::Session, Phase::Shut))?;
        self.knows_account(account)?;
        Ok((payer, paid))
    }

    // The posting that `deposit` and `withdraw` share stays in each: the contract of a method for it would outweigh its two lines.

    /// Pays an amount in.
    pub fn deposit(&mut self, account: u32, amount: u64) -> Result<u64, Fault>
        ensures { Served B.Book R.MarginRule self.old (Deposit account amount) result self.new }
    {
        let (payer, paid) = self.check_deposit(account, amount)?;
        let amounts = for_one(payer, paid.get() as i64);
        post_all(self.book, &amounts)?;
        Ok(0)
    }

    // What has to stay in an account: a customer's initial margin; 0 for a broker or the house.
    fn least_left(&self, account: AccountNumber) -> u64
        ensures { result ≡ least_left (state B.Book R.MarginRule self.now) account.value }
    {
        match CustomerNumber::new(account.get()) {
            Some(customer) => self.margins_of(customer).0,
            None => 0,
        }
    }

    fn check_withdrawal(&self, account: u32, amount: u64) -> Result<(AccountNumber, Amount), Fault>
        ensures { Granted result (first (room_refusals (state B.Book R.MarginRule self.now) (Withdraw account amount))) (λ x. (x.0.value ≡ account) × (x.1.value ≡ amount)) }
    {
        let payee = account_in(account)?;
        let paid = in_range(amount)?;
        self.in_phase((Phase::Session, Phase::Late))?;
        self.knows_account(account)?;
        let left = self.least_left(payee);
        if lacks(self.book.balance(account), -(paid.get() as i64), left) {
            return Err(Fault::BelowMargin { account });
        }
        Ok((payee, paid))
    }

    /// Pays an amount out.
    pub fn withdraw(&mut self, account: u32, amount: u64) -> Result<u64, Fault>
        ensures { Served B.Book R.MarginRule self.old (Withdraw account amount) result self.new }
    {
        let (payee, paid) = self.check_withdrawal(account, amount)?;
        let amounts = for_one(payee, -(paid.get() as i64));
        post_all(self.book, &amounts)?;
        Ok(0)
    }
}
