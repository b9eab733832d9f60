//! Calls that post nothing: the phases of a day, customers and series.
ghost use Rattle.std.specs.Prelude.{◌≡◌};
ghost use Rattle.terms.specs.declared.call.Call.TheVariants.{Begin, Enrol, List, Late, Shut};
ghost use Rattle.terms.specs.declared.fault.Fault.TheVariants.{Listing};
ghost use Rattle.steps.specs.State.{series_at, ever_listed};
ghost use Rattle.steps.specs.Refusals.{first, room_refusals, refuse, not_empty};
ghost use Rattle.desk.specs.Moves.{Granted};
ghost use Rattle.desk.specs.Served.{Served};
ghost use Rattle.desk.specs.Views.{state};

use crate::desk::Desk;
use crate::numbers::{account_in, series_number, specification_in_range};
use book::{ACCOUNTS, Book};
use margin::rule::MarginRule;
use steps::{Phase, Stage};
use tables::series::Specification;
use terms::fault::Fault;
use terms::ranges::{BrokerNumber, CustomerNumber, SeriesNumber};

// That every balance is 0.
fn check_empty<B: Book>(book: &B) -> Result<(), Fault>
    ensures { Granted result (not_empty 1 (B.balances book.now)) (λ _. Unit {0}) }
{
    for account in 1..=ACCOUNTS {
        if book.balance(account) != 0 {
            return Err(Fault::NotEmpty { account });
        }
    }
    Ok(())
}

impl<'b, 'r, B: Book, R: MarginRule> Desk<'b, 'r, B, R> {
    fn check_begin(&self) -> Result<(), Fault>
        ensures { Granted result (first (room_refusals (state B.Book R.MarginRule self.now) Begin)) (λ _. Unit {0}) }
    {
        self.in_phase((Phase::Unopened, Phase::Unopened))?;
        check_empty(self.book)
    }

    /// Opens the room.
    pub fn begin(&mut self) -> Result<u64, Fault>
        ensures { Served B.Book R.MarginRule self.old Begin result self.new }
    {
        self.check_begin()?;
        self.phase = Phase::Session;
        Ok(0)
    }

    // `late` and `shut` are a method each, as every call is.

    /// Ends the session: what follows is late.
    pub fn late(&mut self) -> Result<u64, Fault>
        ensures { Served B.Book R.MarginRule self.old Late result self.new }
    {
        self.in_phase((Phase::Session, Phase::Session))?;
        self.phase = Phase::Late;
        Ok(0)
    }

    /// Ends trading for the day.
    pub fn shut(&mut self) -> Result<u64, Fault>
        ensures { Served B.Book R.MarginRule self.old Shut result self.new }
    {
        self.in_phase((Phase::Late, Phase::Late))?;
        self.phase = Phase::Shut;
        Ok(0)
    }

    fn check_enrol(
        &self,
        customer: u32,
        broker: u32,
    ) -> Result<(CustomerNumber, BrokerNumber), Fault>
        ensures { Granted result (first (room_refusals (state B.Book R.MarginRule self.now) (Enrol customer broker))) (λ x. (x.0.value ≡ customer) × (x.1.value ≡ broker)) }
    {
        let newcomer = account_in(customer)?;
        let under = account_in(broker)?;
        self.in_phase((Phase::Session, Phase::Shut))?;
        let row = self.customers.get(newcomer);
        if row.broker.is_some() {
            return Err(Fault::Enrolment { customer });
        }
        Ok((newcomer, under))
    }

    /// Puts a customer under a broker.
    pub fn enrol(&mut self, customer: u32, broker: u32) -> Result<u64, Fault>
        ensures { Served B.Book R.MarginRule self.old (Enrol customer broker) result self.new }
    {
        let (newcomer, under) = self.check_enrol(customer, broker)?;
        self.customers.enrol(newcomer, under);
        Ok(0)
    }

    // That a series was never listed.
    fn never_listed(&self, series: SeriesNumber) -> Result<(), Fault>
        ensures { Granted result (refuse (ever_listed (series_at (state B.Book R.MarginRule self.now) series.value).stage) (Listing series.value)) (λ _. Unit {0}) }
    {
        let row = self.series.get(series);
        match row.stage {
            Stage::Unlisted => Ok(()),
            Stage::Open | Stage::Ended => Err(Fault::Listing {
                series: series.get() as u32,
            }),
        }
    }

    fn check_list(
        &self,
        size: u64,
        limit: u64,
        series: u32,
        price: u64,
        fee: u64,
    ) -> Result<(SeriesNumber, Specification), Fault>
        ensures { Granted result (first (room_refusals (state B.Book R.MarginRule self.now) (List size limit series price fee))) (λ x. (x.0.value ≡ series) × (x.1.size.value ≡ size) × (x.1.limit.value ≡ limit) × (x.1.price.value ≡ price) × (x.1.fee.value ≡ fee)) }
    {
        let number = series_number(series)?;
        let specification = specification_in_range(size, limit, price, fee)?;
        self.in_phase((Phase::Session, Phase::Late))?;
        self.never_listed(number)?;
        Ok((number, specification))
    }

    /// Opens a series for the only time.
    pub fn list(
        &mut self,
        size: u64,
        limit: u64,
        series: u32,
        price: u64,
        fee: u64,
    ) -> Result<u64, Fault>
        ensures { Served B.Book R.MarginRule self.old (List size limit series price fee) result self.new }
    {
        let (number, specification) = self.check_list(size, limit, series, price, fee)?;
        self.series.list(number, specification);
        Ok(0)
    }
}
