//! The tests that several calls make.
ghost use Rattle.std.specs.Prelude.{◌≡◌, ◌≤◌, not, ◌&&◌, map};
ghost use Rattle.steps.specs.Margins.{margins_of};
ghost use Rattle.steps.specs.Phases.{phase_number};
ghost use Rattle.steps.specs.State.{is_customer, enrolled, is_open};
ghost use Rattle.steps.specs.Refusals.{refuse, in_phase, stranger, not_open, broker_of, unmarked};
ghost use Rattle.terms.specs.declared.fault.Fault.TheVariants.{WrongPhase, Enrolment};
ghost use Rattle.tables.specs.Views.{series_of};
ghost use Rattle.desk.specs.Moves.{Granted};
ghost use Rattle.desk.specs.Views.{state};

use crate::desk::Desk;
use book::Book;
use exposure::margins::Valuation;
use margin::rule::MarginRule;
use std::ops::RangeBounds;
use steps::{Phase, Stage};
use tables::series::Series;
use terms::fault::Fault;
use terms::ranges::{BrokerNumber, CustomerNumber, SeriesNumber};

impl<'b, 'r, B: Book, R: MarginRule> Desk<'b, 'r, B, R> {
    // That the phase lies from the first of these to the last.
    pub(crate) fn in_phase(&self, phases: (Phase, Phase)) -> Result<(), Fault>
        ensures { Granted result (refuse (not (in_phase (state B.Book R.MarginRule self.now) (phase_number phases.0, phase_number phases.1))) WrongPhase) (λ _. Unit {0}) }
    {
        if (phases.0..=phases.1).contains(&self.phase) {
            Ok(())
        } else {
            Err(Fault::WrongPhase)
        }
    }

    // The broker of a customer that is enrolled.
    pub(crate) fn broker_of(&self, customer: CustomerNumber) -> Result<BrokerNumber, Fault>
        ensures { Granted result (stranger (state B.Book R.MarginRule self.now) customer.value) (λ b. b.value ≡ broker_of (state B.Book R.MarginRule self.now) customer.value) }
    {
        let row = self.customers.get(customer);
        row.broker.ok_or(Fault::Enrolment {
            customer: customer.get() as u32,
        })
    }

    // That a customer is enrolled.
    pub(crate) fn knows(&self, customer: CustomerNumber) -> Result<(), Fault>
        ensures { Granted result (stranger (state B.Book R.MarginRule self.now) customer.value) (λ _. Unit {0}) }
    {
        self.broker_of(customer).map(|_| ())
    }

    // That an account is enrolled if it is a customer's.
    pub(crate) fn knows_account(&self, account: u32) -> Result<(), Fault>
        ensures { Granted result (refuse (is_customer account && not (enrolled (state B.Book R.MarginRule self.now) account)) (Enrolment account)) (λ _. Unit {0}) }
    {
        match CustomerNumber::new(u64::from(account)) {
            Some(customer) => self.knows(customer),
            None => Ok(()),
        }
    }

    // The initial and the minimum margin of a customer.
    pub(crate) fn margins_of(&self, customer: CustomerNumber) -> (u64, u64)
        ensures value { result ≡ margins_of (state B.Book R.MarginRule self.now) customer.value }
        ensures bounded { result.0 ≤ 24000000000000000 }
    {
        let row = self.customers.get(customer);
        self.valuation().margins(&row.positions)
    }

    // What positions are valued by.
    pub(crate) fn valuation(&self) -> Valuation<'_, R>
        ensures rule { result.rule.now ≡ self.now.rule.now }
        ensures series { result.series.now ≡ self.now.series }
    {
        Valuation {
            rule: self.rule,
            series: &self.series,
        }
    }

    // That a series is listed and has not ended. `never_listed` asks for another stage: one function of a stage would have to
    // compare stages in its clause, where the clearing steps say `is_open` and `ever_listed`.
    pub(crate) fn deals_in(&self, series: SeriesNumber) -> Result<(), Fault>
        ensures { Granted result (not_open (state B.Book R.MarginRule self.now) series.value) (λ _. Unit {0}) }
    {
        let row = self.series.get(series);
        match row.stage {
            Stage::Open => Ok(()),
            Stage::Unlisted | Stage::Ended => Err(Fault::Listing {
                series: series.get() as u32,
            }),
        }
    }

    // That every series that is listed and has not ended is marked.
    pub(crate) fn all_marked(&self) -> Result<(), Fault>
        ensures { Granted result (unmarked 1 (state B.Book R.MarginRule self.now).series) (λ _. Unit {0}) }
    {
        check_marks(&self.series.rows)
    }
}

// Whether a series has yet to be marked: it is listed, has not ended and is not marked.
fn lacks_mark(series: &Series) -> bool
    ensures { result ≡ (is_open series.now.stage && not series.now.marked) }
{
    series.stage == Stage::Open && !series.marked
}

fn check_marks(all: &[Series; 24]) -> Result<(), Fault>
    ensures { Granted result (unmarked 1 (map series_of all.now)) (λ _. Unit {0}) }
{
    for (i, series) in all.iter().enumerate() {
        if lacks_mark(series) {
            return Err(Fault::Marking {
                series: i as u32 + 1,
            });
        }
    }
    Ok(())
}
