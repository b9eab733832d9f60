//! Notices: who is called, and who is lifted.
ghost use Rattle.std.specs.Prelude.{◌≡◌, count_by};
ghost use Rattle.std.specs.List.{range_with_len};
ghost use Rattle.terms.specs.declared.call.Call.TheVariants.{Notices};
ghost use Rattle.steps.specs.State.{customers};
ghost use Rattle.steps.specs.Refusals.{first, room_refusals};
ghost use Rattle.steps.specs.Steps.{freed, lift as lifted};
ghost use Rattle.desk.specs.Moves.{Granted};
ghost use Rattle.desk.specs.Served.{Served};
ghost use Rattle.desk.specs.Views.{state};

use crate::desk::Desk;
use book::Book;
use exposure::margins::Valuation;
use margin::rule::MarginRule;
use notices::sweep::turn_notices;
use notices::turn::Turn;
use steps::Phase;
use terms::fault::Fault;

impl<'b, 'r, B: Book, R: MarginRule> Desk<'b, 'r, B, R> {
    /// Lifts each customer under notice that has its initial margin, and says how many were lifted.
    pub fn lift(&mut self) -> u32
        ensures after { state B.Book R.MarginRule self.new ≡ lifted (state B.Book R.MarginRule self.old) }
        ensures count { result ≡ count_by (freed (state B.Book R.MarginRule self.old)) (range_with_len 1 customers) }
        ensures book { self.new.book ≡ self.old.book }
    {
        // Made here and in `notices`, and not by `valuation`, which would borrow the customers too; a method for the two calls
        // would say again what `turn_notices` says.
        let valuation = Valuation {
            rule: self.rule,
            series: &self.series,
        };
        turn_notices(&mut self.customers, self.book, &valuation, Turn::Lift)
    }

    fn check_notices(&self) -> Result<(), Fault>
        ensures { Granted result (first (room_refusals (state B.Book R.MarginRule self.now) Notices)) (λ _. Unit {0}) }
    {
        self.in_phase((Phase::Shut, Phase::Shut))?;
        self.all_marked()
    }

    /// Calls each customer that is below its minimum margin, clears the marks, and ends the day.
    pub fn notices(&mut self) -> Result<u64, Fault>
        ensures { Served B.Book R.MarginRule self.old Notices result self.new }
    {
        self.check_notices()?;
        // Made here, and not by `valuation`, which would borrow the customers too.
        let valuation = Valuation {
            rule: self.rule,
            series: &self.series,
        };
        let called = turn_notices(&mut self.customers, self.book, &valuation, Turn::Call);
        self.series.clear_marks();
        self.phase = Phase::Session;
        Ok(u64::from(called))
    }
}
