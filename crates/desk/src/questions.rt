//! A new desk, and the questions that change nothing.
ghost use Rattle.std.specs.Prelude.{◌≡◌};
ghost use Rattle.steps.specs.State.{new_room};
ghost use Rattle.steps.specs.Questions.{standing as standing_of, position_of};
ghost use Rattle.desk.specs.Views.{state};

use crate::desk::Desk;
use crate::numbers::{account_in, series_number};
use book::Book;
use margin::rule::MarginRule;
use steps::{Phase, Standing};
use tables::customers::Customers;
use tables::series_table::SeriesTable;
use terms::fault::Fault;

impl<'b, 'r, B: Book, R: MarginRule> Desk<'b, 'r, B, R> {
    /// A desk that no call was made on, with whatever book and rule.
    pub fn new(book: &'b mut B, rule: &'r R) -> Desk<'b, 'r, B, R>
        ensures state { state B.Book R.MarginRule result ≡ new_room (B.Book.balances book.old) (B.Book.lines book.old) B.Book.COST (R.MarginRule.asked rule.now) }
        ensures book { result.book.now ≡ book.old }
        ensures lent { result.book.ghost_name ≡ book.entry.ghost_name }
        ensures rule { result.rule.now ≡ rule.now }
    {
        Desk {
            phase: Phase::Unopened,
            customers: Customers::new(),
            series: SeriesTable::new(),
            book,
            rule,
        }
    }

    /// A customer's balance, both margins, and what it owes if it is under notice.
    pub fn standing(&self, customer: u32) -> Result<Standing, Fault>
        ensures { result ≡ standing_of (state B.Book R.MarginRule self.now) customer }
    {
        let number = account_in(customer)?;
        self.knows(number)?;
        let balance = self.book.balance(customer);
        let (initial, minimum) = self.margins_of(number);
        let owed = self
            .customers
            .get(number)
            .notice
            .then_some(initial as i64 - balance);
        Ok(Standing {
            balance,
            initial,
            minimum,
            owed,
        })
    }

    /// A customer's position in a series, 0 in one that was never listed.
    pub fn position(&self, customer: u32, series: u32) -> Result<i64, Fault>
        ensures { result ≡ position_of (state B.Book R.MarginRule self.now) customer series }
    {
        let holder = account_in(customer)?;
        let number = series_number(series)?;
        self.knows(holder)?;
        let row = self.customers.get(holder);
        Ok(row.positions.get(number).get())
    }
}
