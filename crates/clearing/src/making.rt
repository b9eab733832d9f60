//! How a call is made.
ghost use Rattle.std.specs.Prelude.{◌≡◌, []};
ghost use Rattle.desk.specs.Served.{Served};
ghost use Rattle.runs.specs.Runs.{Run};
ghost use Rattle.steps.specs.Questions.{standing as standing_of, position_of};
ghost use Rattle.clearing.specs.Made.{Made, state_of};

use crate::room::Room;
use book::Book;
use desk::Desk;
use margin::rule::MarginRule;
use steps::Standing;
use terms::call::{Answer, Call};
use terms::fault::Fault;

// What a call does before anybody is lifted. An arm a call: it comes in as a value, and closures for the thirteen would only be
// picked by the same match.
fn carry_out<'b, 'r, B: Book, R: MarginRule>(
    desk: &mut Desk<'b, 'r, B, R>,
    call: Call,
) -> Result<u64, Fault>
    ensures { Served B.Book R.MarginRule desk.old call result desk.new }
{
    match call {
        Call::Begin => desk.begin(),
        Call::Enrol { customer, broker } => desk.enrol(customer, broker),
        Call::List {
            size,
            limit,
            series,
            price,
            fee,
        } => desk.list(size, limit, series, price, fee),
        Call::Deposit { account, amount } => desk.deposit(account, amount),
        Call::Withdraw { account, amount } => desk.withdraw(account, amount),
        Call::Trade {
            buyer,
            seller,
            series,
            count,
            price,
        } => desk.trade(buyer, seller, series, count, price),
        Call::Late => desk.late(),
        Call::Shut => desk.shut(),
        Call::Mark { series, price } => desk.mark(series, price),
        Call::Final { series, price } => desk.end(series, price),
        Call::Force {
            customer,
            counterparty,
            series,
            offer,
            price,
        } => desk.force(customer, counterparty, series, offer, price),
        Call::Cover { customer } => desk.cover(customer),
        Call::Notices => desk.notices(),
    }
}

impl<'b, 'r, B: Book, R: MarginRule> Room<'b, 'r, B, R> {
    /// A room that no call was made on, over whatever book and rule.
    pub fn new(book: &'b mut B, rule: &'r R) -> Room<'b, 'r, B, R>
        ensures run { Run [] (state_of B.Book R.MarginRule result) }
        ensures book { result.desk.book.now ≡ book.old }
        ensures lent { result.desk.book.ghost_name ≡ book.entry.ghost_name }
        ensures rule { result.desk.rule.now ≡ rule.now }
    {
        Room {
            desk: Desk::new(book, rule),
        }
    }

    /// Makes a call: refused and nothing changed, or carried out, and then everybody lifted who has the initial margin.
    pub fn make(&mut self, call: Call) -> Result<Answer, Fault>
        ensures { Made B.Book R.MarginRule self.old call result self.new }
    {
        let figure = carry_out(&mut self.desk, call)?;
        let lifted = self.desk.lift();
        Ok(Answer { figure, lifted })
    }

    /// A customer's balance, both margins, and what it owes if it is under notice.
    pub fn standing(&self, customer: u32) -> Result<Standing, Fault>
        ensures { result ≡ standing_of (state_of B.Book R.MarginRule self.now) customer }
    {
        self.desk.standing(customer)
    }

    /// A customer's position in a series, long positive; 0 in one that was never listed.
    pub fn position(&self, customer: u32, series: u32) -> Result<i64, Fault>
        ensures { result ≡ position_of (state_of B.Book R.MarginRule self.now) customer series }
    {
        self.desk.position(customer, series)
    }
}
