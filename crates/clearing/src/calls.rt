//! The thirteen calls, each by its name. The word `final` is taken in Rust, so that call is `end` here.
ghost use Rattle.terms.specs.declared.call.Call.TheVariants.{Begin, Enrol, List, Deposit, Withdraw, Trade, Late, Shut, Mark, Final, Force, Cover, Notices};
ghost use Rattle.clearing.specs.Made.{Made};

use crate::room::Room;
use book::Book;
use margin::rule::MarginRule;
use terms::call::{Answer, Call};
use terms::fault::Fault;

impl<'b, 'r, B: Book, R: MarginRule> Room<'b, 'r, B, R> {
    /// Opens the room, if every balance of the book is 0.
    pub fn begin(&mut self) -> Result<Answer, Fault>
        ensures { Made B.Book R.MarginRule self.old Begin result self.new }
    {
        self.make(Call::Begin)
    }

    /// Puts a customer under a broker.
    pub fn enrol(&mut self, customer: u32, broker: u32) -> Result<Answer, Fault>
        ensures { Made B.Book R.MarginRule self.old (Enrol customer broker) result self.new }
    {
        self.make(Call::Enrol { customer, broker })
    }

    // Here and below the numbers come one by one, as they stand on a line: a struct would only be taken apart again. And each
    // method says `Made` of its own call: that is its promise, and nothing that a type could hold.
    /// Opens a series, for the only time; its price stands.
    pub fn list(
        &mut self,
        size: u64,
        limit: u64,
        series: u32,
        price: u64,
        fee: u64,
    ) -> Result<Answer, Fault>
        ensures { Made B.Book R.MarginRule self.old (List size limit series price fee) result self.new }
    {
        self.make(Call::List {
            size,
            limit,
            series,
            price,
            fee,
        })
    }

    /// Pays an amount into the account of a customer or a broker.
    pub fn deposit(&mut self, account: u32, amount: u64) -> Result<Answer, Fault>
        ensures { Made B.Book R.MarginRule self.old (Deposit account amount) result self.new }
    {
        self.make(Call::Deposit { account, amount })
    }

    /// Pays an amount out, as far as the margin of a customer, or 0, is kept.
    pub fn withdraw(&mut self, account: u32, amount: u64) -> Result<Answer, Fault>
        ensures { Made B.Book R.MarginRule self.old (Withdraw account amount) result self.new }
    {
        self.make(Call::Withdraw { account, amount })
    }

    /// A buyer and a seller deal in so many contracts at a price.
    pub fn trade(
        &mut self,
        buyer: u32,
        seller: u32,
        series: u32,
        count: u64,
        price: u64,
    ) -> Result<Answer, Fault>
        ensures { Made B.Book R.MarginRule self.old (Trade buyer seller series count price) result self.new }
    {
        self.make(Call::Trade {
            buyer,
            seller,
            series,
            count,
            price,
        })
    }

    /// Ends the session: what follows is late.
    pub fn late(&mut self) -> Result<Answer, Fault>
        ensures { Made B.Book R.MarginRule self.old Late result self.new }
    {
        self.make(Call::Late)
    }

    /// Ends trading for the day.
    pub fn shut(&mut self) -> Result<Answer, Fault>
        ensures { Made B.Book R.MarginRule self.old Shut result self.new }
    {
        self.make(Call::Shut)
    }

    /// Marks a series to market at a price, which stands from then on.
    pub fn mark(&mut self, series: u32, price: u64) -> Result<Answer, Fault>
        ensures { Made B.Book R.MarginRule self.old (Mark series price) result self.new }
    {
        self.make(Call::Mark { series, price })
    }

    /// Marks a series for the last time, and ends it.
    pub fn end(&mut self, series: u32, price: u64) -> Result<Answer, Fault>
        ensures { Made B.Book R.MarginRule self.old (Final series price) result self.new }
    {
        self.make(Call::Final { series, price })
    }

    /// Closes a position of a customer under notice by the least count that frees it, or as far as the offer goes.
    pub fn force(
        &mut self,
        customer: u32,
        counterparty: u32,
        series: u32,
        offer: u64,
        price: u64,
    ) -> Result<Answer, Fault>
        ensures { Made B.Book R.MarginRule self.old (Force customer counterparty series offer price) result self.new }
    {
        self.make(Call::Force {
            customer,
            counterparty,
            series,
            offer,
            price,
        })
    }

    /// Has a broker pay its customer's debt.
    pub fn cover(&mut self, customer: u32) -> Result<Answer, Fault>
        ensures { Made B.Book R.MarginRule self.old (Cover customer) result self.new }
    {
        self.make(Call::Cover { customer })
    }

    /// Calls every customer below its minimum margin, and ends the day.
    pub fn notices(&mut self) -> Result<Answer, Fault>
        ensures { Made B.Book R.MarginRule self.old Notices result self.new }
    {
        self.make(Call::Notices)
    }
}
