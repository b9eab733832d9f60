//! A run of the room: each step is made, noted in the ledger, and printed with the balances after it.
use crate::ledger::{Deal, FEE, Kind, Ledger, SIZE};
use crate::rials::Rials;
use anyhow::ensure;
use book::{Book, TableBook};
use clearing::Room;
use margin::flat::Flat;
use std::cmp::Ordering;
use std::io;
use terms::call::Answer;
use terms::fault::Fault;

/// The customers of the run are 1 to this.
const CUSTOMERS: u32 = 3;

/// The broker of them all.
pub const BROKER: u32 = 57;

const SERIES: u32 = 1;

/// The most contracts of the series that a customer may hold.
const MOST: u64 = 50;

/// The price at which the series is listed.
const FIRST_PRICE: u64 = 1_000;

/// A room over a table book and the flat rule, and the ledger beside it.
#[derive(Drop)]
pub struct Run<'b, 'r> {
    room: Room<'b, 'r, TableBook, Flat>,
    ledger: Ledger,
}

// A part of a balance, unless it is 0.
fn print_part(rt: &HostRuntime, amount: i128, what: &str) -> io::Result<()> {
    let size = Rials::of(amount.saturating_abs());
    match amount.cmp(&0) {
        Ordering::Greater => print!(rt; " + {size} {what}"),
        Ordering::Less => print!(rt; " - {size} {what}"),
        Ordering::Equal => Ok(()),
    }
}

impl<'b, 'r> Run<'b, 'r> {
    /// Begins, enrols the customers and lists the series.
    pub fn begin(
        rt: &HostRuntime,
        book: &'b mut TableBook,
        rule: &'r Flat,
    ) -> anyhow::Result<Run<'b, 'r>> {
        let mut room = Room::new(book, rule);
        room.begin()?;
        println!(rt; "begin")?;
        for customer in 1..=CUSTOMERS {
            room.enrol(customer, BROKER)?;
            println!(rt; "enrol customer {customer} under broker {BROKER}")?;
        }
        room.list(SIZE, MOST, SERIES, FIRST_PRICE, FEE)?;
        let price = Rials::of(FIRST_PRICE);
        println!(rt; "list series {SERIES}: size {SIZE}, limit {MOST}, price {price}, fee {FEE}")?;
        let ledger = Ledger::new(rt.alloc(), FIRST_PRICE);
        Ok(Run { room, ledger })
    }

    fn balance(&self, customer: u32) -> Result<i64, Fault> {
        Ok(self.room.standing(customer)?.balance)
    }

    // Ends the line of a step with the balances after it.
    fn print_balances(&self, rt: &HostRuntime) -> anyhow::Result<()> {
        print!(rt; ": balances")?;
        for customer in 1..=CUSTOMERS {
            print!(rt; "  {}", Rials::of(self.balance(customer)?))?;
        }
        println!(rt)?;
        Ok(())
    }

    /// Prints the position of each customer.
    pub fn print_positions(&self, rt: &HostRuntime) -> anyhow::Result<()> {
        print!(rt; "  positions")?;
        for customer in 1..=CUSTOMERS {
            let position = self.room.position(customer, SERIES)?;
            print!(rt; "  {position}")?;
        }
        println!(rt)?;
        Ok(())
    }

    /// Prints each customer's balance next to what it is made of, at the price that stands.
    pub fn print_parts(&self, rt: &HostRuntime) -> anyhow::Result<()> {
        for customer in 1..=CUSTOMERS {
            let balance = self.balance(customer)?;
            let parts = self.ledger.parts(customer);
            ensure!(
                parts.balance() == i128::from(balance),
                "a balance is not what it is made of"
            );
            print!(rt;
                "  customer {customer}: balance {} = {} deposited",
                Rials::of(balance),
                Rials::of(parts.deposited)
            )?;
            print_part(rt, parts.withdrawn.saturating_neg(), "withdrawn")?;
            print_part(rt, parts.fees.saturating_neg(), "fees")?;
            print_part(rt, parts.cover, "cover")?;
            print_part(rt, parts.gains, "gains")?;
            println!(rt)?;
        }
        Ok(())
    }

    /// All that was paid in, and all that was paid out.
    pub fn paid_in_and_out(&self) -> (i128, i128) {
        (
            self.ledger.paid(Kind::Deposit, None),
            self.ledger.paid(Kind::Withdrawal, None),
        )
    }

    pub fn deposit(&mut self, rt: &HostRuntime, account: u32, amount: u64) -> anyhow::Result<()> {
        let lifted = self.room.deposit(account, amount)?.lifted;
        self.ledger.pay(Kind::Deposit, account, amount)?;
        print!(rt; "deposit {} to account {account}", Rials::of(amount))?;
        if lifted > 0 {
            print!(rt; ", lifted {lifted}")?;
        }
        self.print_balances(rt)
    }

    pub fn withdraw(&mut self, rt: &HostRuntime, account: u32, amount: u64) -> anyhow::Result<()> {
        self.room.withdraw(account, amount)?;
        self.ledger.pay(Kind::Withdrawal, account, amount)?;
        print!(rt; "withdraw {} from account {account}", Rials::of(amount))?;
        self.print_balances(rt)
    }

    pub fn trade(
        &mut self,
        rt: &HostRuntime,
        buyer: u32,
        seller: u32,
        count: u64,
        price: u64,
    ) -> anyhow::Result<()> {
        self.room.trade(buyer, seller, SERIES, count, price)?;
        self.ledger.deal(Deal {
            buyer,
            seller,
            count,
            price,
        })?;
        print!(rt; "{buyer} buys {count} of {seller} at {}", Rials::of(price))?;
        self.print_balances(rt)
    }

    // Two methods: one that is handed the call would take a deposit too, which the ledger has to note.
    pub fn late(&mut self, rt: &HostRuntime) -> anyhow::Result<()> {
        self.room.late()?;
        print!(rt; "late")?;
        self.print_balances(rt)
    }

    pub fn shut(&mut self, rt: &HostRuntime) -> anyhow::Result<()> {
        self.room.shut()?;
        print!(rt; "shut")?;
        self.print_balances(rt)
    }

    /// Marks the series to market, and shows what the balances are made of then.
    pub fn mark(&mut self, rt: &HostRuntime, price: u64) -> anyhow::Result<()> {
        self.room.mark(SERIES, price)?;
        self.ledger.stand(price);
        print!(rt; "mark at {}", Rials::of(price))?;
        self.print_balances(rt)?;
        self.print_parts(rt)
    }

    /// Marks the series for the last time and ends it: nobody has a position after it.
    pub fn end(&mut self, rt: &HostRuntime, price: u64) -> anyhow::Result<()> {
        self.room.end(SERIES, price)?;
        self.ledger.stand(price);
        print!(rt; "final at {}", Rials::of(price))?;
        self.print_balances(rt)?;
        self.print_positions(rt)
    }

    /// Forces a customer under notice. It is noted as the trade that it is: a long customer sells, a short one buys.
    pub fn force(
        &mut self,
        rt: &HostRuntime,
        customer: u32,
        counterparty: u32,
        offer: u64,
        price: u64,
    ) -> anyhow::Result<()> {
        let (buyer, seller) = if self.room.position(customer, SERIES)? > 0 {
            (counterparty, customer)
        } else {
            (customer, counterparty)
        };
        let Answer { figure, lifted } = self
            .room
            .force(customer, counterparty, SERIES, offer, price)?;
        self.ledger.deal(Deal {
            buyer,
            seller,
            count: figure,
            price,
        })?;
        print!(rt;
            "force on {customer}, against {counterparty}, offer {offer} at {}, closed {figure}, lifted {lifted}",
            Rials::of(price)
        )?;
        self.print_balances(rt)
    }

    pub fn cover(&mut self, rt: &HostRuntime, customer: u32) -> anyhow::Result<()> {
        let amount = self.room.cover(customer)?.figure;
        self.ledger.pay(Kind::Cover, customer, amount)?;
        print!(rt; "cover of customer {customer}, {} paid", Rials::of(amount))?;
        self.print_balances(rt)
    }

    pub fn notices(&mut self, rt: &HostRuntime) -> anyhow::Result<()> {
        let called = self.room.notices()?.figure;
        print!(rt; "notices, called {called}")?;
        self.print_balances(rt)
    }
}
