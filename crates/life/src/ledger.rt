//! What the run notes for itself, payments and trades, to say what a balance is made of. Nothing in a run comes near
//! the end of an i128, where the sums would stop.
use std::alloc::{AllocError, Global};

/// Rials a contract for each step of the price.
pub const SIZE: u64 = 10;

/// Rials that each party pays for a contract.
pub const FEE: u64 = 20;

/// A trade, or a force as the trade that it is.
#[derive(Clone, Copy)]
pub struct Deal {
    pub buyer: u32,
    pub seller: u32,
    pub count: u64,
    pub price: u64,
}

/// Why an amount moved.
#[derive(Clone, Copy, PartialEq, Eq)]
pub enum Kind {
    Deposit,
    Withdrawal,
    Cover,
}

#[derive(Clone, Copy)]
struct Payment {
    kind: Kind,
    account: u32,
    amount: u64,
}

/// The parts that a balance is made of. What was paid out and the fees count against it.
#[derive(Clone, Copy)]
pub struct Parts {
    pub deposited: i128,
    pub withdrawn: i128,
    pub fees: i128,
    pub cover: i128,
    pub gains: i128,
}

/// The payments and the trades of a run, and the price that stands.
#[derive(Drop)]
pub struct Ledger {
    payments: Vec<Payment>,
    deals: Vec<Deal>,
    price: u64,
}

#[derive(Clone, Copy)]
enum Side {
    Buyer,
    Seller,
}

impl Deal {
    // The side on which a customer stands, if it is a party of the deal.
    fn side(self, customer: u32) -> Option<Side> {
        if self.buyer == customer {
            Some(Side::Buyer)
        } else if self.seller == customer {
            Some(Side::Seller)
        } else {
            None
        }
    }

    fn fee(self) -> i128 {
        i128::from(self.count).saturating_mul(i128::from(FEE))
    }

    // What the deal has gained for its buyer, at the price that stands.
    fn gain(self, price: u64) -> i128 {
        let each = i128::from(price)
            .saturating_sub(i128::from(self.price))
            .saturating_mul(i128::from(SIZE));
        i128::from(self.count).saturating_mul(each)
    }

    // What it has gained for a customer.
    fn gain_of(self, customer: u32, price: u64) -> i128 {
        match self.side(customer) {
            Some(Side::Buyer) => self.gain(price),
            Some(Side::Seller) => 0i128.saturating_sub(self.gain(price)),
            None => 0,
        }
    }
}

impl Parts {
    /// The balance that the parts make.
    pub fn balance(self) -> i128 {
        self.deposited
            .saturating_sub(self.withdrawn)
            .saturating_sub(self.fees)
            .saturating_add(self.cover)
            .saturating_add(self.gains)
    }
}

impl Ledger {
    /// A ledger of a series that is listed at this price.
    pub fn new(alloc: Global, price: u64) -> Ledger {
        Ledger {
            payments: Vec::new(alloc),
            deals: Vec::new(alloc),
            price,
        }
    }

    /// Notes an amount that an account paid in, was paid, or had covered.
    pub fn pay(&mut self, kind: Kind, account: u32, amount: u64) -> Result<(), AllocError> {
        self.payments.push(Payment {
            kind,
            account,
            amount,
        })?;
        Ok(())
    }

    pub fn deal(&mut self, deal: Deal) -> Result<(), AllocError> {
        self.deals.push(deal)?;
        Ok(())
    }

    /// Notes the price that stands from now on.
    pub fn stand(&mut self, price: u64) {
        self.price = price;
    }

    /// The payments of a kind, of one account or of all.
    pub fn paid(&self, kind: Kind, account: Option<u32>) -> i128 {
        self.payments
            .iter()
            .filter(|payment| payment.kind == kind)
            .filter(|payment| account.is_none_or(|account| account == payment.account))
            .map(|payment| i128::from(payment.amount))
            .fold(0, i128::saturating_add)
    }

    fn fees(&self, customer: u32) -> i128 {
        self.deals
            .iter()
            .filter(|deal| deal.side(customer).is_some())
            .map(|deal| deal.fee())
            .fold(0, i128::saturating_add)
    }

    fn gains(&self, customer: u32) -> i128 {
        self.deals
            .iter()
            .map(|deal| deal.gain_of(customer, self.price))
            .fold(0, i128::saturating_add)
    }

    /// What a customer's balance is made of, at the price that stands.
    pub fn parts(&self, customer: u32) -> Parts {
        Parts {
            deposited: self.paid(Kind::Deposit, Some(customer)),
            withdrawn: self.paid(Kind::Withdrawal, Some(customer)),
            fees: self.fees(customer),
            cover: self.paid(Kind::Cover, Some(customer)),
            gains: self.gains(customer),
        }
    }
}
