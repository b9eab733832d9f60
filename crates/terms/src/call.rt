//! What the clearing is asked to do, and what it answers.

/// One of the thirteen calls, with its numbers as they come in: whether they are in range is for the clearing to say.
#[derive(Clone, Copy, PartialEq, Eq, Debug)]
pub enum Call {
    /// Opens the room.
    Begin,
    /// Puts a customer under a broker.
    Enrol {
        customer: u32,
        broker: u32,
    },
    /// Opens a series for the only time.
    List {
        size: u64,
        limit: u64,
        series: u32,
        price: u64,
        fee: u64,
    },
    Deposit {
        account: u32,
        amount: u64,
    },
    Withdraw {
        account: u32,
        amount: u64,
    },
    Trade {
        buyer: u32,
        seller: u32,
        series: u32,
        count: u64,
        price: u64,
    },
    /// Ends the session: what follows is late.
    Late,
    /// Ends trading for the day.
    Shut,
    /// Settles a series at a price, which stands from then on.
    Mark {
        series: u32,
        price: u64,
    },
    /// Settles a series for the last time.
    Final {
        series: u32,
        price: u64,
    },
    /// Closes a position of a customer under notice.
    Force {
        customer: u32,
        counterparty: u32,
        series: u32,
        offer: u64,
        price: u64,
    },
    /// Has a broker pay its customer's debt.
    Cover {
        customer: u32,
    },
    /// Calls the customers below their minimum margin, and ends the day.
    Notices,
}

/// The answer to a call that was accepted: a figure, and how many customers were lifted out of their notice.
#[derive(Clone, Copy, PartialEq, Eq, Debug)]
pub struct Answer {
    pub figure: u64,
    pub lifted: u32,
}
