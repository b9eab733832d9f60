//! The customers of a room.
ghost use Rattle.std.specs.Prelude.{◌≡◌, length};

use crate::customer::Customer;
use crate::position::Position;
use crate::positions::Positions;
use terms::ranges::{BrokerNumber, CustomerNumber, SeriesNumber};

/// The customers of a room: a row for each, that of account 1 first.
// One table a type, as `SeriesTable`: a generic struct with an array of its parameter is not supported.
#[derive(Clone, Copy)]
pub struct Customers {
    pub rows: [Customer; 56],
    ghost all: { length rows ≡ 56 },
}

#[tactic(auto, using(crate::proofs::Rows::changes))]
impl Customers {
    ghost use Rattle.std.specs.Prelude.{◌≡◌, ◌-◌, map, replicate, slice_set};
    ghost use Rattle.steps.specs.State.{customers, no_customer};
    ghost use Rattle.steps.specs.Deals.{with_positions};
    ghost use Rattle.steps.specs.Steps.{under_broker};
    ghost use Rattle.tables.specs.Views.{customer_of, customers_of, customer_at, closed_out};

    // No `Default`, as at `Position::none`.
    /// Nobody enrolled, no position, nobody under notice.
    #[tactic(auto, unfolding(steps::specs::State::customers, steps::specs::State::no_customer, steps::specs::State::all_series))]
    pub fn new() -> Customers
        ensures { customers_of result ≡ replicate customers no_customer }
    {
        let nobody = Customer {
            broker: None,
            positions: Positions::new(),
            notice: false,
        };
        Customers { rows: [nobody; 56] }
    }

    /// The customer of an account.
    pub fn get(&self, customer: CustomerNumber) -> &Customer
        ensures { customer_of result.now ≡ customer_at self.now customer.value }
    {
        &self.rows[customer.index()]
    }

    // Each change has its method: a row lent out as `&mut` from an array has no provable clause on what the table becomes.
    /// Puts a customer under a broker.
    pub fn enrol(&mut self, customer: CustomerNumber, broker: BrokerNumber)
        ensures { customers_of self.new ≡ slice_set (customers_of self.old) (customer.value - 1) (under_broker (customer_at self.old customer.value) broker.value) }
    {
        // The array is borrowed first: a row of `self.rows` itself is not covered beside a stated fact.
        let rows = &mut self.rows;
        rows[customer.index()].enrol(broker);
    }

    /// Replaces a customer's position in a series.
    pub fn hold(&mut self, customer: CustomerNumber, series: SeriesNumber, position: Position)
        ensures { customers_of self.new ≡ slice_set (customers_of self.old) (customer.value - 1) (with_positions (customer_at self.old customer.value) (slice_set (customer_at self.old customer.value).positions (series.value - 1) position.contracts)) }
    {
        let rows = &mut self.rows;
        rows[customer.index()].hold(series, position);
    }

    /// Ends every customer's position in a series.
    pub fn close_out(&mut self, series: SeriesNumber)
        ensures { customers_of self.new ≡ map (closed_out series.value) (customers_of self.old) }
    {
        for customer in self.rows.iter_mut() {
            customer.close_out(series);
        }
    }
}
