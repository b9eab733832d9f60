//! A customer.
ghost use Rattle.std.specs.Prelude.{◌≡◌, ◌-◌, slice_set};
ghost use Rattle.steps.specs.Deals.{with_positions};
ghost use Rattle.steps.specs.Steps.{noted, under_broker};
ghost use Rattle.tables.specs.Views.{customer_of, closed_out};

use crate::position::Position;
use crate::positions::Positions;
use terms::ranges::{BrokerNumber, SeriesNumber};

/// A customer: its broker once it is enrolled, its positions, and whether it is under notice.
#[derive(Clone, Copy)]
pub struct Customer {
    pub broker: Option<BrokerNumber>,
    pub positions: Positions,
    pub notice: bool,
}

impl Customer {
    /// Puts the customer under a broker.
    pub fn enrol(&mut self, broker: BrokerNumber)
        ensures { customer_of self.new ≡ under_broker (customer_of self.old) broker.value }
    {
        self.broker = Some(broker);
    }

    /// Replaces the position in a series.
    pub fn hold(&mut self, series: SeriesNumber, position: Position)
        ensures { customer_of self.new ≡ with_positions (customer_of self.old) (slice_set (customer_of self.old).positions (series.value - 1) position.contracts) }
    {
        self.positions.put(series, position);
    }

    /// Ends the position in a series.
    pub fn close_out(&mut self, series: SeriesNumber)
        ensures { customer_of self.new ≡ closed_out series.value (customer_of self.old) }
    {
        self.hold(series, Position::none());
    }

    /// Puts the customer under notice, or lifts it out.
    pub fn turn(&mut self, notice: bool)
        ensures { customer_of self.new ≡ noted (customer_of self.old) notice }
    {
        self.notice = notice;
    }
}
