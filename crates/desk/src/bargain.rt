//! What two customers agree on, and what becomes of it.
ghost use Rattle.std.specs.Prelude.{◌≢◌};

use tables::position::Position;
use terms::ranges::{Count, CustomerNumber, Price, SeriesNumber};

/// What is dealt in: so many contracts of a series at a price.
#[derive(Clone, Copy)]
pub(crate) struct Lot {
    pub(crate) series: SeriesNumber,
    pub(crate) count: Count,
    pub(crate) price: Price,
}

/// The sides of a deal.
#[derive(Clone, Copy)]
pub(crate) enum Side {
    Buyer,
    Seller,
}

/// What a call says of a deal, each number in its range: one customer, another, and what they deal in.
#[derive(Clone, Copy)]
pub(crate) struct Terms {
    pub(crate) one: CustomerNumber,
    pub(crate) other: CustomerNumber,
    pub(crate) lot: Lot,
    ghost apart: { one.value ≢ other.value },
}

/// A deal between two customers, with the positions that it leaves them.
#[derive(Clone, Copy)]
pub(crate) struct Bargain {
    pub(crate) buyer: CustomerNumber,
    pub(crate) seller: CustomerNumber,
    pub(crate) lot: Lot,
    pub(crate) buyer_after: Position,
    pub(crate) seller_after: Position,
}
