//! What a room holds.
use book::Book;
use margin::rule::MarginRule;
use steps::Phase;
use tables::customers::Customers;
use tables::series_table::SeriesTable;

/// The phase, the customers and the series of a room, the book that it posts to and the rule that it asks.
/// While the desk lives nobody else can change the book.
#[derive(Drop)]
pub struct Desk<'b, 'r, B: Book, R: MarginRule> {
    pub(crate) phase: Phase,
    pub(crate) customers: Customers,
    pub(crate) series: SeriesTable,
    pub(crate) book: &'b mut B,
    pub(crate) rule: &'r R,
}
