//! The room.
use book::Book;
use desk::Desk;
use margin::rule::MarginRule;

/// A clearing room over a book and a margin rule. Its tables are its own, and while it lives nobody else changes the book.
#[derive(Drop)]
pub struct Room<'b, 'r, B: Book, R: MarginRule> {
    pub(crate) desk: Desk<'b, 'r, B, R>,
}
