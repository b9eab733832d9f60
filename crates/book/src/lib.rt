//! A book: 64 balances and the lines that are left in it, postings made all or none, and the book that is a table.
#![tactic(auto)]

mod balance;
mod kind;
mod posting;
mod table;

pub use balance::{ACCOUNTS, LIMIT, balance_after};
pub use kind::Book;
pub use posting::{NetAmounts, post_all};
pub use table::TableBook;

#[cfg(test)]
mod tests {
    use super::*;
    use terms::fault::Fault;

    #[test]
    fn a_balance_ends_at_its_bounds(rt: HostRuntime) {
        let mut book = TableBook::new();
        assert_eq!(rt; book.post(1, LIMIT), Ok(()));
        assert_eq!(rt; book.post(1, 1), Err(Fault::OutOfBounds { account: 1 }));
        assert_eq!(rt;
            book.post(1, i64::MAX),
            Err(Fault::OutOfBounds { account: 1 })
        );
        assert_eq!(rt; book.balance(1), LIMIT);
        assert_eq!(rt; book.post(64, -LIMIT), Ok(()));
        assert_eq!(rt; book.post(64, -1), Err(Fault::OutOfBounds { account: 64 }));
        assert_eq!(rt; book.balance(64), -LIMIT);
        assert_eq!(rt; book.lines_left(), 0);
    }

    #[test]
    fn accounts_are_1_to_64(rt: HostRuntime) {
        let mut book = TableBook::new();
        assert_eq!(rt; book.post(0, 5), Err(Fault::OutOfBounds { account: 0 }));
        assert_eq!(rt; book.post(65, 5), Err(Fault::OutOfBounds { account: 65 }));
        assert_eq!(rt; book.balance(0), 0);
        assert_eq!(rt; book.balance(65), 0);
    }

    #[test]
    fn all_are_posted_or_none(rt: HostRuntime) {
        let mut book = TableBook::new();
        assert_eq!(rt; book.post(64, 1), Ok(()));
        let mut amounts = [0; 64];
        amounts[0] = 5;
        amounts[30] = -7;
        amounts[63] = LIMIT;
        assert_eq!(rt;
            post_all(&mut book, &amounts),
            Err(Fault::OutOfBounds { account: 64 })
        );
        assert_eq!(rt; book.balance(1), 0);
        assert_eq!(rt; book.balance(31), 0);
        assert_eq!(rt; book.balance(64), 1);
        amounts[63] = LIMIT - 1;
        assert_eq!(rt; post_all(&mut book, &amounts), Ok(()));
        assert_eq!(rt; book.balance(1), 5);
        assert_eq!(rt; book.balance(31), -7);
        assert_eq!(rt; book.balance(64), LIMIT);
    }
}
