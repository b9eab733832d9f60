//! The book that is a table: one balance an account.
ghost use Rattle.std.specs.Prelude.{◌≡◌, ℕ, true, length, replicate, pos, slice_index_or};
ghost use Rattle.std.proofs.Common.{zero-le};
ghost use Rattle.book.specs.Balances.{in_bounds};

use super::balance::{ACCOUNTS, balance_after};
use super::kind::Book;
use terms::fault::Fault;
use terms::ranges::AccountNumber;

/// A book that keeps one balance an account. Its postings take no line, and it never has one left.
#[derive(Drop)]
pub struct TableBook {
    table: [i64; ACCOUNTS as usize],
    ghost accounts: { length table ≡ 64 },
    ghost bounded: { (k : ℕ) → in_bounds (slice_index_or table k (pos 0)) ≡ true },
}

impl TableBook {
    /// A book in which every balance is 0.
    pub fn new() -> Self
        ensures empty { result.table ≡ replicate 64 (pos 0) }
    {
        TableBook {
            table: [0; ACCOUNTS as usize],
        }
    }
}

impl Book for TableBook {
    const COST: u64 = 0;

    ghost COST = { 0 };

    ghost balances = { λ s. s.table };

    ghost lines = { λ _. 0 };

    ghost kept = { λ _ _. Unit {0} };

    ghost laws = { record { accounts = λ s. s.accounts; bounded = λ s. s.bounded; cost = zero-le; stays = λ _. tt; joins = λ _ _ _ _ _. tt } };

    fn balance(&self, account: u32) -> i64 {
        AccountNumber::new(u64::from(account)).map_or(0, |number| self.table[number.index()])
    }

    fn lines_left(&self) -> u64 {
        0
    }

    fn post(&mut self, account: u32, amount: i64) -> Result<(), Fault> {
        let refusal = Fault::OutOfBounds { account };
        let at = AccountNumber::new(u64::from(account))
            .ok_or(refusal)?
            .index();
        self.table[at] = balance_after(self.table[at], amount).ok_or(refusal)?;
        Ok(())
    }
}
