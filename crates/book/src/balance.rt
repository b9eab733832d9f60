//! The accounts of a book, and the bounds of a balance.
ghost use Rattle.std.specs.Prelude.{◌≡◌};
ghost use Rattle.book.specs.Balances.{new_balance};

/// Accounts are 1 to this.
pub const ACCOUNTS: u32 = 64;

/// A balance is from minus this to this, in rials.
pub const LIMIT: i64 = 1_000_000_000_000_000_000;

/// The balance after a posting of this amount, if it is within bounds.
pub fn balance_after(balance: i64, amount: i64) -> Option<i64>
    ensures answer { result ≡ new_balance balance amount }
{
    balance
        .checked_add(amount)
        .filter(|next| (-LIMIT..=LIMIT).contains(next))
}
