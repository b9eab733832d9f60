//! What a book means, whatever its kind.
ghost use Rattle.std.specs.Prelude.{◌≡◌, ℕ, ◌-◌, false, List, ℤ, is_ok, if◌then◌else◌};
ghost use Rattle.book.specs.Balances.{of_account};
ghost use Rattle.book.specs.Laws.{BookLaws};
ghost use Rattle.book.specs.Postings.{post_answer, posted_to};

use terms::fault::Fault;

/// A book of any kind.
pub trait Book {
    /// The lines that one posting takes, 0 or 1.
    const COST: u64;

    // The same in clauses.
    ghost COST: { ℕ };

    /// The balances of accounts 1 to 64.
    ghost balances: { Self → List ℤ };

    /// The lines that are left.
    ghost lines: { Self → ℕ };

    /// That the second holds the memory that was lent to the first.
    ghost kept: { Self → Self → Type 0 };

    /// What every kind must show.
    ghost laws: { BookLaws balances COST kept };

    /// The balance of an account; 0 for a number that is no account.
    fn balance(&self, account: u32) -> i64
        ensures answer { result ≡ of_account (balances self.now) account };

    /// The lines that are left.
    fn lines_left(&self) -> u64
        ensures answer { result ≡ lines self.now };

    /// Adds the amount to the account's balance, or refuses and changes nothing.
    fn post(&mut self, account: u32, amount: i64) -> Result<(), Fault>
        ensures answer { result ≡ post_answer (balances self.old) (lines self.old) COST account amount }
        ensures after { balances self.new ≡ (if is_ok result then posted_to (balances self.old) account amount else balances self.old) }
        ensures spent { lines self.new ≡ (if is_ok result then lines self.old - COST else lines self.old) }
        ensures place { kept self.old self.new }
        ensures whole { is_ok result ≡ false → self.new ≡ self.old };
}
