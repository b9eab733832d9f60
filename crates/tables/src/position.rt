//! A position in one series.
ghost use Rattle.std.specs.Prelude.{◌≡◌, ◌≤◌, pos, ◌+ℤ◌, neg_ℤ, if◌then◌else◌, Some, None, nat_le, unsigned_abs};
ghost use Rattle.std.specs.Option.{option_map};
ghost use Rattle.steps.specs.Deals.{is_long};

use terms::ranges::Count;

/// Contracts held, long positive: at most 1,000 either way.
#[derive(Clone, Copy, PartialEq, Eq, Debug)]
pub struct Position {
    pub contracts: i64,
    ghost small: { unsigned_abs contracts ≤ 1000 },
}

impl Position {
    // No `Default`: none can be derived beside a stated fact, and by hand it would only say this again.
    /// No contract.
    pub fn none() -> Position
        ensures { result.contracts ≡ pos 0 }
    {
        Position { contracts: 0 }
    }

    /// A position of so many contracts, unless there are too many.
    pub fn new(contracts: i64) -> Option<Position>
        ensures { option_map (λ p. p.contracts) result ≡ (if nat_le (unsigned_abs contracts) 1000 then Some contracts else None) }
    {
        if (-1_000..=1_000).contains(&contracts) {
            Some(Position { contracts })
        } else {
            None
        }
    }

    // No `From<Count>`: a count says no side, and these two names do.
    /// So many contracts bought.
    pub fn long(count: Count) -> Position
        ensures { result.contracts ≡ pos count.value }
    {
        // `as`: no `From` makes an `i64` of a `u64`, and the check proves that nothing is lost.
        Position {
            contracts: count.get() as i64,
        }
    }

    /// So many contracts sold.
    pub fn short(count: Count) -> Position
        ensures { result.contracts ≡ neg_ℤ (pos count.value) }
    {
        Position {
            contracts: -(count.get() as i64),
        }
    }

    /// The position after a move, unless it holds too many contracts.
    pub fn moved(self, by: Position) -> Option<Position>
        ensures { option_map (λ p. p.contracts) result ≡ (if nat_le (unsigned_abs (self.contracts +ℤ by.contracts)) 1000 then Some (self.contracts +ℤ by.contracts) else None) }
    {
        Position::new(self.contracts + by.contracts)
    }

    /// The contracts, long positive.
    pub fn get(self) -> i64
        ensures { result ≡ self.contracts }
    {
        self.contracts
    }

    /// Whether the position is long; that of no contract is.
    pub fn is_long(self) -> bool
        ensures { result ≡ is_long self.contracts }
    {
        self.get() >= 0
    }

    /// How many contracts, on whichever side.
    pub fn count(self) -> u64
        ensures { result ≡ unsigned_abs self.contracts }
    {
        self.get().unsigned_abs()
    }
}
