//! What a contract of one series asks.
ghost use Rattle.std.specs.Prelude.{◌≡◌, ◌≤◌, ◌&&◌, nat_le};
ghost use Rattle.margin.specs.Settings.{numbers_of, setting};

use terms::fault::Fault;

/// The margins of one contract: an initial of 0 to 10^12 rials, and a minimum that is not above it.
#[derive(Clone, Copy)]
pub struct Tariff {
    pub initial: u64,
    pub minimum: u64,
    ghost bounded: { initial ≤ 1000000000000 },
    ghost ordered: { minimum ≤ initial },
}

impl Tariff {
    // No `Default`: none can be derived beside a stated fact, and by hand it would only say this again.
    /// The tariff that asks nothing.
    pub const NOUGHT: Tariff = Tariff {
        initial: 0,
        minimum: 0,
    };

    /// The tariff of these numbers, if they are in range.
    pub fn new(initial: u64, minimum: u64) -> Result<Tariff, Fault>
        ensures { numbers_of (λ t. (t.initial, t.minimum)) result ≡ setting (nat_le initial 1000000000000 && nat_le minimum initial) (initial, minimum) }
    {
        if (minimum..=1_000_000_000_000).contains(&initial) {
            Ok(Tariff { initial, minimum })
        } else {
            Err(Fault::OutOfRange)
        }
    }
}
