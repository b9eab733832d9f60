//! Numbers that are known to lie in their range.
ghost use Rattle.std.specs.Prelude.{◌≡◌, ◌-◌, ◌≤◌};
ghost use Rattle.std.specs.Option.{option_map};
ghost use Rattle.std.specs.Result.{result_map_both};
ghost use Rattle.terms.specs.Ranges.{in_range, tried};

use crate::fault::Fault;

/// A whole number from `LOW` to `HIGH`.
#[derive(Clone, Copy, PartialEq, Eq, PartialOrd, Ord, Debug)]
pub struct Ranged<const LOW: u64, const HIGH: u64> {
    value: u64,
    ghost low: { LOW ≤ value },
    ghost high: { value ≤ HIGH },
}

/// A price, in rials.
pub type Price = Ranged<1, 1_000_000_000>;

/// A number of contracts.
pub type Count = Ranged<1, 1_000>;

/// A second of the day.
pub type Second = Ranged<0, 86_399>;

/// A fee for one contract, in rials.
pub type Fee = Ranged<0, 1_000_000>;

/// An amount that is paid in or out, in rials.
pub type Amount = Ranged<1, 1_000_000_000_000_000>;

/// An account: a customer's, a broker's or that of the house.
pub type AccountNumber = Ranged<1, 64>;

/// The account of a customer.
pub type CustomerNumber = Ranged<1, 56>;

/// The account of a broker.
pub type BrokerNumber = Ranged<57, 63>;

/// The number of a series.
pub type SeriesNumber = Ranged<1, 24>;

impl<const HIGH: u64> Ranged<0, HIGH> {
    // No `Default`: none can be derived beside a stated fact, and by hand it would only say this again.
    /// The number 0.
    pub fn nought() -> Ranged<0, HIGH>
        ensures { result.value ≡ 0 }
    {
        Ranged { value: 0 }
    }
}

impl<const LOW: u64, const HIGH: u64> Ranged<LOW, HIGH> {
    /// The number as one of this range, if it lies in it.
    pub fn new(value: u64) -> Option<Self>
        ensures { option_map (λ x. x.value) result ≡ in_range LOW HIGH value }
    {
        if (LOW..=HIGH).contains(&value) {
            Some(Ranged { value })
        } else {
            None
        }
    }

    /// The number itself.
    pub fn get(self) -> u64
        ensures { result ≡ self.entry.value }
    {
        self.value
    }

    /// The same number, in the range that starts at 0.
    pub fn from_nought(self) -> Ranged<0, HIGH>
        ensures { result.value ≡ self.entry.value }
    {
        Ranged { value: self.value }
    }
}

impl<const HIGH: u64> Ranged<1, HIGH> {
    /// Where a table that has a row for each number of this range keeps that of this one.
    pub fn index(self) -> usize
        ensures { result ≡ self.entry.value - 1 }
    {
        self.get() as usize - 1
    }
}

/// A number out of the range is refused.
impl<const LOW: u64, const HIGH: u64> TryFrom<u64> for Ranged<LOW, HIGH> {
    type Error = Fault;

    ghost try_from_gives = { λ value result. result_map_both (λ x. x.value) (λ fault. fault) result ≡ tried LOW HIGH value };

    fn try_from(value: u64) -> Result<Self, Fault> {
        Ranged::new(value).ok_or(Fault::OutOfRange)
    }
}
