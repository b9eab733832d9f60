//! Numbers that come in raw, and the refusals of those out of range.
ghost use Rattle.std.specs.Prelude.{◌≡◌, not, ◌||◌};
ghost use Rattle.steps.specs.State.{is_customer, is_broker};
ghost use Rattle.steps.specs.Refusals.{refuse, not_series, bad_count, bad_price, unless};
ghost use Rattle.terms.specs.declared.fault.Fault.TheVariants.{AccountKind, OutOfRange};
ghost use Rattle.desk.specs.Moves.{Granted};

use book::ACCOUNTS;
use tables::series::Specification;
use terms::fault::Fault;
use terms::ranges::{AccountNumber, Ranged, SeriesNumber};

/// An account of the kind that its range says: a customer's, a broker's or any.
pub(crate) fn account_in<const LOW: u64, const HIGH: u64>(
    account: u32,
) -> Result<Ranged<LOW, HIGH>, Fault>
    ensures { Granted result (refuse (unless LOW HIGH account) (AccountKind account)) (λ n. n.value ≡ account) }
{
    Ranged::new(u64::from(account)).ok_or(Fault::AccountKind { account })
}

/// An account that can be paid into: a customer's or a broker's.
pub(crate) fn payer_number(account: u32) -> Result<AccountNumber, Fault>
    ensures { Granted result (refuse (not (is_customer account || is_broker account)) (AccountKind account)) (λ n. n.value ≡ account) }
{
    // Not by the range 1 to 63: whoever posts the amount takes any account, and would have to make the number again.
    let payer: AccountNumber = account_in(account)?;
    if account == ACCOUNTS {
        return Err(Fault::AccountKind { account });
    }
    Ok(payer)
}

pub(crate) fn series_number(series: u32) -> Result<SeriesNumber, Fault>
    ensures { Granted result (not_series series) (λ i. i.value ≡ series) }
{
    Ranged::new(u64::from(series)).ok_or(Fault::NoSeries { series })
}

/// A number in the range that its type says: `try_from`, by a clause that speaks of a refusal as the lists of them do.
pub(crate) fn in_range<const LOW: u64, const HIGH: u64>(
    number: u64,
) -> Result<Ranged<LOW, HIGH>, Fault>
    ensures { Granted result (refuse (unless LOW HIGH number) OutOfRange) (λ x. x.value ≡ number) }
{
    Ranged::try_from(number)
}

/// What a series is listed with, each number in its range.
pub(crate) fn specification_in_range(
    size: u64,
    limit: u64,
    price: u64,
    fee: u64,
) -> Result<Specification, Fault>
    ensures { Granted result (refuse (bad_count size || bad_count limit || bad_price price || unless 0 1000000 fee) OutOfRange) (λ x. (x.size.value ≡ size) × (x.limit.value ≡ limit) × (x.price.value ≡ price) × (x.fee.value ≡ fee)) }
{
    Ok(Specification {
        size: in_range(size)?,
        limit: in_range(limit)?,
        price: in_range(price)?,
        fee: in_range(fee)?,
    })
}
