//! The net amounts of a call, account by account.
ghost use Rattle.std.specs.Prelude.{◌≡◌, ◌≤◌, map, pos, ◌-ℤ◌, if◌then◌else◌, nat_eq};
ghost use Rattle.std.specs.List.{range_with_len};
ghost use Rattle.steps.specs.State.{house};
ghost use Rattle.steps.specs.Steps.{alone};

use book::NetAmounts;
use exposure::deal::Shares;
use terms::ranges::{AccountNumber, BrokerNumber, CustomerNumber};

// An amount for one account, and nothing for the others.
pub(crate) fn for_one(account: AccountNumber, amount: i64) -> NetAmounts
    ensures { result ≡ map (alone account.value amount) (range_with_len 1 house) }
{
    let mut amounts = [0; 64];
    amounts[account.index()] = amount;
    amounts
}

// What a deal posts to its parties and to the house. The buyer is written last, so that its amount stands whoever sells.
pub(crate) fn for_deal(buyer: CustomerNumber, seller: CustomerNumber, shares: Shares) -> NetAmounts
    ensures { result ≡ map (λ n. (if nat_eq n buyer.value then shares.buyer else (if nat_eq n seller.value then shares.seller else (if nat_eq n 64 then shares.house else pos 0)))) (range_with_len 1 house) }
{
    let mut amounts = [0; 64];
    amounts[63] = shares.house;
    amounts[seller.index()] = shares.seller;
    amounts[buyer.index()] = shares.buyer;
    amounts
}

// An amount that a broker pays to a customer.
pub(crate) fn for_transfer(from: BrokerNumber, to: CustomerNumber, amount: u64) -> NetAmounts
    requires { amount ≤ 1000000000000000000 }
    ensures { result ≡ map (λ n. alone to.value (pos amount) n -ℤ alone from.value (pos amount) n) (range_with_len 1 house) }
{
    let paid = amount as i64;
    let mut amounts = [0; 64];
    // No `index`: the numbers of brokers do not start at 1.
    amounts[from.get() as usize - 1] = -paid;
    amounts[to.index()] = paid;
    amounts
}
