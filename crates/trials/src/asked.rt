//! The calls of the trials in few words. All are about series 1, but where another is named.
ghost use Rattle.std.specs.Prelude.{◌≡◌};
ghost use Rattle.terms.specs.declared.call.Call.TheVariants.{Enrol, List, Deposit, Withdraw, Trade, Mark, Final, Force, Cover};

use terms::call::Call;

pub fn enrol(customer: u32, broker: u32) -> Call
    ensures { result ≡ Enrol customer broker }
{
    Call::Enrol { customer, broker }
}

/// A fee of 20 rials a contract.
pub fn list(series: u32, size: u64, limit: u64, price: u64) -> Call
    ensures { result ≡ List size limit series price 20 }
{
    Call::List {
        size,
        limit,
        series,
        price,
        fee: 20,
    }
}

pub fn deposit(account: u32, amount: u64) -> Call
    ensures { result ≡ Deposit account amount }
{
    Call::Deposit { account, amount }
}

pub fn withdraw(account: u32, amount: u64) -> Call
    ensures { result ≡ Withdraw account amount }
{
    Call::Withdraw { account, amount }
}

pub fn trade(buyer: u32, seller: u32, count: u64, price: u64) -> Call
    ensures { result ≡ Trade buyer seller 1 count price }
{
    Call::Trade {
        buyer,
        seller,
        series: 1,
        count,
        price,
    }
}

pub fn mark(series: u32, price: u64) -> Call
    ensures { result ≡ Mark series price }
{
    Call::Mark { series, price }
}

/// A mark that ends the series.
pub fn end(series: u32, price: u64) -> Call
    ensures { result ≡ Final series price }
{
    Call::Final { series, price }
}

pub fn force(customer: u32, counterparty: u32, offer: u64, price: u64) -> Call
    ensures { result ≡ Force customer counterparty 1 offer price }
{
    Call::Force {
        customer,
        counterparty,
        series: 1,
        offer,
        price,
    }
}

pub fn cover(customer: u32) -> Call
    ensures { result ≡ Cover customer }
{
    Call::Cover { customer }
}
