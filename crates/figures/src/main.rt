//! The worked figures: proved of the definitions, and tried with the code.
#![tactic(auto)]

ghost use Rattle.std.specs.Prelude.{◌≡◌, length};
ghost use Rattle.figures.specs.Worked as Worked;
ghost use Rattle.figures.specs.Worked.{Figures, worked};

use margin::flat::Flat;
use margin::rule::MarginRule;
use margin::share::Share;
use margin::tariff::Tariff;
use price::day::{Band, Session, Trade};
use price::settlement_price;
use std::io;

/// The definitions answer every worked figure as it was written down. Returns how many there are.
pub fn figures_stand() -> usize
    ensures all { Figures }
    ensures count { result ≡ length worked }
{
    9
}

/// A session that ends at noon, with the band 900 to 1,100.
fn noon(bid: Option<u64>, ask: Option<u64>) -> Session
    ensures { result ≡ Worked.noon bid ask }
{
    Session {
        last: 43_200,
        band: Band {
            low: 900,
            high: 1_100,
        },
        bid,
        ask,
        committee: None,
    }
}

fn at(second: u64, price: u64, count: u64) -> Trade
    ensures { result ≡ Worked.at second price count }
{
    Trade {
        second,
        price,
        count,
    }
}

fn print_price(
    rt: &HostRuntime,
    what: &str,
    trades: &[Trade],
    session: &Session,
) -> io::Result<()> {
    match settlement_price(trades, session) {
        Ok(settlement) => {
            let price = settlement.price.get();
            let letter = settlement.rule.letter();
            println!(rt; "{what}: {price} by {letter}")
        }
        Err(fault) => {
            let number = fault.number();
            println!(rt; "{what}: refused with {number}")
        }
    }
}

fn print_margins<R: MarginRule>(
    rt: &HostRuntime,
    what: &str,
    rule: &R,
    price: u64,
    count: u64,
) -> io::Result<()> {
    let (initial, minimum) = rule.margins(1, 10, price, count);
    println!(rt; "{what}: {initial} and {minimum}")
}

fn print_prices(rt: &HostRuntime) -> io::Result<()> {
    let quiet = noon(None, None);
    print_price(
        rt,
        "3 at 1,000 and 1 at 1,002",
        &[at(43_200, 1_000, 3), at(43_200, 1_002, 1)],
        &quiet,
    )?;
    print_price(
        rt,
        "day 10, half hour 2",
        &[at(36_000, 990, 8), at(41_400, 1_000, 2)],
        &quiet,
    )?;
    print_price(
        rt,
        "day 11, half hour 2",
        &[at(36_000, 990, 9), at(41_400, 1_000, 2)],
        &quiet,
    )?;
    print_price(rt, "bid 990, ask 1,001", &[], &noon(Some(990), Some(1_001)))
}

fn main(rt: HostRuntime) -> anyhow::Result<()> {
    let count = figures_stand();
    println!(rt; "proved of the definitions: {count}")?;
    print_prices(&rt)?;
    print_margins(
        &rt,
        "flat 5,000 and 3,500, 2 contracts",
        &Flat::uniform(Tariff::new(5_000, 3_500)?),
        1_000,
        2,
    )?;
    print_margins(
        &rt,
        "share 1,250 and 7,000, 3 contracts at 1,003",
        &Share::new(1_250, 7_000)?,
        1_003,
        3,
    )?;
    Ok(())
}
