//! The room tried beyond its proofs: calls in words, each with the answer that it got.
#![tactic(auto)]

use crate::asked::{deposit, enrol, force, list, mark, trade};
use crate::trial::Trial;
use book::{Book, TableBook};
use margin::flat::Flat;
use margin::tariff::Tariff;
use std::io;
use terms::call::Call;

mod asked;
mod refusals;
mod trial;

// Opens a room: two customers under broker 57, and series 1.
fn open(trial: &mut Trial<'_, '_>, rt: &HostRuntime) -> io::Result<()> {
    trial.make(
        rt,
        &[
            ("begin", Call::Begin),
            ("enrol customer 1 under broker 57", enrol(1, 57)),
            ("enrol customer 2 under broker 57", enrol(2, 57)),
            (
                "list series 1: size 10, limit 50, price 1,000, fee 20",
                list(1, 10, 50, 1_000),
            ),
        ],
    )
}

// A customer is called, pays just what it owes, is called again, and is closed out.
fn called_twice(rt: &HostRuntime, rule: &Flat) -> anyhow::Result<()> {
    println!(rt; "Called, freed and called again")?;
    let mut book = TableBook::new();
    let mut trial = Trial::new(&mut book, rule);
    open(&mut trial, rt)?;
    trial.make(
        rt,
        &[
            ("deposit 12,000 to customer 1", deposit(1, 12_000)),
            ("deposit 60,000 to customer 2", deposit(2, 60_000)),
            ("1 buys 2 contracts of 2 at 1,000", trade(1, 2, 2, 1_000)),
            ("late", Call::Late),
            ("shut", Call::Shut),
            ("mark series 1 at 700", mark(1, 700)),
            ("notices", Call::Notices),
        ],
    )?;
    trial.print_standing(rt, 1)?;
    trial.make(
        rt,
        &[
            ("deposit 4,039 to customer 1", deposit(1, 4_039)),
            ("deposit 1 to customer 1", deposit(1, 1)),
            ("late", Call::Late),
            ("shut", Call::Shut),
            ("mark series 1 at 500", mark(1, 500)),
            ("notices", Call::Notices),
        ],
    )?;
    trial.print_standing(rt, 1)?;
    trial.make(
        rt,
        &[
            ("late", Call::Late),
            ("force on 1, against 2, offer 2 at 500", force(1, 2, 2, 500)),
        ],
    )?;
    trial.print_standing(rt, 1)
}

// One contract of size 1, so that a mark can move a balance by 1 rial.
fn at_the_minimum(rt: &HostRuntime, rule: &Flat) -> anyhow::Result<()> {
    println!(rt; "At the minimum margin, and 1 rial below it")?;
    let mut book = TableBook::new();
    let mut trial = Trial::new(&mut book, rule);
    trial.make(
        rt,
        &[
            ("begin", Call::Begin),
            ("enrol customer 1 under broker 57", enrol(1, 57)),
            ("enrol customer 2 under broker 57", enrol(2, 57)),
            (
                "list series 1: size 1, limit 50, price 10,000, fee 20",
                list(1, 1, 50, 10_000),
            ),
            ("deposit 5,019 to customer 1", deposit(1, 5_019)),
            ("deposit 60,000 to customer 2", deposit(2, 60_000)),
            ("1 buys 1 contract of 2 at 10,000", trade(1, 2, 1, 10_000)),
            ("deposit 1 to customer 1", deposit(1, 1)),
            ("1 buys 1 contract of 2 at 10,000", trade(1, 2, 1, 10_000)),
        ],
    )?;
    for (what, price) in [
        ("mark series 1 at 8,500", 8_500),
        ("mark series 1 at 8,499", 8_499),
    ] {
        let day = [
            ("late", Call::Late),
            ("shut", Call::Shut),
            (what, mark(1, price)),
            ("notices", Call::Notices),
        ];
        trial.make(rt, &day)?;
        trial.print_standing(rt, 1)?;
    }
    Ok(())
}

// The worked day, call by call, up to the force that ends it.
fn worked_calls(trial: &mut Trial<'_, '_>, rt: &HostRuntime) -> anyhow::Result<()> {
    open(trial, rt)?;
    trial.make(
        rt,
        &[
            ("deposit 12,000 to customer 1", deposit(1, 12_000)),
            ("deposit 30,000 to customer 2", deposit(2, 30_000)),
            ("1 buys 2 contracts of 2 at 1,010", trade(1, 2, 2, 1_010)),
            ("late", Call::Late),
            ("shut", Call::Shut),
            ("mark series 1 at 600", mark(1, 600)),
            ("notices", Call::Notices),
        ],
    )?;
    let owed = trial.owed(1)?;
    println!(rt; "      customer 1 owes {owed}")?;
    trial.make(
        rt,
        &[
            ("1 buys 1 more of 2 at 600", trade(1, 2, 1, 600)),
            ("late", Call::Late),
            ("force on 1, against 2, offer 2 at 590", force(1, 2, 2, 590)),
        ],
    )?;
    Ok(())
}

fn worked_day(rt: &HostRuntime, rule: &Flat) -> anyhow::Result<()> {
    println!(rt; "The worked day")?;
    let mut book = TableBook::new();
    {
        let mut trial = Trial::new(&mut book, rule);
        worked_calls(&mut trial, rt)?;
    }
    let first = book.balance(1);
    let second = book.balance(2);
    let house = book.balance(64);
    println!(rt; "      it ends with {first}, {second} and {house} for the house")?;
    Ok(())
}

fn main(rt: HostRuntime) -> anyhow::Result<()> {
    let rule = Flat::uniform(Tariff::new(5_000, 3_500)?);
    called_twice(&rt, &rule)?;
    at_the_minimum(&rt, &rule)?;
    worked_day(&rt, &rule)?;
    refusals::of_calls(&rt, &rule)?;
    refusals::of_full_balance(&rt, &rule)?;
    refusals::of_begin(&rt, &rule)
}
