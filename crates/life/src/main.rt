//! The whole life of a contract in one run: listed, traded, marked to market day by day, and ended.
#![tactic(auto)]

use crate::rials::Rials;
use crate::run::{BROKER, Run};
use anyhow::ensure;
use book::{ACCOUNTS, Book, TableBook};
use margin::flat::Flat;
use margin::tariff::Tariff;

mod ledger;
mod rials;
mod run;

// The price rises.
fn first_day(run: &mut Run<'_, '_>, rt: &HostRuntime) -> anyhow::Result<()> {
    println!(rt; "day 1")?;
    run.deposit(rt, 1, 40_000)?;
    run.deposit(rt, 2, 60_000)?;
    run.deposit(rt, 3, 30_000)?;
    run.deposit(rt, BROKER, 20_000)?;
    run.trade(rt, 1, 2, 4, 1_010)?;
    run.trade(rt, 3, 2, 3, 995)?;
    run.late(rt)?;
    run.shut(rt)?;
    run.mark(rt, 1_050)?;
    run.notices(rt)
}

// The price falls, and customer 1 is called.
fn second_day(run: &mut Run<'_, '_>, rt: &HostRuntime) -> anyhow::Result<()> {
    println!(rt; "day 2")?;
    run.trade(rt, 2, 3, 2, 1_060)?;
    run.withdraw(rt, 3, 5_000)?;
    run.late(rt)?;
    run.trade(rt, 1, 3, 2, 1_040)?;
    run.shut(rt)?;
    run.mark(rt, 480)?;
    run.notices(rt)
}

// Customer 1 is closed out in part, falls into debt all the same, and its broker pays.
fn third_day(run: &mut Run<'_, '_>, rt: &HostRuntime) -> anyhow::Result<()> {
    println!(rt; "day 3")?;
    run.late(rt)?;
    run.force(rt, 1, 2, 4, 470)?;
    run.shut(rt)?;
    run.mark(rt, 100)?;
    run.cover(rt, 1)?;
    run.notices(rt)
}

// Customer 1 pays what it owes. The series ends.
fn last_day(run: &mut Run<'_, '_>, rt: &HostRuntime) -> anyhow::Result<()> {
    println!(rt; "day 4")?;
    run.deposit(rt, 1, 10_000)?;
    run.trade(rt, 3, 1, 1, 110)?;
    run.late(rt)?;
    run.shut(rt)?;
    run.print_positions(rt)?;
    run.end(rt, 130)?;
    run.notices(rt)
}

// The room lives no longer than this: afterwards the book can be read.
fn live(rt: &HostRuntime, book: &mut TableBook, rule: &Flat) -> anyhow::Result<(i128, i128)> {
    let mut run = Run::begin(rt, book, rule)?;
    first_day(&mut run, rt)?;
    second_day(&mut run, rt)?;
    third_day(&mut run, rt)?;
    last_day(&mut run, rt)?;
    println!(rt; "at the end")?;
    run.print_parts(rt)?;
    Ok(run.paid_in_and_out())
}

fn main(rt: HostRuntime) -> anyhow::Result<()> {
    let rule = Flat::uniform(Tariff::new(5_000, 3_500)?);
    println!(rt; "after each step the balances of customers 1, 2 and 3")?;
    let mut book = TableBook::new();
    let (paid_in, paid_out) = live(&rt, &mut book, &rule)?;
    println!(rt; "  broker {BROKER}: {}", Rials::of(book.balance(BROKER)))?;
    println!(rt; "  house: {}", Rials::of(book.balance(ACCOUNTS)))?;
    let total = (1..=ACCOUNTS)
        .map(|account| i128::from(book.balance(account)))
        .fold(0, i128::saturating_add);
    println!(rt;
        "  all balances: {} = {} deposited - {} withdrawn",
        Rials::of(total),
        Rials::of(paid_in),
        Rials::of(paid_out)
    )?;
    ensure!(
        total == paid_in.saturating_sub(paid_out),
        "the balances are not what was paid in"
    );
    Ok(())
}
