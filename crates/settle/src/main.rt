//! The settlement price of a day: reads its tape from standard input, prints the price and its rule.
#![tactic(auto)]

use crate::report::Report;
use price::settlement_price;
use std::io::Read;
use std::process::ExitCode;
use tape::read_day;

mod report;

// Prints the one message itself, after the program's name: an `Err` from `main` would be printed otherwise.
fn main(rt: HostRuntime) -> ExitCode {
    match run(&rt) {
        Ok(()) => ExitCode::SUCCESS,
        Err(error) => {
            let _ = eprintln!(rt; "settle: {error}");
            ExitCode::FAILURE
        }
    }
}

/// A tape that cannot be read ends the program with a message, and nothing is worked out from it.
fn run(rt: &HostRuntime) -> anyhow::Result<()> {
    let alloc = rt.alloc();
    let mut text = Vec::new(alloc);
    rt.stdin().read_to_end(&mut text)?;
    let day = read_day(alloc, text.as_slice())?;
    println!(rt; "trades: {}", day.trades.len())?;
    let answer = settlement_price(day.trades.as_slice(), &day.session);
    println!(rt; "{}", Report { answer })?;
    Ok(())
}
