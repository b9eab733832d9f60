//! Sheets tried on a room: empty, torn, too long, with lines that are no calls, and one of a thousand lines.
#![tactic(auto)]

use book::{Book, TableBook};
use clearing::Room;
use day_sheet::clear_sheet;
use margin::flat::Flat;
use margin::tariff::Tariff;
use sheet::line::write_call;
use std::alloc::Global;
use std::io::Write;
use terms::call::Call;

/// Two calls, and between them lines that are none: a code that is no number, one that no call has, a nought before a
/// number, a field that the call does not use, and a line without its end.
const BAD: [&[u8; 50]; 7] = [
    b" 1                                               \n",
    b"x1                                               \n",
    b"14                                               \n",
    b" 2   01   57                                     \n",
    b" 2    1   57                                    7\n",
    b" 2    1   57                                      ",
    b" 2    1   57                                     \n",
];

/// A margin of 5,000 rials a contract, 3,500 at least, in every series.
fn flat_rule() -> anyhow::Result<Flat> {
    Ok(Flat::uniform(Tariff::new(5_000, 3_500)?))
}

/// Clears a sheet on a new room, and prints its answers.
fn try_sheet(rt: &HostRuntime, what: &str, sheet: &[u8]) -> anyhow::Result<()> {
    let rule = flat_rule()?;
    let mut book = TableBook::new();
    let mut room = Room::new(&mut book, &rule);
    let answers = clear_sheet(&mut room, sheet, rt.alloc())?;
    let bytes = answers.len();
    println!(rt; "{what}: {bytes} bytes of answers")?;
    rt.stdout().write_all(answers.as_slice())?;
    Ok(())
}

/// The line of a call at the end of a sheet.
fn add(sheet: &mut Vec<u8>, call: Call) -> anyhow::Result<()> {
    let line = write_call(call)?;
    sheet.extend_from_slice(&line)?;
    Ok(())
}

/// Opens the room, with two customers and a series.
fn opening(sheet: &mut Vec<u8>) -> anyhow::Result<()> {
    let calls = [
        Call::Begin,
        Call::Enrol {
            customer: 1,
            broker: 57,
        },
        Call::Enrol {
            customer: 2,
            broker: 58,
        },
        Call::List {
            size: 10,
            limit: 50,
            series: 1,
            price: 1_000,
            fee: 20,
        },
        Call::Deposit {
            account: 1,
            amount: 1_000_000,
        },
        Call::Deposit {
            account: 2,
            amount: 1_000_000,
        },
    ];
    calls.into_iter().try_for_each(|call| add(sheet, call))
}

/// A thousand lines: the opening, and 994 trades of which each second one goes back.
fn thousand_lines(alloc: Global) -> anyhow::Result<Vec<u8>> {
    let mut sheet = Vec::new(alloc);
    opening(&mut sheet)?;
    for turn in 0..994u32 {
        let buyer = 1 + turn % 2;
        add(
            &mut sheet,
            Call::Trade {
                buyer,
                seller: 3 - buyer,
                series: 1,
                count: 1,
                price: 1_000,
            },
        )?;
    }
    Ok(sheet)
}

/// How many of the printed lines are of accepted calls: the three bytes after the line's number say 0.
fn accepted(answers: &[u8]) -> usize {
    answers
        .chunks(34)
        .filter(|line| matches!(line, [_, _, _, _, b' ', b' ', b'0', ..]))
        .count()
}

fn try_thousand(rt: &HostRuntime) -> anyhow::Result<()> {
    let alloc = rt.alloc();
    let sheet = thousand_lines(alloc)?;
    let rule = flat_rule()?;
    let mut book = TableBook::new();
    let answers = clear_sheet(&mut Room::new(&mut book, &rule), sheet.as_slice(), alloc)?;
    let (bytes, done) = (answers.len(), accepted(answers.as_slice()));
    println!(rt; "a thousand lines: {bytes} bytes of answers, {done} accepted")?;
    let (one, two, house) = (book.balance(1), book.balance(2), book.balance(64));
    println!(rt; "balances: {one}, {two}, and {house} for the house")?;
    Ok(())
}

fn main(rt: HostRuntime) -> anyhow::Result<()> {
    let alloc = rt.alloc();
    try_sheet(&rt, "an empty sheet", b"")?;
    let mut sheet = Vec::new(alloc);
    opening(&mut sheet)?;
    try_sheet(&rt, "a whole sheet", sheet.as_slice())?;
    let torn = sheet.len().saturating_sub(1);
    try_sheet(&rt, "a torn sheet", &sheet.as_slice()[0..torn])?;
    let mut long = thousand_lines(alloc)?;
    add(&mut long, Call::Late)?;
    try_sheet(&rt, "a sheet of 1,001 lines", long.as_slice())?;
    let mut bad = Vec::new(alloc);
    for line in &BAD {
        bad.extend_from_slice(*line)?;
    }
    try_sheet(&rt, "lines that are no calls", bad.as_slice())?;
    try_thousand(&rt)
}
