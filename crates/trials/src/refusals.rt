//! Every refusal that a room can give, with its place. Only 31 is not here: a table book takes no lines.
use crate::asked::{cover, deposit, end, enrol, force, list, mark, trade, withdraw};
use crate::trial::Trial;
use book::{Book, TableBook};
use margin::flat::Flat;
use std::io;
use terms::call::Call;

// Wrong numbers, wrong accounts and wrong times: 4 to 7 and 21 to 23.
fn wrong_numbers(trial: &mut Trial<'_, '_>, rt: &HostRuntime) -> io::Result<()> {
    trial.make(
        rt,
        &[
            ("enrol customer 1 before begin", enrol(1, 57)),
            ("begin", Call::Begin),
            ("begin again", Call::Begin),
            ("enrol broker 58 under broker 57", enrol(58, 57)),
            ("enrol customer 1 under customer 2", enrol(1, 2)),
            ("enrol customer 1 under broker 57", enrol(1, 57)),
            ("enrol customer 2 under broker 57", enrol(2, 57)),
            ("enrol customer 3 under broker 57", enrol(3, 57)),
            ("enrol customer 1 once more", enrol(1, 58)),
            ("deposit to customer 9, not enrolled", deposit(9, 1)),
            ("deposit to the house", deposit(64, 1)),
            ("deposit nothing to customer 1", deposit(1, 0)),
            ("list series 25", list(25, 10, 5, 1_000)),
            ("list series 1 at a price of 0", list(1, 10, 5, 0)),
            ("1 buys in a series not listed", trade(1, 2, 1, 1_000)),
            (
                "list series 1: size 10, limit 5, price 1,000, fee 20",
                list(1, 10, 5, 1_000),
            ),
            ("list series 1 again", list(1, 10, 5, 1_000)),
            ("1 buys 1 of itself at 1,000", trade(1, 1, 1, 1_000)),
            ("1 buys 0 of broker 57 at 1,000", trade(1, 57, 0, 1_000)),
            ("shut, not yet late", Call::Shut),
        ],
    )
}

// Limits and margins, and marks that are missing or made: 24, 26 and 27.
fn wrong_trades(trial: &mut Trial<'_, '_>, rt: &HostRuntime) -> io::Result<()> {
    trial.make(
        rt,
        &[
            ("deposit 30,000 to customer 1", deposit(1, 30_000)),
            ("deposit 100,000 to customer 2", deposit(2, 100_000)),
            ("deposit 12,000 to customer 3", deposit(3, 12_000)),
            ("1 buys 6 of 2, the limit is 5", trade(1, 2, 6, 1_000)),
            ("3 buys 3 of 2, with margin for 2", trade(3, 2, 3, 1_000)),
            ("2 buys 3 of 3, with margin for 2", trade(2, 3, 3, 1_000)),
            ("1 buys 5 of 2 at 1,000", trade(1, 2, 5, 1_000)),
            ("withdraw 4,900 from customer 1", withdraw(1, 4_900)),
            ("withdraw 1 more", withdraw(1, 1)),
            ("withdraw 1 from broker 57", withdraw(57, 1)),
            ("withdraw 201 from the house", withdraw(64, 201)),
            ("withdraw 1 from account 65", withdraw(65, 1)),
            ("late", Call::Late),
            ("shut", Call::Shut),
            ("notices, nothing marked", Call::Notices),
            ("mark series 1 at 600", mark(1, 600)),
            ("mark series 1 again", mark(1, 600)),
        ],
    )
}

// A customer under notice, its debt and its broker: 25, 28 and 29.
fn wrong_notices(trial: &mut Trial<'_, '_>, rt: &HostRuntime) -> io::Result<()> {
    trial.make(
        rt,
        &[
            ("cover customer 1, not in debt", cover(1)),
            ("notices", Call::Notices),
            ("1 buys 1 more of 2 at 600", trade(1, 2, 1, 600)),
            ("1 sells 6 of its 5 to 2 at 600", trade(2, 1, 6, 600)),
            ("late", Call::Late),
            ("force on 2, not under notice", force(2, 1, 1, 600)),
            (
                "force on 1, against 3, with margin for 2",
                force(1, 3, 5, 600),
            ),
            ("shut", Call::Shut),
            ("mark series 1 at 300", mark(1, 300)),
            ("final of series 1, marked", end(1, 300)),
            ("cover customer 1, its broker has nothing", cover(1)),
            ("deposit 2,000 to broker 57", deposit(57, 2_000)),
            ("cover customer 1", cover(1)),
            ("cover customer 1 again", cover(1)),
            ("notices", Call::Notices),
            ("late", Call::Late),
            ("force on 1, against 2, offer 5 at 310", force(1, 2, 5, 310)),
            ("force on 1, nothing left", force(1, 2, 5, 310)),
        ],
    )
}

// A series that has ended: 23 again.
fn wrong_series(trial: &mut Trial<'_, '_>, rt: &HostRuntime) -> io::Result<()> {
    trial.make(
        rt,
        &[
            ("deposit 7,600 to customer 1", deposit(1, 7_600)),
            ("shut", Call::Shut),
            ("final of series 1 at 320", end(1, 320)),
            ("mark series 1, ended", mark(1, 320)),
            ("notices", Call::Notices),
            ("2 buys 1 of 3, series 1 has ended", trade(2, 3, 1, 320)),
            ("list series 1, ended", list(1, 10, 5, 320)),
        ],
    )
}

pub fn of_calls(rt: &HostRuntime, rule: &Flat) -> anyhow::Result<()> {
    println!(rt; "Refusals")?;
    let mut book = TableBook::new();
    let mut trial = Trial::new(&mut book, rule);
    wrong_numbers(&mut trial, rt)?;
    wrong_trades(&mut trial, rt)?;
    trial.print_standing(rt, 1)?;
    wrong_notices(&mut trial, rt)?;
    trial.print_standing(rt, 1)?;
    wrong_series(&mut trial, rt)?;
    trial.print_standing(rt, 1)
}

/// A thousand deposits of 10^15 fill a balance to its bound, 10^18.
pub fn of_full_balance(rt: &HostRuntime, rule: &Flat) -> anyhow::Result<()> {
    println!(rt; "A balance at its bound")?;
    let mut book = TableBook::new();
    {
        let mut trial = Trial::new(&mut book, rule);
        trial.make(rt, &[("begin", Call::Begin)])?;
        let most = deposit(57, 1_000_000_000_000_000);
        let accepted = trial.repeat(most, 1_000);
        println!(rt; "      deposits of 10^15 to broker 57: {accepted} accepted")?;
        trial.make(rt, &[("deposit 1 more to broker 57", deposit(57, 1))])?;
    }
    let balance = book.balance(57);
    println!(rt; "      broker 57 has {balance}")?;
    Ok(())
}

/// A room does not open over a book that holds something.
pub fn of_begin(rt: &HostRuntime, rule: &Flat) -> anyhow::Result<()> {
    println!(rt; "A book that is not empty")?;
    let mut book = TableBook::new();
    book.post(3, 5)?;
    let mut trial = Trial::new(&mut book, rule);
    trial.make(rt, &[("begin, account 3 has 5", Call::Begin)])?;
    Ok(())
}
