//! A room under trial: calls are made in their order, and each is printed with its answer.
use book::TableBook;
use clearing::Room;
use margin::flat::Flat;
use std::io;
use terms::call::{Answer, Call};
use terms::fault::Fault;

/// A room over a table book and the flat rule, and how many calls were made on it.
#[derive(Drop)]
pub struct Trial<'b, 'r> {
    room: Room<'b, 'r, TableBook, Flat>,
    made: usize,
}

fn print_answer(
    rt: &HostRuntime,
    number: usize,
    what: &str,
    answer: Result<Answer, Fault>,
) -> io::Result<()> {
    match answer {
        Ok(Answer { figure, lifted }) => {
            println!(rt; "{number:>4}  {what}: figure {figure}, lifted {lifted}")
        }
        Err(fault) => {
            let refusal = fault.number();
            let place = fault.place();
            println!(rt; "{number:>4}  {what}: refused with {refusal}, place {place}")
        }
    }
}

impl<'b, 'r> Trial<'b, 'r> {
    pub fn new(book: &'b mut TableBook, rule: &'r Flat) -> Trial<'b, 'r> {
        Trial {
            room: Room::new(book, rule),
            made: 0,
        }
    }

    /// Makes the calls, and prints each with its number, its words and its answer.
    pub fn make(&mut self, rt: &HostRuntime, calls: &[(&str, Call)]) -> io::Result<()> {
        for (what, call) in calls {
            self.made = self.made.saturating_add(1);
            let answer = self.room.make(*call);
            print_answer(rt, self.made, what, answer)?;
        }
        Ok(())
    }

    /// Makes one call so many times, as long as it is accepted, and says how often it was.
    pub fn repeat(&mut self, call: Call, times: usize) -> usize {
        let accepted = (0..times)
            .take_while(|_| self.room.make(call).is_ok())
            .count();
        self.made = self.made.saturating_add(accepted);
        accepted
    }

    /// What a customer under notice owes. One that is not cannot be forced, and so it is refused here.
    pub fn owed(&self, customer: u32) -> Result<i64, Fault> {
        // By `let .. else`, the project's form for an amount that may not be owed.
        let Some(owed) = self.room.standing(customer)?.owed else {
            return Err(Fault::NothingToForce { account: customer });
        };
        Ok(owed)
    }

    /// Prints a customer's balance and both margins, and what it owes, if it is under notice.
    pub fn print_standing(&self, rt: &HostRuntime, customer: u32) -> anyhow::Result<()> {
        let standing = self.room.standing(customer)?;
        print!(rt;
            "      customer {customer}: balance {}, margins {} and {}",
            standing.balance, standing.initial, standing.minimum
        )?;
        match standing.owed {
            Some(owed) => println!(rt; ", owes {owed}")?,
            None => println!(rt; ", not under notice")?,
        }
        Ok(())
    }
}
