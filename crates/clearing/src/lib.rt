//! A clearing room: the thirteen calls and the two questions, over any book and any margin rule.
#![tactic(auto)]

mod calls;
mod list;
mod making;
mod room;

pub use room::Room;

#[cfg(test)]
mod tests {
    use crate::Room;
    use book::{Book, TableBook, balance_after};
    use margin::flat::Flat;
    use margin::tariff::Tariff;
    use std::test::Fail;
    use terms::fault::Fault;
    use terms::ranges::AccountNumber;

    // A book that takes a line a posting and has none left.
    #[derive(Drop)]
    struct Full {
        table: TableBook,
    }

    impl Book for Full {
        const COST: u64 = 1;

        ghost use Rattle.std.proofs.Common.{arith};

        ghost COST = { 1 };

        ghost balances = { λ s. ⟦<TableBook as Book>⟧.balances s.table };

        ghost lines = { λ _. 0 };

        ghost kept = { λ _ _. Unit {0} };

        ghost laws = { record { accounts = λ s. ⟦<TableBook as Book>⟧.laws.accounts s.table; bounded = λ s. ⟦<TableBook as Book>⟧.laws.bounded s.table; cost = Prim.omega arith; stays = λ _. tt; joins = λ _ _ _ _ _. tt } };

        fn balance(&self, account: u32) -> i64 {
            self.table.balance(account)
        }

        fn lines_left(&self) -> u64 {
            0
        }

        fn post(&mut self, account: u32, amount: i64) -> Result<(), Fault> {
            let refusal = Fault::OutOfBounds { account };
            let _ = AccountNumber::new(u64::from(account)).ok_or(refusal)?;
            let _ = balance_after(self.balance(account), amount).ok_or(refusal)?;
            Err(Fault::NoLines)
        }
    }

    #[test]
    fn nothing_is_posted_without_lines(rt: HostRuntime) -> Result<(), Fail> {
        let rule = Flat::uniform(Tariff::new(5_000, 3_500)?);
        let mut book = Full {
            table: TableBook::new(),
        };
        let mut room = Room::new(&mut book, &rule);
        let _ = room.begin()?;
        let _ = room.enrol(1, 57)?;
        assert_eq!(rt; room.deposit(1, 12_000), Err(Fault::NoLines));
        assert_eq!(rt; room.standing(1)?.balance, 0);
        assert_eq!(rt;
            room.deposit(1, 12_000)
                .map_err(|fault| (fault.number(), fault.place())),
            Err((31, 0))
        );
        Ok(())
    }
}
