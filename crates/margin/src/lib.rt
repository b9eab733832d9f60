//! Margin rules: what a position has to be covered by, the initial and the minimum margin.
#![tactic(auto)]

pub mod additional;
pub mod flat;
pub mod laws;
mod question;
pub mod rule;
pub mod share;
pub mod tariff;

#[cfg(test)]
mod tests {
    use crate::additional::Additional;
    use crate::flat::Flat;
    use crate::rule::{MOST, MarginRule};
    use crate::share::Share;
    use crate::tariff::Tariff;
    use std::test::Fail;
    use terms::fault::Fault;

    #[test]
    fn flat_asks_by_the_contract(rt: HostRuntime) -> Result<(), Fail> {
        let mut rule = Flat::new();
        assert_eq!(rt; rule.margins(3, 10, 1_000, 2), (0, 0));
        let tariff = Tariff::new(5_000, 3_500)?;
        rule.set(3, tariff)?;
        assert_eq!(rt; rule.margins(3, 10, 1_000, 2), (10_000, 7_000));
        assert_eq!(rt; rule.margins(4, 10, 1_000, 2), (0, 0));
        assert_eq!(rt; rule.margins(3, 10, 1_000, 1_001), (0, 0));
        assert_eq!(rt; rule.set(25, tariff), Err(Fault::OutOfRange));
        assert!(rt; Tariff::new(5_000, 5_001).is_err());
        Ok(())
    }

    #[test]
    fn share_rounds_up(rt: HostRuntime) -> Result<(), Fail> {
        let mut rule = Share::new(1_250, 7_000)?;
        assert_eq!(rt; rule.margins(1, 10, 1_003, 3), (3_762, 2_634));
        assert_eq!(rt; rule.set(1_250, 0), Err(Fault::OutOfRange));
        assert_eq!(rt; rule.margins(1, 10, 1_003, 3), (3_762, 2_634));
        Ok(())
    }

    #[test]
    fn additional_stops_at_the_most(rt: HostRuntime) -> Result<(), Fail> {
        let mut rule = Additional::over(Additional::over(Share::new(10_000, 5_000)?));
        rule.set(100)?;
        rule.rule.set(20)?;
        assert_eq!(rt; rule.margins(1, 1, 1_000, 2), (2_240, 1_240));
        assert_eq!(rt;
            rule.margins(1, 1_000, 1_000_000_000, 1_000),
            (MOST, MOST / 2 + 120_000)
        );
        assert_eq!(rt; rule.set(MOST), Err(Fault::OutOfRange));
        Ok(())
    }
}
