//! The settlement price of a series for one day: the first of five rules that applies.
#![tactic(auto)]

pub mod day;
mod settlement;
mod sums;
mod tally;

pub use settlement::settlement_price;

#[cfg(test)]
mod tests {
    use crate::day::{Band, *};
    use crate::settlement_price;
    use std::test::Fail;
    use terms::fault::Fault;

    // A price with its letter, or a refusal's number and place.
    fn tell(answer: Result<Settlement, Fault>) -> Result<(u64, char), (u32, u32)> {
        answer
            .map(|settlement| (settlement.price.get(), settlement.rule.letter()))
            .map_err(|fault| (fault.number(), fault.place()))
    }

    fn at(second: u64, price: u64, count: u64) -> Trade {
        Trade {
            second,
            price,
            count,
        }
    }

    fn noon(bid: Option<u64>, ask: Option<u64>, committee: Option<u64>) -> Session {
        let band = Band {
            low: 900,
            high: 1_100,
        };
        Session {
            last: 43_200,
            band,
            bid,
            ask,
            committee,
        }
    }

    #[test]
    fn windows(rt: HostRuntime) {
        let session = noon(None, None, None);
        let half_hour = [at(41_400, 1_000, 2), at(0, 990, 8)];
        assert_eq!(rt;
            tell(settlement_price(&half_hour, &session)),
            Ok((1_000, 'a')),
            "1,800 seconds, exactly a fifth"
        );
        let a_second_more = [at(41_399, 1_000, 2), at(0, 990, 8)];
        assert_eq!(rt;
            tell(settlement_price(&a_second_more, &session)),
            Ok((1_000, 'b')),
            "1,801 seconds"
        );
        let hour = [at(39_600, 1_000, 2), at(0, 990, 8)];
        assert_eq!(rt;
            tell(settlement_price(&hour, &session)),
            Ok((1_000, 'b')),
            "3,600 seconds"
        );
        let too_thin = [at(43_200, 1_000, 2), at(0, 990, 9)];
        assert_eq!(rt;
            tell(settlement_price(&too_thin, &session)),
            Ok((992, 'c')),
            "less than a fifth"
        );
    }

    #[test]
    fn halves(rt: HostRuntime) {
        let session = noon(None, None, None);
        let up = [at(43_200, 1_000, 1), at(43_200, 1_001, 1)];
        assert_eq!(rt;
            tell(settlement_price(&up, &session)),
            Ok((1_001, 'a')),
            "half a rial"
        );
        let down = [at(43_200, 1_000, 2), at(43_200, 1_001, 1)];
        assert_eq!(rt;
            tell(settlement_price(&down, &session)),
            Ok((1_000, 'a')),
            "a third of a rial"
        );
    }

    #[test]
    fn quotations(rt: HostRuntime) {
        let inside = noon(Some(900), Some(1_100), Some(7));
        assert_eq!(rt;
            tell(settlement_price(&[], &inside)),
            Ok((1_000, 'd')),
            "on the edges of the band"
        );
        let outside = noon(Some(899), Some(1_100), Some(7));
        assert_eq!(rt;
            tell(settlement_price(&[], &outside)),
            Ok((7, 'e')),
            "bid below the band"
        );
        let alone = noon(None, Some(1_000), None);
        assert_eq!(rt; tell(settlement_price(&[], &alone)), Err((9, 0)), "no bid");
    }

    #[test]
    fn refusals(rt: HostRuntime) -> Result<(), Fail> {
        let session = noon(None, None, None);
        let late = [at(43_200, 1_000, 1), at(43_201, 1_000, 1), at(0, 0, 1)];
        assert_eq!(rt;
            tell(settlement_price(&late, &session)),
            Err((8, 2)),
            "after the last second"
        );
        let no_committee = noon(None, None, Some(0));
        assert_eq!(rt;
            tell(settlement_price(&late, &no_committee)),
            Err((8, 0)),
            "outside the trades first"
        );
        let most = vec![in rt.alloc(); at(43_200, 1_000_000_000, 1_000); 4_096]?;
        assert_eq!(rt;
            tell(settlement_price(most.as_slice(), &session)),
            Ok((1_000_000_000, 'a')),
            "4,096 trades"
        );
        let too_many = vec![in rt.alloc(); at(43_200, 1_000_000_000, 1_000); 4_097]?;
        assert_eq!(rt;
            tell(settlement_price(too_many.as_slice(), &session)),
            Err((8, 0)),
            "4,097 trades"
        );
        Ok(())
    }
}
