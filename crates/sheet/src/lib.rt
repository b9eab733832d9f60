//! The day sheet: from bytes to calls, from answers to bytes.
#![tactic(auto)]

pub mod cuts;
mod kind;
pub mod line;
pub mod number;
pub mod printed;
mod row;

// Tables of lines.
#[cfg(test)]
mod tests {
    use crate::cuts::count_lines;
    use crate::line::{read_line, write_call};
    use crate::number::TooNarrow;
    use crate::printed::PrintedLine;
    use terms::call::{Answer, Call};
    use terms::fault::Fault;

    // A line of each call.
    const CALLS: [(&[u8; 50], Call); 13] = [
        (
            b" 1                                               \n",
            Call::Begin,
        ),
        (
            b" 2    1   57                                     \n",
            Call::Enrol {
                customer: 1,
                broker: 57,
            },
        ),
        (
            b" 3   10   50  1            1000                 0\n",
            Call::List {
                size: 10,
                limit: 50,
                series: 1,
                price: 1_000,
                fee: 0,
            },
        ),
        (
            b" 4    1                                     12000\n",
            Call::Deposit {
                account: 1,
                amount: 12_000,
            },
        ),
        (
            b" 5   64                        999999999999999999\n",
            Call::Withdraw {
                account: 64,
                amount: 999_999_999_999_999_999,
            },
        ),
        (
            b" 6    1    2  1    2       1010                  \n",
            Call::Trade {
                buyer: 1,
                seller: 2,
                series: 1,
                count: 2,
                price: 1_010,
            },
        ),
        (
            b" 7                                               \n",
            Call::Late,
        ),
        (
            b" 8                                               \n",
            Call::Shut,
        ),
        (
            b" 9           24             600                  \n",
            Call::Mark {
                series: 24,
                price: 600,
            },
        ),
        (
            b"10          999     99999999999                  \n",
            Call::Final {
                series: 999,
                price: 99_999_999_999,
            },
        ),
        (
            b"11    1    2  1    2        590                  \n",
            Call::Force {
                customer: 1,
                counterparty: 2,
                series: 1,
                offer: 2,
                price: 590,
            },
        ),
        (
            b"1299999                                          \n",
            Call::Cover { customer: 99_999 },
        ),
        (
            b"13                                               \n",
            Call::Notices,
        ),
    ];

    // A line that is refused, and why.
    const REFUSED: [(&[u8], Fault); 21] = [
        (
            b"x1                                               \n",
            Fault::Field { place: 1 },
        ),
        (
            b"                                                 \n",
            Fault::Field { place: 1 },
        ),
        (
            b"1                                                \n",
            Fault::Field { place: 1 },
        ),
        (
            b"01                                               \n",
            Fault::Field { place: 1 },
        ),
        (
            b" 0                                               \n",
            Fault::Code,
        ),
        (
            b"14                                               \n",
            Fault::Code,
        ),
        (
            b"99                                               \n",
            Fault::Code,
        ),
        (
            b" 2        57                                     \n",
            Fault::Field { place: 2 },
        ),
        (
            b" 2    1  057                                     \n",
            Fault::Field { place: 3 },
        ),
        (
            b"12    1    1                                     \n",
            Fault::Field { place: 3 },
        ),
        (
            b" 9                          600                  \n",
            Fault::Field { place: 4 },
        ),
        (
            b" 6    1    2  1   -2          9                  \n",
            Fault::Field { place: 5 },
        ),
        (
            b"11    1    2  1   2           9                  \n",
            Fault::Field { place: 5 },
        ),
        (
            b" 9            1              00                  \n",
            Fault::Field { place: 6 },
        ),
        (
            b" 4    1                                       1 2\n",
            Fault::Field { place: 7 },
        ),
        (
            b" 1                                              0\n",
            Fault::Field { place: 7 },
        ),
        (b"", Fault::Field { place: 1 }),
        (b"1", Fault::Field { place: 1 }),
        (b" 1    ", Fault::Field { place: 2 }),
        (
            b" 1                                               ",
            Fault::Field { place: 8 },
        ),
        (
            b" 1                                               \n\n",
            Fault::Field { place: 8 },
        ),
    ];

    // A trade with every byte of its fields a digit, and the place of each byte.
    const TRADE: &[u8; 50] = b" 612345123451231234512345678901                  \n";

    const PLACES: [u32; 50] = [
        1, 1, 2, 2, 2, 2, 2, 3, 3, 3, 3, 3, 4, 4, 4, 5, 5, 5, 5, 5, 6, 6, 6, 6, 6, 6, 6, 6, 6, 6,
        6, 7, 7, 7, 7, 7, 7, 7, 7, 7, 7, 7, 7, 7, 7, 7, 7, 7, 7, 8,
    ];

    #[test]
    fn every_call(rt: HostRuntime) {
        for (line, call) in CALLS {
            assert_eq!(rt; read_line(line), Ok(call));
            assert_eq!(rt; write_call(call), Ok(*line));
        }
    }

    #[test]
    fn every_refusal(rt: HostRuntime) {
        for (line, fault) in REFUSED {
            assert_eq!(rt; read_line(line), Err(fault));
        }
    }

    #[test]
    fn one_byte_damaged(rt: HostRuntime) {
        for (at, place) in PLACES.iter().enumerate() {
            let mut line = *TRADE;
            line[at] = b'x';
            assert_eq!(rt; read_line(&line), Err(Fault::Field { place: *place }));
        }
    }

    #[test]
    fn every_byte(rt: HostRuntime) {
        for b in 0..=255u8 {
            let mut line = *TRADE;
            line[6] = b;
            assert_eq!(rt; read_line(&line).is_ok(), b.is_ascii_digit());
        }
    }

    #[test]
    fn printed_and_counted(rt: HostRuntime) {
        let called = PrintedLine::new(
            11,
            Ok(Answer {
                figure: 1,
                lifted: 0,
            }),
        );
        assert_eq!(rt; called.bytes(), Ok(*b"  11  0    0                 1  0\n"));
        let refused = PrintedLine::new(0, Err(Fault::SheetSize));
        assert_eq!(rt;
            refused.bytes(),
            Ok(*b"   0  1    0                 0  0\n")
        );
        assert_eq!(rt;
            PrintedLine::new(10_000, Err(Fault::Code)).bytes(),
            Err(TooNarrow)
        );
        assert_eq!(rt; count_lines(b""), Ok(0));
        assert_eq!(rt; count_lines(TRADE), Ok(1));
        assert_eq!(rt; count_lines(b"\n"), Err(Fault::SheetSize));
    }
}
