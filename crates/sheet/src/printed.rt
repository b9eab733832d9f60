//! A line of the answers.
ghost use Rattle.std.specs.Prelude.{◌≡◌, IfOk};
ghost use Rattle.sheet.specs.Printed.{answered, printed_of, ShowsNumbers};

use crate::number::TooNarrow;
use crate::row::row;
use terms::call::Answer;
use terms::fault::Fault;

/// What is printed for one line of the sheet: its number from 1, the number of the refusal or 0, its place, and the answer.
#[derive(Clone, Copy, PartialEq, Eq, Debug)]
pub struct PrintedLine {
    pub line: u32,
    pub number: u32,
    pub place: u32,
    pub answer: Answer,
}

impl PrintedLine {
    /// The outcome of a line. One that is refused has figure and lifted 0.
    pub fn new(line: u32, outcome: Result<Answer, Fault>) -> PrintedLine
        ensures { result ≡ answered line outcome }
    {
        match outcome {
            // 0 is the row's format: each column shows a number, and a line that is not refused has 0 for refusal and place.
            Ok(answer) => PrintedLine {
                line,
                number: 0,
                place: 0,
                answer,
            },
            Err(fault) => {
                let answer = Answer {
                    figure: 0,
                    lifted: 0,
                };
                PrintedLine {
                    line,
                    number: fault.number(),
                    place: fault.place(),
                    answer,
                }
            }
        }
    }

    /// The bytes of the line, if its numbers fit their columns.
    #[tactic(auto, using(crate::proofs::Showing::row_printed, crate::proofs::Showing::printed_shows))]
    pub fn bytes(self) -> Result<[u8; 34], TooNarrow>
        ensures value { result ≡ printed_of self }
        ensures shown { IfOk result (λ bytes. ShowsNumbers self bytes) }
    {
        row(&[
            (4, Some(u64::from(self.line))),
            (3, Some(u64::from(self.number))),
            (5, Some(u64::from(self.place))),
            (18, Some(self.answer.figure)),
            (3, Some(u64::from(self.answer.lifted))),
        ])
    }
}
