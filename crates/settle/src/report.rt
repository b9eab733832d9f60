//! What the program says, in words.
ghost use Rattle.std.specs.Prelude.{Some};
ghost use Rattle.settle.specs.Report.{answer_words};

use price::day::Settlement;
use std::fmt;
use terms::fault::Fault;

/// What came of a day: the price with its rule, or the refusal with number, layer and place.
#[derive(Clone, Copy, PartialEq, Eq, Debug)]
pub struct Report {
    pub answer: Result<Settlement, Fault>,
}

impl fmt::Display for Report {
    ghost output = { λ report. Some (answer_words report.answer) };

    fn fmt<W: fmt::Write>(&self, f: &mut fmt::Formatter<W>) -> fmt::Result {
        match self.answer {
            Ok(settlement) => write!(f, "{settlement}"),
            Err(fault) => write!(f, "{fault}"),
        }
    }
}
