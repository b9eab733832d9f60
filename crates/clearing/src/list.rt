//! Many calls, one after the other.
ghost use Rattle.clearing.specs.Made.{MadeAll};

use crate::room::Room;
use book::Book;
use margin::rule::MarginRule;
use std::alloc::{AllocError, Global};
use terms::call::{Answer, Call};
use terms::fault::Fault;

impl<'b, 'r, B: Book, R: MarginRule> Room<'b, 'r, B, R> {
    /// Makes the calls in their order and gives the answer to each. For want of memory it makes none.
    pub fn make_all(
        &mut self,
        calls: &[Call],
        alloc: Global,
    ) -> Result<Vec<Result<Answer, Fault>>, AllocError>
        ensures { MadeAll B.Book R.MarginRule self.old calls.now result self.new }
    {
        let mut answers = Vec::with_capacity(alloc, calls.len())?;
        for call in calls {
            answers.push_reserved(self.make(*call));
        }
        Ok(answers)
    }
}
