//! The interface of all margin rules.
ghost use Rattle.std.specs.Prelude.{◌≡◌};
ghost use Rattle.margin.specs.Question.{Answers};
ghost use Rattle.margin.specs.Laws.{Lawful};

/// No margin is above this, in rials.
pub const MOST: u64 = 1_000_000_000_000_000;

/// A margin rule means its answers: the same question always has the same answer, and asking changes nothing.
pub trait MarginRule {
    ghost asked: { Self → Answers };

    // What each rule must prove of its answers.
    ghost laws: { (rule : Self) → Lawful (asked rule) };

    // Four numbers, as the clearing hands them over: each rule makes a `Question` of them, if they are in range.
    /// The initial and the minimum margin of so many contracts of a series of this size at this price.
    fn margins(&self, series: u32, size: u64, price: u64, count: u64) -> (u64, u64)
        ensures { result ≡ asked self.now series size price count };
}
