//! The clearing steps: what each of the thirteen calls refuses, posts and changes, as a definition.
//!
//! The definition stands in `specs/`; the types here are those of the state that it speaks of.
#![tactic(auto)]

ghost use Rattle.std.specs.Prelude.{◌≡◌};
ghost use Rattle.steps.specs.Phases.{phase_number};

/// Where the day stands. A phase is less than those that follow it.
#[derive(Clone, Copy, PartialEq, Eq, PartialOrd, Ord, Debug)]
pub enum Phase {
    Unopened,
    Session,
    Late,
    Shut,
}

impl Phase {
    /// The number of the phase, 0 to 3.
    pub fn number(self) -> u8
        ensures { result ≡ phase_number self }
    {
        self as u8
    }
}

/// The life of a series.
#[derive(Clone, Copy, PartialEq, Eq, Debug)]
pub enum Stage {
    Unlisted,
    Open,
    Ended,
}

/// What a customer has and has to have: its balance, both margins, and what it owes if it is under notice.
#[derive(Clone, Copy, PartialEq, Eq, Debug)]
pub struct Standing {
    pub balance: i64,
    pub initial: u64,
    pub minimum: u64,
    pub owed: Option<i64>,
}
