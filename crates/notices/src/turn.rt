//! The two ways in which a notice turns.
ghost use Rattle.std.specs.Prelude.{◌≡◌};
ghost use Rattle.notices.specs.Turns.{turns_to};

/// Customers below their minimum margin are called; customers under notice that have their initial margin are lifted.
// No closure in its place: whoever takes one has to require that it may be called.
#[derive(Clone, Copy, PartialEq, Eq, Debug)]
pub enum Turn {
    Call,
    Lift,
}

impl Turn {
    /// Whether a customer is under notice once it is turned.
    pub fn notice(self) -> bool
        ensures { result ≡ turns_to self }
    {
        matches!(self, Turn::Call)
    }
}
