//! A place among steps.

ghost use Rattle.std.specs.Prelude.{◌≡◌};

use std::marker::Model;

/// A place among steps, seen as the number of steps below it.
#[derive(Clone, Copy, Debug, PartialEq, Eq)]
pub struct Mark {
    below: usize,
}

impl Model for Mark {
    ghost use Rattle.std.specs.Prelude.{ℕ};

    ghost Value = { ℕ };

    ghost view = { λ m. m.below };

    ghost inverse = { λ n. record { below = n } };
}

impl Mark {
    /// The mark above so many steps.
    pub fn above(steps: usize) -> Mark
        ensures { result ≡ steps }
    {
        Mark { below: steps }
    }

    /// The number of steps below it.
    pub fn below(self) -> usize
        ensures { result ≡ self }
    {
        self.below
    }
}
