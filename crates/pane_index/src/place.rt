//! Where a row stands.

ghost use Rattle.std.specs.Prelude.{◌≡◌, ◌<◌, ◌^◌};

use std::marker::Model;

/// A place of a pane, seen as its number, which is below 2^28: 64 places for each of 2^22 blocks.
#[derive(Clone, Copy, Debug, PartialEq, Eq, PartialOrd, Ord)]
pub struct Place {
    number: u32,
}

impl Model for Place {
    ghost use Rattle.std.specs.Prelude.{ℕ, ◌<◌, ◌^◌};

    ghost Value = { ℕ };

    ghost view = { λ p. p.number };

    ghost invariant = { λ p. p.number < 2 ^ 28 };

    ghost inverse = { λ n. record { number = n } };
}

impl Place {
    /// The place of a number below 2^28.
    pub fn new(number: u32) -> Place
        requires { number < 2 ^ 28 }
        ensures { result ≡ number }
    {
        Place { number }
    }

    /// Its number, below 2^28.
    pub fn number(self) -> u32
        ensures value { result ≡ self }
        ensures limit { result < 2 ^ 28 }
    {
        self.number
    }
}
