//! Turns of the way to a statement.

use crate::shared::SharedRows;

/// A turn of the way from the program to the statement.
#[derive(Drop)]
pub(crate) enum Turn {
    /// Among steps, to the one of a number from 0.
    At(usize),
    /// In an IF, to the steps for where the condition is true, or else to the others.
    Branch(bool),
    /// In a FOR, to its steps, in a round over one of these rows. So many of them have had their rounds,
    /// this one with them.
    Round { over: SharedRows, taken: usize },
}
