//! What is known of a call: a type that the code of sites and of the initiator shares with the definitions.

use volt_wire::End;

/// What the last reply to its client says of a call.
#[derive(Debug, Drop)]
pub enum Known {
    /// It wasn't run.
    IsNew,
    /// It was run, and this is its answer.
    IsAnswered(End),
    /// A later call of its client was run, so nobody waits for it.
    IsPast,
}
