use crate::actor::Actor;
use volt_base::{Stamp, Start, Term};

/// What every message carries besides what it says.
#[derive(Clone, Copy, Debug, PartialEq, Eq)]
pub struct Header {
    /// Who sent it.
    pub from: Actor,
    /// The start of the receiver that the sender means. A receiver of another start drops the
    /// message. 0 where it isn't for one start.
    pub start: Start,
    /// The term of a message that is for one term alone. A receiver in a higher term drops it, one
    /// in a lower term keeps it until it gets there. 0 for all other messages.
    pub term: Term,
    /// Its place among the messages that its event sent, from 1 on.
    pub number: u64,
    /// The stamp of the event that sent it.
    pub sent: Stamp,
}
