use crate::actor::Actor;
use volt_base::{ClientNo, SlotNo};

/// One atomic step of one actor, or the recovery of all. Their order is the one in which the events
/// that may happen are listed.
#[derive(Clone, Copy, Debug, PartialEq, Eq, PartialOrd, Ord)]
pub enum Event {
    /// The receiver takes the first message that the sender sent it and it hasn't taken.
    Deliver { to: Actor, from: Actor },
    /// A site writes to its disk what it owes.
    Sync(SlotNo),
    /// A scanner reads out the next block of its scan.
    Scan(SlotNo),
    /// All hosts start again from what their disks show.
    Recover,
    /// The director does its next item.
    Item,
    /// A client sends its next call.
    Submit(ClientNo),
    /// The actor used up a stamp and did nothing.
    Idle(Actor),
}
