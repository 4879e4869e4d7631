//! What the initiator has at hand: types that its code and its definitions share.

use sqlite_items::Items;
use volt_base::{Bytes, CallNo, ClientNo, HostNo, LastReply, Outcome, PartNo, Start, Term};

/// What the initiator is to run on all partitions.
#[derive(Debug, Drop)]
pub enum Job {
    /// A call of a client, for the agent of this host and start that asked.
    RunCall {
        call: CallNo,
        client: ClientNo,
        host: HostNo,
        start: Start,
        body: Bytes,
    },
    TakeSnapshot,
}

/// What waits in the initiator's queue.
#[derive(Debug, Drop)]
pub enum Queued {
    ToRun(Job),
    /// A start of a host asks to be admitted, in a word of this term.
    Admission {
        start: Start,
        host: HostNo,
        term: Term,
    },
}

/// What a partition told of itself in a new term: the transaction that is open, or the last one that
/// was done, and its last replies.
#[derive(Debug, Drop)]
pub struct Heard {
    pub part: PartNo,
    pub transaction: u64,
    pub is_open: bool,
    pub outcome: Option<Outcome>,
    pub replies: Items<LastReply>,
}

/// How far the initiator is.
#[derive(Debug, Drop)]
pub enum Phase {
    /// It isn't the initiator.
    Off,
    /// It waits for what all partitions tell of themselves.
    Hears(Items<Heard>),
    /// It closes this transaction in these partitions, and it is closed for good in those.
    Closes {
        transaction: u64,
        parts: Items<PartNo>,
        finished: Items<PartNo>,
    },
    Idle,
    /// It works on the job at hand.
    Works,
}
