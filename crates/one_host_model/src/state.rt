use volt_base::{Bytes, CallNo, ClientNo, HostNo, PartNo, Pos, SlotNo, Start};

/// A call that its client has still to submit.
#[derive(Debug, Drop)]
pub struct Due {
    pub body: Bytes,
    pub call: CallNo,
    pub part: Option<PartNo>,
}

/// A call that an agent took, and the client that waits for it.
#[derive(Clone, Copy, Debug, PartialEq, Eq)]
pub struct Pending {
    pub call: CallNo,
    pub client: ClientNo,
}

/// A reply that waits until its entry is firm, and the agent's host and start that asked for it.
#[derive(Debug, Drop)]
pub struct Waiting {
    pub reply: Bytes,
    pub call: CallNo,
    pub start: Start,
    pub host: HostNo,
}

/// What a copy of a partition shows: how many calls it has applied, and its rows as a report prints them.
#[derive(Debug, Drop)]
pub struct CopyRows {
    pub rows: Bytes,
    pub position: Pos,
    pub slot: SlotNo,
}
