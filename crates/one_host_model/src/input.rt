//! What goes into a world, and what comes out of it for each call.

use volt_base::{Bytes, CallNo, ClientNo, PartNo, Stamp};

/// A call of the input, numbered by its place, from 1 on.
#[derive(Debug, Drop)]
pub struct WorldCall {
    /// Who submits it.
    pub client: ClientNo,
    /// The partition on which it runs, or None for one that runs on all.
    pub part: Option<PartNo>,
    /// The procedure and its arguments, as the engine reads them.
    pub body: Bytes,
}

/// The input of a world.
#[derive(Debug, Drop)]
pub struct WorldInput {
    pub calls: Vec<WorldCall>,
}

/// A call that ended.
#[derive(Debug, Drop)]
pub struct Ended {
    pub submitted: Stamp,
    pub ended: Stamp,
    /// What it answered, as the engine spells it.
    pub reply: Bytes,
    pub call: CallNo,
    pub client: ClientNo,
}
