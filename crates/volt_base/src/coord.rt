//! How a call on all partitions goes on.

use crate::bytes::Bytes;

/// What a call on all partitions does next.
#[derive(Debug, Drop)]
pub enum CoordStep {
    /// A round, in which each partition runs this body.
    Round { body: Bytes },
    /// Its end, with this reply. A call that isn't kept is undone.
    Finish { keep: bool, reply: Bytes },
}
