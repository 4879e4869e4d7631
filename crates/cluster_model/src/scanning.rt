//! What a site has a scan for: a type that its code and its definitions share.

use volt_base::{Pos, SlotNo};

/// The scan that runs for a site.
#[derive(Clone, Copy, Debug, PartialEq, Eq)]
pub enum Scanning {
    /// For the joiner of this slot.
    ForJoiner {
        id: u64,
        slot: SlotNo,
    },
    /// For a base at this position: how many blocks came, how many of them are written, and how many
    /// there are.
    ForBase {
        id: u64,
        position: Pos,
        blocks: u64,
        written: u64,
        count: Option<u64>,
    },
}
