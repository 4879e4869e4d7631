//! What a script asks for besides calls.

use volt_base::{HostNo, SlotNo};

/// What the director is to do.
#[derive(Clone, Copy, Debug, PartialEq, Eq)]
pub enum Item {
    /// Stop a host.
    Lose(HostNo),
    /// Start a host that isn't running again, and let it join the cluster.
    Rejoin(HostNo),
    /// Take a snapshot of all partitions.
    Snapshot,
    /// Cut the power of a slot's disk at the coming disk call of this number, counted from 1. The
    /// choice says what the disk shows afterwards.
    Power {
        slot: SlotNo,
        call: u64,
        choice: u64,
    },
    /// Look at the copy of a slot.
    Look(SlotNo),
    /// Stop all hosts.
    Halt,
    /// Stop all hosts, and recover from their disks.
    Recover,
    /// Wait until nothing but submissions can happen.
    Quiet,
}

/// An item that may happen once this many calls were submitted.
#[derive(Clone, Copy, Debug, PartialEq, Eq)]
pub struct TimedItem {
    pub after: u32,
    pub item: Item,
}
