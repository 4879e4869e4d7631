//! What a base has besides rows.

use volt_base::{Applied, Bytes, LastReply, Outcome, Pos, SlotNo, Term};

/// What stands ahead of the rows of a base.
#[derive(Debug, Drop)]
pub struct BaseHead {
    /// The layout of the cluster: how many hosts it has, how many sites each of them has, and how many
    /// copies may be lost.
    pub hosts: u8,
    pub sites: u8,
    pub k: u8,
    /// The slot of the copy.
    pub slot: SlotNo,
    /// The text of the definitions.
    pub ddl: Bytes,
    /// The term of which the copy had a mark.
    pub mark: Term,
    /// The position in the log after which the partition stood so.
    pub position: Pos,
    /// The transaction on all partitions that ended last, whose number is above 0, and how it ended.
    pub last: Option<(u64, Outcome)>,
    /// The calls that the partition has applied, in their order.
    pub applied: Vec<Applied>,
    /// The last reply to each client, by rising client from 1 on.
    pub replies: Vec<LastReply>,
}
