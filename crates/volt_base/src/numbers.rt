//! The numbers by which the parts of a cluster are named.

/// A host, from 0 on, in the order of the deployment.
pub type HostNo = u8;

/// A slot, the place of one copy of one partition. A site and its disk have their slot's number.
pub type SlotNo = u8;

/// A partition, from 0 on.
pub type PartNo = u8;

/// A client, from 1 on.
pub type ClientNo = u8;

/// A call of the input, from 1 on, in the order of the script's lines.
pub type CallNo = u32;

/// The number of one start of a host. No two starts of a run have one number.
pub type Start = u32;

/// A term of the cluster: the higher one is the later one.
pub type Term = u64;

/// The number of an event in its run, from 1 on.
pub type Stamp = u64;

/// A place in the log of a partition, from 1 on.
pub type Pos = u64;
