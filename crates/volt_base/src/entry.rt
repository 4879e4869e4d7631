//! Entries of a partition's log.

ghost use Rattle.std.specs.Prelude.{◌≡◌, ℕ, ◌<◌, ◌^◌, List, ◌++◌, length, OnOk, IfOk, IfSome, IfNone};

use crate::bytes::Bytes;
use crate::numbers::{CallNo, ClientNo, Stamp};
use crate::reading::{Unread, read_entry};
use crate::spelling::put_entry;
use std::alloc::{AllocError, Global};

/// A call that a partition has applied, and its point: the stamp that orders it among all calls.
#[derive(Clone, Copy, Debug, PartialEq, Eq)]
pub struct Applied {
    pub call: CallNo,
    pub point: Stamp,
}

/// The last reply to a client: the call that it answered, and its bytes.
#[derive(Debug, Drop)]
pub struct LastReply {
    pub client: ClientNo,
    pub call: CallNo,
    pub reply: Bytes,
}

/// How a multi-partition transaction ended.
#[derive(Debug, Drop)]
pub enum Outcome {
    /// It left nothing behind, and its call may run again.
    Dropped,
    /// Its changes stay, and the client's call is applied at this point with this reply.
    Kept {
        call: CallNo,
        client: ClientNo,
        point: Stamp,
        reply: Bytes,
    },
    /// Its changes are undone, and the client's call is applied at this point with this reply.
    Aborted {
        call: CallNo,
        client: ClientNo,
        point: Stamp,
        reply: Bytes,
    },
    /// It was a snapshot.
    Snapshot,
}

/// An entry of a partition's log.
#[derive(Debug, Drop)]
pub enum Entry {
    /// A whole single-partition call of a client. Client 0 is none.
    Sp {
        call: CallNo,
        client: ClientNo,
        point: Stamp,
        body: Bytes,
    },
    /// One round of a multi-partition transaction on this partition.
    Frag {
        transaction: u64,
        round: u16,
        body: Bytes,
    },
    /// The end of a multi-partition transaction.
    Done {
        transaction: u64,
        outcome: Outcome,
    },
}

impl Entry {
    ghost use Rattle.volt_base.specs.declared.entry.Entry.{Entry};
    ghost use Rattle.volt_base.specs.Spelling.{entry_bytes, bytes_of, HasClientOfReply, Fits, BeginsWith, BeginsWithNone};

    /// The one spelling of the entry: a byte for its kind and then its fields, a number with its
    /// high byte first, and a body or a reply behind its length in four bytes. Those hold a length
    /// below 2^32. Entries of no client have a kind of their own, and no room for a reply.
    pub fn encode(&self, alloc: Global) -> Result<Bytes, AllocError>
        requires length { length (bytes_of self.now) < 2 ^ 32 }
        requires client { HasClientOfReply self.now }
        ensures spelled { IfOk result (λ bytes. bytes ≡ entry_bytes self.now) }
        ensures fits { OnOk result (Fits self.now) }
    {
        let mut out = Vec::new(alloc);
        put_entry(&mut out, self)?;
        Ok(Bytes::from_vec(out))
    }

    /// The entry whose spelling the bytes begin with, and how many bytes that has. More bytes may
    /// follow it. `None` where they begin with no entry's spelling. Only the body or reply takes memory.
    pub fn decode(alloc: Global, bytes: &[u8]) -> Result<Option<(Entry, usize)>, AllocError>
        ensures found { IfOk result (λ read.
            IfSome read (λ found. BeginsWith bytes.now found.0 found.1)) }
        ensures none { IfOk result (λ read. IfNone read (BeginsWithNone bytes.now)) }
        // What was written is read again, whatever follows it.
        ensures again { (entry : Entry) (rest : List ℕ) → Fits entry
            → bytes.now ≡ entry_bytes entry ++ rest
            → IfOk result (λ read. read ≡ Some (entry, length (entry_bytes entry))) }
    {
        match read_entry(alloc, bytes) {
            Ok((entry, rest)) => Ok(Some((entry, bytes.len() - rest.len()))),
            Err(Unread::NoEntry) => Ok(None),
            Err(Unread::NoMemory) => Err(AllocError),
        }
    }
}
