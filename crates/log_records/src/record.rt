//! Records, and how they are read.

ghost use Rattle.std.specs.Prelude.{◌≡◌, option_map, IfOk};
ghost use Rattle.volt_base.specs.Reading.{entry_at};
ghost use Rattle.log_records.specs.Records.{mark_at, placed_at, record_at, records_of};
ghost use Rattle.log_records.specs.Reading.{Gives};

use crate::reading::{Unread, read_u64};
use std::alloc::{AllocError, Global};
use volt_base::{Entry, Pos, Term};

/// A record of a log on disk.
#[derive(Debug, Drop)]
pub enum Record {
    /// The copy has all entries of this term's beginning on disk.
    Mark { term: Term },
    /// An entry of the partition's log at its position.
    Placed { position: Pos, entry: Entry },
}

/// What a record begins with.
pub(crate) const MARK: u8 = 16;

pub(crate) const PLACED: u8 = 17;

/// The entry at the beginning of the bytes, and the bytes behind it.
fn read_entry(alloc: Global, bytes: &[u8]) -> Result<(Entry, &[u8]), Unread>
    ensures { Gives (λ x. (x.0, x.1.now)) result (entry_at bytes.now) }
{
    match Entry::decode(alloc, bytes)? {
        Some((entry, len)) => Ok((entry, &bytes[len..])),
        None => Err(Unread::Other),
    }
}

#[tactic(auto, unfolding(crate::specs::Records::mark_at))]
fn read_mark(bytes: &[u8]) -> Result<(Record, &[u8]), Unread>
    ensures { Gives (λ x. (x.0, x.1.now)) result (mark_at bytes.now) }
{
    let (term, rest) = read_u64(bytes)?;
    Ok((Record::Mark { term }, rest))
}

#[tactic(auto, unfolding(crate::specs::Records::placed_at))]
fn read_placed(alloc: Global, bytes: &[u8]) -> Result<(Record, &[u8]), Unread>
    ensures { Gives (λ x. (x.0, x.1.now)) result (placed_at bytes.now) }
{
    let (position, rest) = read_u64(bytes)?;
    let (entry, rest) = read_entry(alloc, rest)?;
    Ok((Record::Placed { position, entry }, rest))
}

/// The record that bytes begin with, and the bytes behind it.
#[tactic(auto, unfolding(crate::specs::Records::record_at))]
fn read_record(alloc: Global, bytes: &[u8]) -> Result<(Record, &[u8]), Unread>
    ensures { Gives (λ x. (x.0, x.1.now)) result (record_at bytes.now) }
{
    match bytes {
        [16, rest @ ..] => read_mark(rest),
        [17, rest @ ..] => read_placed(alloc, rest),
        _ => Err(Unread::Other),
    }
}

/// All records that bytes are.
#[tactic(auto, using(crate::proofs::RecordLemmas::records_none))]
fn read_all(alloc: Global, bytes: &[u8]) -> Result<Vec<Record>, Unread>
    ensures { Gives (λ x. x.items) result (records_of bytes.now) }
{
    let mut records = Vec::new(alloc);
    let mut rest = bytes;
    while !rest.is_empty() {
        let (record, behind) = read_record(alloc, rest)?;
        if records.push(record).is_err() {
            return Err(Unread::NoMemory);
        }
        rest = behind;
    }
    Ok(records)
}

/// The records that the body of a batch is, in their order. `None` comes exactly where it is no list of
/// records.
pub fn read_records(alloc: Global, body: &[u8]) -> Result<Option<Vec<Record>>, AllocError>
    ensures { IfOk result (λ read. option_map (λ records. records.items) read ≡ records_of body.now) }
{
    match read_all(alloc, body) {
        Ok(records) => Ok(Some(records)),
        Err(Unread::Other) => Ok(None),
        Err(Unread::NoMemory) => Err(AllocError),
    }
}
