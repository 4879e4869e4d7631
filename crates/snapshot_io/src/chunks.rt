//! Finds the chunks of a base in bytes.

ghost use Rattle.std.specs.Prelude.{◌≡◌, true, false, option_map};
ghost use Rattle.snapshot_io.specs.Chunks.{behind_value, behind_all, behind_row, behind_chunk, chunk_at};
ghost use Rattle.snapshot_io.specs.Base.{end_mark};
ghost use Rattle.snapshot_io.specs.Reading.{Gives, behind_these, none_left, chunks_of};

use crate::reading::{Unread, read_u16};
use std::alloc::Global;
use volt_base::Bytes;
use volt_value::decode;

/// What a file has behind its last chunk.
pub(crate) const END_MARK: [u8; 6] = [255, 255, b'V', b'E', b'N', b'D'];

/// The number that no table has: where a chunk's table would stand, no chunk comes.
const NO_TABLE: u16 = 65_535;

#[tactic(auto, unfolding(crate::specs::Chunks::behind_value))]
fn behind_one_value(alloc: Global, bytes: &[u8]) -> Result<&[u8], Unread>
    ensures { Gives (λ x. x.now) result (behind_value bytes.now) }
{
    match decode(alloc, bytes)? {
        Some((_, len)) => Ok(&bytes[len..]),
        None => Err(Unread::NoBase),
    }
}

fn behind_values(alloc: Global, count: u8, bytes: &[u8]) -> Result<&[u8], Unread>
    ensures { Gives (λ x. x.now) result (behind_all behind_value count bytes.now) }
{
    let mut rest = bytes;
    let mut left = count;
    while left > 0 {
        rest = behind_one_value(alloc, rest)?;
        left -= 1;
    }
    Ok(rest)
}

#[tactic(auto, unfolding(crate::specs::Chunks::behind_row))]
fn behind_one_row(alloc: Global, bytes: &[u8]) -> Result<&[u8], Unread>
    ensures { Gives (λ x. x.now) result (behind_row bytes.now) }
{
    match bytes {
        [] => Err(Unread::NoBase),
        [count, rest @ ..] => behind_values(alloc, *count, rest),
    }
}

fn behind_rows(alloc: Global, count: u16, bytes: &[u8]) -> Result<&[u8], Unread>
    ensures { Gives (λ x. x.now) result (behind_all behind_row count bytes.now) }
{
    let mut rest = bytes;
    let mut left = count;
    while left > 0 {
        rest = behind_one_row(alloc, rest)?;
        left -= 1;
    }
    Ok(rest)
}

/// What stands behind the chunk that bytes begin with.
#[tactic(auto, unfolding(crate::specs::Chunks::behind_chunk))]
fn behind_one_chunk(alloc: Global, bytes: &[u8]) -> Result<&[u8], Unread>
    ensures { Gives (λ x. x.now) result (behind_chunk bytes.now) }
{
    let (table, rest) = read_u16(bytes)?;
    let (count, rest) = read_u16(rest)?;
    if table == NO_TABLE {
        return Err(Unread::NoBase);
    }
    behind_rows(alloc, count, rest)
}

/// The chunk that bytes begin with, and what stands behind it.
#[tactic(auto, unfolding(crate::specs::Chunks::chunk_at))]
fn read_chunk(alloc: Global, bytes: &[u8]) -> Result<(Bytes, &[u8]), Unread>
    ensures { Gives (λ x. (x.0, x.1.now)) result (chunk_at bytes.now) }
{
    let rest = behind_one_chunk(alloc, bytes)?;
    let chunk = Bytes::of(alloc, &bytes[..bytes.len() - rest.len()])?;
    Ok((chunk, rest))
}

/// What stands behind these bytes.
pub(crate) fn behind_bytes<'a>(these: &[u8], bytes: &'a [u8]) -> Option<&'a [u8]>
    ensures { option_map (λ x. x.now) result ≡ behind_these these.now bytes.now }
{
    let mut rest = bytes;
    let mut left = these;
    while let [wanted, further @ ..] = left {
        let [byte, behind @ ..] = rest else {
            return None;
        };
        if *byte != *wanted {
            return None;
        }
        rest = behind;
        left = further;
    }
    Some(rest)
}

/// Whether bytes are the mark of the end.
fn is_end(bytes: &[u8]) -> bool
    ensures { result ≡ none_left (behind_these end_mark bytes.now) }
{
    match behind_bytes(&END_MARK, bytes) {
        Some([]) => true,
        _ => false,
    }
}

/// The chunks that bytes are, and the mark of the end behind them.
#[tactic(auto, using(crate::proofs::ChunkLemmas::chunks_none))]
pub(crate) fn read_chunks(alloc: Global, bytes: &[u8]) -> Result<Vec<Bytes>, Unread>
    ensures { Gives (λ x. x.items) result (chunks_of bytes.now) }
{
    let mut chunks = Vec::new(alloc);
    let mut rest = bytes;
    while !is_end(rest) {
        let (chunk, behind) = read_chunk(alloc, rest)?;
        if chunks.push(chunk).is_err() {
            return Err(Unread::NoMemory);
        }
        rest = behind;
    }
    Ok(chunks)
}
