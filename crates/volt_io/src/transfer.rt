//! All of a source into memory, and all of a text into a sink.
ghost use Rattle.std.specs.Prelude.{◌≡◌, true, [], ◌+◌, ◌^◌, ◌<◌, ◌≤◌, length, take, vec_len, IfOk, IfSome, OnOk, OnErr};
ghost use Rattle.volt_base.specs.Faults.{Increased};
ghost use Rattle.volt_io.specs.States.{SourceGives, SourceGivesAtMost, SourceGivesTo, SinkTakes, SinkTakesPrefixOf};

use crate::sink::{Sink, WriteFailed};
use crate::source::{ReadFailed, Source};
use std::alloc::{AllocError, Global};
use std::error::Error;
use std::fmt;

/// Why a source wasn't read to its end.
#[derive(Clone, Copy, Debug, PartialEq, Eq)]
pub enum ReadFault {
    /// The source failed.
    Failed,
    /// There was no memory for the bytes.
    NoMemory,
}

impl fmt::Display for ReadFault {
    ghost use Rattle.std.specs.Prelude.{Some};
    ghost use Rattle.volt_io.specs.Words.{words_of};

    ghost output = { λ fault. Some (words_of fault) };

    fn fmt<W: fmt::Write>(&self, f: &mut fmt::Formatter<W>) -> fmt::Result {
        match self {
            ReadFault::Failed => write!(f, "the source failed"),
            ReadFault::NoMemory => write!(f, "there is no memory for the bytes"),
        }
    }
}

impl Error for ReadFault {}

impl From<ReadFailed> for ReadFault {
    ghost use Rattle.volt_io.specs.declared.transfer.ReadFault.TheVariants.{Failed};
    ghost use Rattle.std.specs.Prelude.{◌≡◌};

    ghost from_gives = { λ _ e. e ≡ Failed };

    fn from(_failed: ReadFailed) -> ReadFault {
        ReadFault::Failed
    }
}

impl From<AllocError> for ReadFault {
    ghost use Rattle.volt_io.specs.declared.transfer.ReadFault.TheVariants.{NoMemory};
    ghost use Rattle.std.specs.Prelude.{◌≡◌};

    ghost from_gives = { λ _ e. e ≡ NoMemory };

    fn from(_error: AllocError) -> ReadFault {
        ReadFault::NoMemory
    }
}

/// The most bytes that are asked of a source at once.
const PIECE: usize = 65_536;

/// Reads until the source is at its end, or until more than `limit` bytes are there: it holds
/// `limit + 1` of them then, and the caller knows that the input is too long. It takes time in
/// proportion to the bytes, and memory in proportion to them beside one buffer of 64 KiB.
///
/// After an `Err` the bytes that were read before it are lost.
pub fn read_to_end<S: Source>(
    alloc: Global,
    source: &mut S,
    limit: usize,
) -> Result<Vec<u8>, ReadFault>
    requires { limit < 2 ^ 62 }

    // The bytes are all that the source gave, up to its end or the limit.
    ensures within { IfOk result (λ bytes. vec_len bytes ≤ limit + 1) }
    ensures gives { IfOk result (λ bytes. SourceGives (S.state source.old) (S.state source.new) bytes.items) }
    ensures to_end { IfOk result (λ bytes. vec_len bytes ≤ limit → (S.state source.new).ended ≡ true) }

    // Where the source tells its bytes, they are these.
    ensures prefix { IfOk result (λ bytes. IfSome (S.state source.old).rest
        (λ left. bytes.items ≡ take (limit + 1) left)) }
    ensures whole { IfOk result (λ bytes. IfSome (S.state source.old).rest
        (λ left. vec_len bytes ≤ limit → bytes.items ≡ left)) }

    // A failure.
    ensures loses { OnErr result (SourceGivesAtMost (S.state source.old) (S.state source.new) (limit + 1)) }
    ensures increases { result ≡ Err ReadFault.Failed
        → Increased (S.state source.old).faults (S.state source.new).faults }
    ensures never_falls { (S.state source.old).faults ≤ (S.state source.new).faults }
{
    let mut piece = zeros(alloc, PIECE)?;
    let mut bytes = Vec::new(alloc);
    while bytes.len() <= limit {
        let room = piece.len().min(limit + 1 - bytes.len());
        if read_piece(source, &mut piece[..room], &mut bytes)? == 0 {
            return Ok(bytes);
        }
    }
    Ok(bytes)
}

// Reads once, by way of `piece`, to the end of `bytes`, and says how many bytes it read.
fn read_piece<S: Source>(
    source: &mut S,
    piece: &mut [u8],
    bytes: &mut Vec<u8>,
) -> Result<usize, ReadFault>
    requires { 0 < length piece.old }

    ensures within { IfOk result (λ n. n ≤ length piece.old) }
    ensures grows { IfOk result (λ n. vec_len bytes.new ≡ vec_len bytes.old + n) }
    ensures moves { OnOk result (SourceGivesTo (S.state source.old) (S.state source.new)
        bytes.old.items bytes.new.items) }
    ensures ends { IfOk result (λ n. n ≡ 0 → (S.state source.new).ended ≡ true) }
    ensures told_end { IfOk result (λ n. n ≡ 0 → IfSome (S.state source.old).rest (λ left. left ≡ [])) }
    ensures same { IfOk result (λ n. n ≡ 0 → bytes.new.items ≡ bytes.old.items) }

    ensures loses { OnErr result (SourceGivesAtMost (S.state source.old) (S.state source.new) (length piece.old)) }
    ensures increases { result ≡ Err ReadFault.Failed
        → Increased (S.state source.old).faults (S.state source.new).faults }
    ensures never_falls { (S.state source.old).faults ≤ (S.state source.new).faults }
{
    let count = source.read(piece)?;
    bytes.extend_from_slice(&piece[..count])?;
    Ok(count)
}

// The length is a parameter so that no proof writes the zeros out.
fn zeros(alloc: Global, len: usize) -> Result<Vec<u8>, AllocError>
    ensures { IfOk result (λ piece. vec_len piece ≡ len) }
{
    vec![in alloc; 0u8; len]
}

/// Writes all of `text`. It takes no memory.
///
/// After an `Err` some prefix of `text` was written.
pub fn write_all<K: Sink>(sink: &mut K, text: &[u8]) -> Result<(), WriteFailed>
    // What is written.
    ensures written { OnOk result (SinkTakes (K.state sink.old) (K.state sink.new) text.now) }
    ensures partly { OnErr result (SinkTakesPrefixOf (K.state sink.old) (K.state sink.new) text.now) }

    // The sink's faults.
    ensures increases { OnErr result (Increased (K.state sink.old).faults (K.state sink.new).faults) }
    ensures never_falls { (K.state sink.old).faults ≤ (K.state sink.new).faults }
{
    let mut at = 0;
    while at < text.len() {
        at += sink.write(&text[at..])?;
    }
    Ok(())
}

#[cfg(test)]
mod tests {
    use super::*;
    use crate::memory::{MemSink, MemSource};
    use std::test::Fail;

    #[test]
    fn reads_at_most_one_byte_past_the_limit(rt: HostRuntime) -> Result<(), Fail> {
        for (limit, piece, want) in [(0, 9, "a"), (2, 2, "abc"), (4, 1, "abcde"), (9, 1, "abcde")] {
            let bytes = b"abcde".to_vec(rt.alloc())?;
            let mut source = MemSource::with_piece(bytes, Vec::new(rt.alloc()), piece);
            let read = read_to_end(rt.alloc(), &mut source, limit)?;
            assert_eq!(rt; read.as_slice(), want.as_bytes(), "at {limit}");
        }
        Ok(())
    }

    #[test]
    fn reads_more_than_one_piece(rt: HostRuntime) -> Result<(), Fail> {
        let bytes = zeros(rt.alloc(), 200_000)?;
        let mut source = MemSource::new(bytes, Vec::new(rt.alloc()));
        let read = read_to_end(rt.alloc(), &mut source, 1_000_000)?;
        assert_eq!(rt; read.len(), 200_000);
        Ok(())
    }

    #[test]
    fn tells_of_a_failed_read(rt: HostRuntime) -> Result<(), Fail> {
        let bytes = b"abcde".to_vec(rt.alloc())?;
        let mut source = MemSource::with_piece(bytes, [3].to_vec(rt.alloc())?, 1);
        let read = read_to_end(rt.alloc(), &mut source, 9);
        assert_eq!(rt; read.err(), Some(ReadFault::Failed));
        assert_eq!(rt; source.faults(), 1);
        Ok(())
    }

    #[test]
    fn writes_all_or_tells_of_a_failure(rt: HostRuntime) -> Result<(), Fail> {
        let mut sink = MemSink::with_piece(rt.alloc(), [5].to_vec(rt.alloc())?, 1);
        write_all(&mut sink, b"abc")?;
        assert_eq!(rt; write_all(&mut sink, b"def"), Err(WriteFailed));
        assert_eq!(rt; sink.written(), b"abcd".as_slice());
        let mut sink = MemSink::new(rt.alloc(), [3].to_vec(rt.alloc())?);
        write_all(&mut sink, b"abc")?;
        write_all(&mut sink, b"")?;
        write_all(&mut sink, b"def")?;
        assert_eq!(rt; write_all(&mut sink, b"ghi"), Err(WriteFailed));
        assert_eq!(rt; sink.written(), b"abcdef".as_slice());
        Ok(())
    }
}
