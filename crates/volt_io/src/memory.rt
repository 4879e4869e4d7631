//! A source and a sink over memory. The source tells its bytes, and both fail as they are told to.
ghost use Rattle.std.specs.Prelude.{◌≡◌, ◌-◌, ◌^◌, ◌<◌, ◌≤◌, ◌↔◌, [], ◌++◌, Some, Contains, drop, length, take, IsErr, IfOk, OnErr};
ghost use Rattle.volt_base.specs.Faults.{Increased};
ghost use Rattle.volt_io.specs.Supply.{supply_of, given_len, after_giving, after_failed_read};
ghost use Rattle.volt_io.specs.Store.{empty_store, taken_len, after_taking, after_failed_write, after_starved_write};

use crate::sink::{Sink, WriteFailed};
use crate::source::{ReadFailed, Source};
use std::alloc::Global;
use std::marker::Model;

/// A source that gives the bytes of a vector. It fails the calls whose numbers, from 1, it was
/// given, and no other call. A failed call gives nothing, and the next one goes on where the last
/// good one ended.
#[derive(Debug, Drop)]
pub struct MemSource {
    bytes: Vec<u8>,
    next: usize,
    fail: Vec<u64>,
    piece: usize,
    call: u64,
    faults: u64,
    /// Whether the last read that worked gave none.
    ended: bool,
}

impl Model for MemSource {
    ghost use Rattle.std.specs.Prelude.{◌<◌, ◌≤◌, take, drop, vec_len};
    ghost use Rattle.volt_io.specs.Supply.{Supply};

    ghost Value = { Supply };

    ghost view = { λ s. record {
      given = take s.next s.bytes.items;
      ended = s.ended;
      left = drop s.next s.bytes.items;
      fail = s.fail.items;
      piece = s.piece;
      call = s.call;
      faults = s.faults;
    } };

    ghost invariant = { λ s. (s.next ≤ vec_len s.bytes) × (0 < s.piece) };
}

impl MemSource {
    /// A source of these bytes, that fills the place it is given where it has the bytes.
    pub fn new(bytes: Vec<u8>, fail: Vec<u64>) -> MemSource
        ensures { result ≡ supply_of bytes.items fail.items (2 ^ 64 - 1) }
    {
        MemSource::with_piece(bytes, fail, usize::MAX)
    }

    /// A source of these bytes, that gives at most `piece` of them a call.
    pub fn with_piece(bytes: Vec<u8>, fail: Vec<u64>, piece: usize) -> MemSource
        requires { 0 < piece }
        ensures { result ≡ supply_of bytes.items fail.items piece }
    {
        MemSource {
            bytes,
            next: 0,
            fail,
            piece,
            call: 1,
            faults: 0,
            ended: false,
        }
    }
}

impl Source for MemSource {
    ghost state = { λ s. record { given = s.given; ended = s.ended; rest = Some s.left; faults = s.faults } };

    #[tactic(auto, using(crate::proofs::SupplyLemmas::reads))]
    fn read(&mut self, into: &mut [u8]) -> Result<usize, ReadFailed>
        requires { 0 < length into.old }

        // When it fails.
        ensures fails { IsErr result ↔ Contains self.old.fail self.old.call }
        ensures failed { OnErr result (self.new ≡ after_failed_read self.old) }

        // What it gives.
        ensures given { IfOk result (λ n. n ≡ given_len self.old (length into.old)) }
        ensures bytes { IfOk result (λ n. into.new ≡ take n self.old.left ++ drop n into.old) }
        ensures after { IfOk result (λ n. self.new ≡ after_giving self.old n) }

        // As each source.
        ensures ends { IfOk result (λ n. (n ≡ 0) ↔ (self.old.left ≡ [])) }
        ensures increases { OnErr result (Increased self.old.faults self.new.faults) }
        ensures never_falls { self.old.faults ≤ self.new.faults }
    {
        let fails = self.fail.contains(&self.call);
        self.call = self.call.saturating_add(1);
        if fails {
            self.faults = self.faults.saturating_add(1);
            return Err(ReadFailed);
        }
        let left = self.bytes.len() - self.next;
        let count = into.len().min(self.piece).min(left);
        into[..count].copy_from_slice(&self.bytes[self.next..self.next + count]);
        self.next += count;
        self.ended = count == 0;
        Ok(count)
    }

    fn faults(&self) -> u64 {
        self.faults
    }
}

/// A sink that keeps what is written in a vector. It fails the calls whose numbers, from 1, it was
/// given, and else only those for which its vector finds no memory. A failed call writes nothing.
#[derive(Debug, Drop)]
pub struct MemSink {
    written: Vec<u8>,
    fail: Vec<u64>,
    piece: usize,
    call: u64,
    faults: u64,
    starved: u64,
}

impl Model for MemSink {
    ghost use Rattle.std.specs.Prelude.{◌<◌};
    ghost use Rattle.volt_io.specs.Store.{Store};

    ghost Value = { Store };

    ghost view = { λ s. record {
      written = s.written.items;
      fail = s.fail.items;
      piece = s.piece;
      call = s.call;
      faults = s.faults;
      starved = s.starved;
    } };

    ghost invariant = { λ s. 0 < s.piece };
}

impl MemSink {
    /// A sink that takes the whole of each piece.
    pub fn new(alloc: Global, fail: Vec<u64>) -> MemSink
        ensures { result ≡ empty_store fail.items (2 ^ 64 - 1) }
    {
        MemSink::with_piece(alloc, fail, usize::MAX)
    }

    /// A sink that takes at most `piece` bytes a call.
    pub fn with_piece(alloc: Global, fail: Vec<u64>, piece: usize) -> MemSink
        requires { 0 < piece }
        ensures { result ≡ empty_store fail.items piece }
    {
        MemSink {
            written: Vec::new(alloc),
            fail,
            piece,
            call: 1,
            faults: 0,
            starved: 0,
        }
    }

    /// What was written so far.
    pub fn written(&self) -> &[u8]
        ensures { result.now ≡ self.now.written }
    {
        self.written.as_slice()
    }

    /// How many calls found no memory so far. Each of them counts as a fault too.
    pub fn starved(&self) -> u64
        ensures { result ≡ self.now.starved }
    {
        self.starved
    }
}

impl Sink for MemSink {
    ghost state = { λ s. record { taken = s.written; faults = s.faults } };

    fn write(&mut self, piece: &[u8]) -> Result<usize, WriteFailed>
        requires { 0 < length piece.now }

        // When it fails, and for which cause.
        ensures fails { Contains self.old.fail self.old.call → IsErr result }
        ensures failed { OnErr result
            (Contains self.old.fail self.old.call → self.new ≡ after_failed_write self.old) }
        ensures starves { OnErr result
            (¬ Contains self.old.fail self.old.call → self.new ≡ after_starved_write self.old) }

        // What it takes.
        ensures taken { IfOk result (λ n. n ≡ taken_len self.old (length piece.now)) }
        ensures after { IfOk result (λ n. self.new ≡ after_taking self.old (take n piece.now)) }

        // As each sink.
        ensures some { IfOk result (λ n. 0 < n) }
        ensures increases { OnErr result (Increased self.old.faults self.new.faults) }
        ensures kept { OnErr result (self.new.written ≡ self.old.written) }
        ensures never_falls { self.old.faults ≤ self.new.faults }
    {
        let fails = self.fail.contains(&self.call);
        self.call = self.call.saturating_add(1);
        if fails {
            self.faults = self.faults.saturating_add(1);
            return Err(WriteFailed);
        }
        let count = piece.len().min(self.piece);
        if self.written.extend_from_slice(&piece[..count]).is_err() {
            self.faults = self.faults.saturating_add(1);
            self.starved = self.starved.saturating_add(1);
            return Err(WriteFailed);
        }
        Ok(count)
    }

    fn faults(&self) -> u64 {
        self.faults
    }
}

#[cfg(test)]
mod tests {
    use super::*;
    use std::test::Fail;

    #[test]
    fn source_gives_its_bytes_and_fails_by_its_list(rt: HostRuntime) -> Result<(), Fail> {
        let bytes = b"abcde".to_vec(rt.alloc())?;
        let fail = [2, 4].to_vec(rt.alloc())?;
        let mut source = MemSource::with_piece(bytes, fail, 2);
        let mut into = [0u8; 4];
        let want = [
            (Ok(2), *b"ab\0\0"),
            (Err(ReadFailed), *b"ab\0\0"),
            (Ok(2), *b"cd\0\0"),
            (Err(ReadFailed), *b"cd\0\0"),
            (Ok(1), *b"ed\0\0"),
            (Ok(0), *b"ed\0\0"),
        ];
        for (count, held) in want {
            assert_eq!(rt; source.read(&mut into), count);
            assert_eq!(rt; into, held);
        }
        assert_eq!(rt; source.faults(), 2);
        Ok(())
    }

    #[test]
    fn sink_keeps_its_bytes_and_fails_by_its_list(rt: HostRuntime) -> Result<(), Fail> {
        let fail = [2].to_vec(rt.alloc())?;
        let mut sink = MemSink::with_piece(rt.alloc(), fail, 2);
        assert_eq!(rt; sink.write(b"abc"), Ok(2));
        assert_eq!(rt; sink.write(b"c"), Err(WriteFailed));
        assert_eq!(rt; sink.write(b"c"), Ok(1));
        assert_eq!(rt; sink.written(), b"abc".as_slice());
        assert_eq!(rt; sink.faults(), 1);
        assert_eq!(rt; sink.starved(), 0);
        Ok(())
    }
}
