//! Bytes that are held back on their way to a sink, so that it takes them in large pieces.
ghost use Rattle.std.specs.Prelude.{◌≡◌, ◌≤◌, [], ◌++◌, IsOk, OnOk, OnErr};
ghost use Rattle.volt_io.specs.Buffer.{HasRoom};
ghost use Rattle.volt_base.specs.Faults.{Increased};
ghost use Rattle.volt_io.specs.States.{SinkTakes, SinkTakesPrefixOf, SinkTakesAllBut};

use crate::sink::{Sink, WriteFailed};
use crate::transfer::write_all;
use arrayvec::ArrayVec;
use std::marker::Model;

/// The most bytes that are held.
const ROOM: usize = 16_384;

/// Up to 16 KiB that a sink is still to take. They lie in the value itself, so nothing here takes
/// memory.
///
/// A clause sees the bytes that are held. Each call is given the same sink.
#[derive(Drop)]
pub struct WriteBuffer {
    held: ArrayVec<u8, ROOM>,
}

impl Model for WriteBuffer {
    ghost use Rattle.std.specs.Prelude.{ℕ, List};

    ghost Value = { List ℕ };

    ghost view = { λ b. b.held.items };
}

impl WriteBuffer {
    /// A buffer that holds nothing.
    pub fn new() -> WriteBuffer
        ensures { result ≡ [] }
    {
        WriteBuffer {
            held: ArrayVec::new(),
        }
    }

    /// Holds `text` behind the bytes that are held already. Where there is no room it first writes
    /// these, and a text that is longer than the buffer too.
    ///
    /// After an `Err` some prefix of all of them was written, and nothing is held.
    pub fn push<K: Sink>(&mut self, sink: &mut K, text: &[u8]) -> Result<(), WriteFailed>
        // Where there is room it is held, and the sink is left alone.
        ensures waits { HasRoom self.old text.now → self.new ≡ self.old ++ text.now }
        ensures untouched { HasRoom self.old text.now → sink.new ≡ sink.old }
        ensures succeeds { HasRoom self.old text.now → IsOk result }

        // What is written, and what is held.
        ensures kept { OnOk result (SinkTakesAllBut (K.state sink.old) (K.state sink.new)
            (self.old ++ text.now) self.new) }
        ensures partly { OnErr result (SinkTakesPrefixOf (K.state sink.old) (K.state sink.new)
            (self.old ++ text.now)) }
        ensures lost { OnErr result (self.new ≡ []) }

        // The sink's faults.
        ensures increases { OnErr result (Increased (K.state sink.old).faults (K.state sink.new).faults) }
        ensures never_falls { (K.state sink.old).faults ≤ (K.state sink.new).faults }
    {
        if self.held.try_extend_from_slice(text).is_ok() {
            return Ok(());
        }
        self.flush(sink)?;
        if self.held.try_extend_from_slice(text).is_ok() {
            return Ok(());
        }
        write_all(sink, text)
    }

    /// Writes all bytes that are held. Then nothing is held, even after an `Err`, where some prefix
    /// of them was written.
    pub fn flush<K: Sink>(&mut self, sink: &mut K) -> Result<(), WriteFailed>
        // What is written, and what is held.
        ensures written { OnOk result (SinkTakes (K.state sink.old) (K.state sink.new) self.old) }
        ensures partly { OnErr result (SinkTakesPrefixOf (K.state sink.old) (K.state sink.new) self.old) }
        ensures empty { self.new ≡ [] }

        // The sink's faults.
        ensures increases { OnErr result (Increased (K.state sink.old).faults (K.state sink.new).faults) }
        ensures never_falls { (K.state sink.old).faults ≤ (K.state sink.new).faults }
    {
        let written = write_all(sink, self.held.as_slice());
        self.held.clear();
        written
    }
}

#[cfg(test)]
mod tests {
    use super::*;
    use crate::memory::MemSink;
    use std::test::Fail;

    #[test]
    fn holds_back_until_there_is_no_room(rt: HostRuntime) -> Result<(), Fail> {
        let mut sink = MemSink::new(rt.alloc(), Vec::new(rt.alloc()));
        let mut buffer = WriteBuffer::new();
        let long = vec![in rt.alloc(); b'x'; ROOM - 1]?;
        buffer.push(&mut sink, &long)?;
        buffer.push(&mut sink, b"a")?;
        assert_eq!(rt; sink.written().len(), 0);
        buffer.push(&mut sink, b"bc")?;
        assert_eq!(rt; sink.written().len(), ROOM);
        assert!(rt; sink.written().ends_with(b"xa"));
        buffer.flush(&mut sink)?;
        buffer.flush(&mut sink)?;
        assert_eq!(rt; sink.written().len(), ROOM + 2);
        assert!(rt; sink.written().ends_with(b"xabc"));
        Ok(())
    }

    #[test]
    fn writes_what_is_longer_than_the_buffer(rt: HostRuntime) -> Result<(), Fail> {
        let mut sink = MemSink::new(rt.alloc(), Vec::new(rt.alloc()));
        let mut buffer = WriteBuffer::new();
        let long = vec![in rt.alloc(); b'x'; ROOM + 1]?;
        buffer.push(&mut sink, b"a")?;
        buffer.push(&mut sink, &long)?;
        assert_eq!(rt; sink.written().len(), ROOM + 2);
        assert!(rt; sink.written().starts_with(b"ax"));
        Ok(())
    }

    #[test]
    fn failed_write_leaves_nothing_held(rt: HostRuntime) -> Result<(), Fail> {
        let mut sink = MemSink::with_piece(rt.alloc(), [2].to_vec(rt.alloc())?, 2);
        let mut buffer = WriteBuffer::new();
        buffer.push(&mut sink, b"abc")?;
        assert_eq!(rt; buffer.flush(&mut sink), Err(WriteFailed));
        buffer.flush(&mut sink)?;
        assert_eq!(rt; sink.written(), b"ab".as_slice());
        Ok(())
    }
}
