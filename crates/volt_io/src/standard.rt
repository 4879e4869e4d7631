//! A source over any reader of std, and a sink over any writer. They are the edge to the environment:
//! it is known what a reader answered and what a writer took by its answers, and no clause says what
//! a file, a pipe or a terminal has.
ghost use Rattle.std.specs.Prelude.{◌≡◌, ◌==◌, ◌<◌, ◌≤◌, [], length, take, IfSome, IfOk, OnErr};
ghost use Rattle.volt_base.specs.Faults.{Increased};
ghost use Rattle.volt_io.specs.States.{SourceGives, SinkTakes};
ghost use Rattle.volt_io.specs.Standard.{no_traffic, after_moving, after_failing, as_source, as_sink};

use crate::sink::{Sink, WriteFailed};
use crate::source::{ReadFailed, Source};
use crate::trail::Trail;
use std::io::{ErrorKind, Read, Write};
use std::marker::Model;

/// How many calls in a row may be interrupted before the last of them counts as failed.
const TRIES: usize = 1_000;

/// A source over a reader. A call that a signal interrupts is made again, up to 1,000 calls in a
/// row; any other error, or the 1,000th interruption, is a fault.
///
/// A clause sees what the reader answered, and the count of its faults.
#[derive(Drop)]
pub struct StdSource<R: Read + Drop> {
    reader: R,
    faults: u64,
    trail: Trail,
}

impl<R: Read + Drop> Model for StdSource<R> {
    ghost use Rattle.volt_io.specs.Standard.{Traffic};

    ghost Value = { Traffic };

    ghost view = { λ s. record { passed = s.trail.passed; faults = s.faults } };
}

impl<R: Read + Drop> StdSource<R> {
    /// A source that gives what the reader gives.
    pub fn new(reader: R) -> StdSource<R>
        ensures { result ≡ no_traffic }
    {
        StdSource {
            reader,
            faults: 0,
            trail: Trail::new(),
        }
    }
}

impl<R: Read + Drop> Source for StdSource<R> {
    ghost state = { as_source };

    fn read(&mut self, into: &mut [u8]) -> Result<usize, ReadFailed>
        requires { 0 < length into.old }

        ensures given { IfOk result (λ n. self.new ≡ after_moving self.old (take n into.new)) }
        ensures failed { OnErr result (self.new ≡ after_failing self.old) }

        // As each source.
        ensures within { IfOk result (λ n. n ≤ length into.new) }
        ensures gives { IfOk result (λ n. SourceGives (as_source self.old) (as_source self.new) (take n into.new)) }
        ensures ends { IfOk result (λ n. self.new.passed.ended ≡ (n == 0)) }
        ensures kept { OnErr result (SourceGives (as_source self.old) (as_source self.new) []) }
        ensures increases { OnErr result (Increased self.old.faults self.new.faults) }
        ensures never_falls { self.old.faults ≤ self.new.faults }
    {
        match read_some(&mut self.reader, into) {
            Some(count) => {
                self.trail.note(&into[..count]);
                Ok(count)
            }
            None => {
                self.faults = self.faults.saturating_add(1);
                Err(ReadFailed)
            }
        }
    }

    fn faults(&self) -> u64 {
        self.faults
    }
}

// What a read gives that isn't interrupted, or `None` after an error or too many interruptions.
fn read_some<R: Read>(reader: &mut R, into: &mut [u8]) -> Option<usize>
    ensures { IfSome result (λ n. n ≤ length into.new) }
{
    for _ in 0..TRIES {
        match reader.read(into) {
            Ok(count) => return Some(count),
            Err(error) => {
                if error.kind() != ErrorKind::Interrupted {
                    return None;
                }
            }
        }
    }
    None
}

/// A sink over a writer. A call that a signal interrupts is made again, up to 1,000 calls in a
/// row; any other error, the 1,000th interruption, or a writer that takes no byte, is a fault.
///
/// A clause sees what the writer took by its answers, and the count of its faults. To flush a writer
/// that holds bytes back, pass it by `&mut`, and flush it once the sink is gone.
#[derive(Drop)]
pub struct StdSink<W: Write + Drop> {
    writer: W,
    faults: u64,
    trail: Trail,
}

impl<W: Write + Drop> Model for StdSink<W> {
    ghost use Rattle.volt_io.specs.Standard.{Traffic};

    ghost Value = { Traffic };

    ghost view = { λ s. record { passed = s.trail.passed; faults = s.faults } };
}

impl<W: Write + Drop> StdSink<W> {
    /// A sink that passes its bytes on to the writer.
    pub fn new(writer: W) -> StdSink<W>
        ensures { result ≡ no_traffic }
    {
        StdSink {
            writer,
            faults: 0,
            trail: Trail::new(),
        }
    }
}

impl<W: Write + Drop> Sink for StdSink<W> {
    ghost state = { as_sink };

    fn write(&mut self, piece: &[u8]) -> Result<usize, WriteFailed>
        requires { 0 < length piece.now }

        ensures taken { IfOk result (λ n. self.new ≡ after_moving self.old (take n piece.now)) }
        ensures failed { OnErr result (self.new ≡ after_failing self.old) }

        // As each sink.
        ensures some { IfOk result (λ n. 0 < n) }
        ensures within { IfOk result (λ n. n ≤ length piece.now) }
        ensures takes { IfOk result (λ n. SinkTakes (as_sink self.old) (as_sink self.new) (take n piece.now)) }
        ensures increases { OnErr result (Increased self.old.faults self.new.faults) }
        ensures never_falls { self.old.faults ≤ self.new.faults }
    {
        match write_some(&mut self.writer, piece) {
            Some(count) => {
                self.trail.note(&piece[..count]);
                Ok(count)
            }
            None => {
                self.faults = self.faults.saturating_add(1);
                Err(WriteFailed)
            }
        }
    }

    fn faults(&self) -> u64 {
        self.faults
    }
}

// What a write takes that isn't interrupted, or `None` after an error, too many interruptions, or
// where the writer takes no byte.
fn write_some<W: Write>(writer: &mut W, piece: &[u8]) -> Option<usize>
    ensures some { IfSome result (λ n. 0 < n) }
    ensures within { IfSome result (λ n. n ≤ length piece.now) }
{
    for _ in 0..TRIES {
        match writer.write(piece) {
            Ok(0) => return None,
            Ok(count) => return Some(count),
            Err(error) => {
                if error.kind() != ErrorKind::Interrupted {
                    return None;
                }
            }
        }
    }
    None
}

#[cfg(test)]
mod tests {
    use super::*;
    use std::io;
    use std::test::Fail;

    // What a `Flaky` does after its interruptions.
    #[derive(Clone, Copy, Drop)]
    enum Then {
        Moves,
        MovesNothing,
        Fails,
    }

    // A reader and a writer whose first calls are interrupted.
    #[derive(Drop)]
    struct Flaky {
        interruptions: u64,
        then: Then,
    }

    impl Flaky {
        fn answer(&mut self) -> io::Result<usize>
            ensures { IfOk result (λ n. n ≤ 1) }
        {
            if self.interruptions > 0 {
                self.interruptions -= 1;
                return Err(io::Error::from(ErrorKind::Interrupted));
            }
            match self.then {
                Then::Moves => Ok(1),
                Then::MovesNothing => Ok(0),
                Then::Fails => Err(io::Error::from(ErrorKind::BrokenPipe)),
            }
        }
    }

    impl Read for Flaky {
        fn read(&mut self, buf: &mut [u8]) -> io::Result<usize> {
            let count = self.answer()?;
            Ok(count.min(buf.len()))
        }
    }

    impl Write for Flaky {
        fn write(&mut self, buf: &[u8]) -> io::Result<usize> {
            let count = self.answer()?;
            Ok(count.min(buf.len()))
        }

        fn flush(&mut self) -> io::Result<()> {
            Ok(())
        }
    }

    #[test]
    fn reads_what_the_reader_gives(rt: HostRuntime) -> Result<(), Fail> {
        let bytes = b"abc";
        let mut source = StdSource::new(bytes.as_slice());
        let mut into = [0u8; 2];
        assert_eq!(rt; source.read(&mut into)?, 2);
        assert_eq!(rt; into, [b'a', b'b']);
        assert_eq!(rt; source.read(&mut into)?, 1);
        assert_eq!(rt; into[0], b'c');
        assert_eq!(rt; source.read(&mut into)?, 0);
        assert_eq!(rt; source.faults(), 0);
        Ok(())
    }

    #[test]
    fn counts_the_faults_of_a_reader(rt: HostRuntime) {
        let cases = [
            (0, Then::Moves, Ok(1)),
            (999, Then::Moves, Ok(1)),
            (1_000, Then::Moves, Err(ReadFailed)),
            (3, Then::MovesNothing, Ok(0)),
            (3, Then::Fails, Err(ReadFailed)),
        ];
        for (interruptions, then, want) in cases {
            let mut source = StdSource::new(Flaky {
                interruptions,
                then,
            });
            let mut into = [0u8; 4];
            assert_eq!(rt; source.read(&mut into), want, "after {interruptions}");
            assert_eq!(rt; source.faults(), u64::from(want.is_err()));
        }
    }

    #[test]
    fn writes_to_the_writer(rt: HostRuntime) -> Result<(), Fail> {
        let mut written = Vec::new(rt.alloc());
        let mut sink = StdSink::new(&mut written);
        assert_eq!(rt; sink.write(b"abc")?, 3);
        assert_eq!(rt; sink.write(b"de")?, 2);
        assert_eq!(rt; sink.faults(), 0);
        drop(sink);
        assert_eq!(rt; written.as_slice(), b"abcde".as_slice());
        Ok(())
    }

    #[test]
    fn counts_the_faults_of_a_writer(rt: HostRuntime) {
        let cases = [
            (0, Then::Moves, Ok(1)),
            (999, Then::Moves, Ok(1)),
            (1_000, Then::Moves, Err(WriteFailed)),
            (3, Then::MovesNothing, Err(WriteFailed)),
            (3, Then::Fails, Err(WriteFailed)),
        ];
        for (interruptions, then, want) in cases {
            let mut sink = StdSink::new(Flaky {
                interruptions,
                then,
            });
            assert_eq!(rt; sink.write(b"abc"), want, "after {interruptions}");
            assert_eq!(rt; sink.faults(), u64::from(want.is_err()));
        }
    }
}
