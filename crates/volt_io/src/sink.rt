//! Where bytes go.
ghost use Rattle.std.specs.Prelude.{◌≡◌, ◌<◌, ◌≤◌, length, take, Some, codes, IfOk, OnErr};
ghost use Rattle.volt_base.specs.Faults.{Increased};
ghost use Rattle.volt_io.specs.States.{SinkState, SinkTakes};

use std::error::Error;
use std::fmt;

/// A write failed. Which call it was and why is left to the sink.
#[derive(Clone, Copy, Debug, PartialEq, Eq)]
pub struct WriteFailed;

impl fmt::Display for WriteFailed {
    ghost output = { λ _. Some (codes "the sink failed") };

    fn fmt<W: fmt::Write>(&self, f: &mut fmt::Formatter<W>) -> fmt::Result {
        write!(f, "the sink failed")
    }
}

impl Error for WriteFailed {}

/// Where bytes go, and how often it failed to take them.
///
/// Of each sink it is known what it took. Each sink counts its faults, and a write fails only where
/// that count increased. A count that stands at the greatest `u64` is taken as increased, since it
/// can't increase further.
pub trait Sink {
    /// What is seen of the sink.
    ghost state: { Self → SinkState };

    /// SinkTakes bytes from the beginning of `piece`, at least one, and says how many.
    fn write(&mut self, piece: &[u8]) -> Result<usize, WriteFailed>
        requires { 0 < length piece.now }

        // The bytes that were taken.
        ensures some { IfOk result (λ n. 0 < n) }
        ensures within { IfOk result (λ n. n ≤ length piece.now) }
        ensures takes { IfOk result (λ n. SinkTakes (state self.old) (state self.new) (take n piece.now)) }

        // A failure.
        ensures kept { OnErr result ((state self.new).taken ≡ (state self.old).taken) }
        ensures increases { OnErr result (Increased (state self.old).faults (state self.new).faults) }
        ensures never_falls { (state self.old).faults ≤ (state self.new).faults };

    /// How many faults there were so far.
    fn faults(&self) -> u64
        ensures { result ≡ (state self.now).faults };
}
