//! Where bytes come from.
ghost use Rattle.std.specs.Prelude.{◌≡◌, ◌==◌, ◌<◌, ◌≤◌, ◌↔◌, [], length, take, Some, codes, IfOk, IfSome, OnErr};
ghost use Rattle.volt_base.specs.Faults.{Increased};
ghost use Rattle.volt_io.specs.States.{SourceState, SourceGives};

use std::error::Error;
use std::fmt;

/// A read failed. Which call it was and why is left to the source.
#[derive(Clone, Copy, Debug, PartialEq, Eq)]
pub struct ReadFailed;

impl fmt::Display for ReadFailed {
    ghost output = { λ _. Some (codes "the source failed") };

    fn fmt<W: fmt::Write>(&self, f: &mut fmt::Formatter<W>) -> fmt::Result {
        write!(f, "the source failed")
    }
}

impl Error for ReadFailed {}

/// Where bytes come from, and how often it failed to give them.
///
/// Of each source it is known what its reads gave. One that knows its bytes tells besides what is
/// left of them (`rest`), and one that doesn't tells nothing of that. Each source counts its faults,
/// and a read fails only where that count increased. A count that stands at the greatest `u64` is
/// taken as increased, since it can't increase further.
pub trait Source {
    /// What is seen of the source.
    ghost state: { Self → SourceState };

    /// SourceGives the next bytes to the beginning of `into` and says how many they are. What stands in
    /// `into` behind them is free.
    fn read(&mut self, into: &mut [u8]) -> Result<usize, ReadFailed>
        requires { 0 < length into.old }

        // The bytes that were given.
        ensures within { IfOk result (λ n. n ≤ length into.new) }
        ensures gives { IfOk result (λ n. SourceGives (state self.old) (state self.new) (take n into.new)) }
        ensures ends { IfOk result (λ n. (state self.new).ended ≡ (n == 0)) }
        ensures told_end { IfOk result (λ n. IfSome (state self.old).rest
            (λ left. (n ≡ 0) ↔ (left ≡ []))) }

        // A failure.
        ensures kept { OnErr result (SourceGives (state self.old) (state self.new) []) }
        ensures increases { OnErr result (Increased (state self.old).faults (state self.new).faults) }
        ensures never_falls { (state self.old).faults ≤ (state self.new).faults };

    /// How many faults there were so far.
    fn faults(&self) -> u64
        ensures { result ≡ (state self.now).faults };
}
