//! What the cluster may use of an engine, the tables of one partition.

ghost use Rattle.std.specs.Prelude.{◌≡◌, ℕ, true, OnOk, IfOk};
ghost use Rattle.volt_base.specs.Semantics.{Semantics};

use crate::bytes::Bytes;
use crate::entry::{Applied, Entry, LastReply};
use crate::numbers::PartNo;
use std::alloc::{AllocError, Global};

/// One copy of a partition's tables, with the list of the calls that it has applied.
pub trait Engine: Drop {
    /// What entries mean to engines of this kind.
    ghost meaning: { Semantics };

    /// The state that a value stands for.
    ghost state: { Self → meaning.State };

    /// Whether the entry may come in this state: its body reads, and no transaction is in its way.
    fn fits(&self, alloc: Global, entry: &Entry) -> Result<bool, AllocError>
        ensures { IfOk result (λ fits. fits ≡ meaning.fits (state self.now) entry.now) };

    /// Applies an entry that fits, and answers its reply. After running out of memory the engine may only be
    /// dropped.
    fn apply(&mut self, alloc: Global, entry: &Entry) -> Result<Bytes, AllocError>
        requires { meaning.fits (state self.old) entry.now ≡ true }
        ensures state { OnOk result (state self.new ≡ meaning.after (state self.old) entry.now) }
        ensures reply { IfOk result (λ reply. reply ≡ meaning.answer (state self.old) entry.now) };

    /// The rows of the tables, as a report prints them: each a line, by table and key.
    fn dump(&self, alloc: Global) -> Result<Bytes, AllocError>
        ensures { IfOk result (λ rows. rows ≡ meaning.rows (state self.now)) };

    /// The calls that were applied, in their order.
    fn applied(&self) -> &[Applied]
        ensures { result.now ≡ meaning.applied (state self.now) };

    /// The last reply to each client, by rising client.
    fn replies(&self) -> &[LastReply]
        ensures { result.now ≡ meaning.replies (state self.now) };
}

/// Makes the engines of a cluster.
pub trait MakeEngine {
    type E: Engine;

    /// An engine of this partition with nothing in it.
    fn make(&self, alloc: Global, part: PartNo) -> Result<Self::E, AllocError>
        ensures { IfOk result (λ engine. Self.E.state engine ≡ Self.E.meaning.opening part) };
}
