//! Laws of the calls of a cluster, as clients submit them. They hold of every world that is reached by
//! any input, in any environment and over any database. Each is a function without a body; the clause is
//! the law. Begin with `PROOF.md`.
#![tactic(auto)]

ghost use Rattle.std.specs.Prelude.{ℕ, ◌≡◌, Some};
ghost use Rattle.cluster_model.specs.Client.{Submitted};
ghost use Rattle.cluster_model.specs.World.{World, Input};
ghost use Rattle.cluster_model.specs.Runs.{Reached};
ghost use Rattle.call_laws.specs.Submissions.{RequestsAreSubmitted, IsGreatestOf};

use cluster_model::laws::AnyDatabase;

/// Each request under way is of a call that was submitted, as the input has it: by its client, on its
/// partition or on all, and with its body. So it is however often a call is asked again.
pub fn requests_are_as_they_were_submitted<B: AnyDatabase>()
    ensures { (input : Input) (w : World) → Reached B.database input w → RequestsAreSubmitted input w }
{}

/// A call that is pending is the greatest that its client has submitted. So no request of a greater one
/// is under way.
pub fn a_pending_call_is_its_clients_greatest<B: AnyDatabase>()
    ensures { (input : Input) (w : World) (n : ℕ) (p : Submitted)
        → Reached B.database input w
        → (w.clients n).pending ≡ Some p
        → IsGreatestOf w n p.due.call }
{}
