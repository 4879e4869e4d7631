//! Laws of the transactions of a cluster, calls on all partitions and snapshots, of the order in which
//! entries stand in logs, that a call runs once, and that what agents tell of calls is of entries that
//! are firm. They hold of every world that is reached, with any environment, any database, and any input
//! whose layout isn't refused and whose base term isn't 0, which would mean no term. Each is a function
//! without a body; the clause is the law.
#![tactic(auto)]

ghost use Rattle.std.specs.Prelude.{ℕ, ◌≡◌, List, length};
ghost use Rattle.volt_wire.specs.declared.end.End.{End};
ghost use Rattle.cluster_model.specs.Letters.{Letter};
ghost use Rattle.cluster_steps.specs.Lists.{In};
ghost use Rattle.cluster_model.specs.Words.{part_of_slot};
ghost use Rattle.cluster_model.specs.Disk.{recovered};
ghost use Rattle.cluster_model.specs.Recover.{shown_of};
ghost use Rattle.cluster_model.specs.World.{World, Input};
ghost use Rattle.cluster_model.specs.Runs.{Reached};
ghost use Rattle.log_laws.specs.Copies.{log_of};
ghost use Rattle.disk_laws.specs.Survival.{MayShow};
ghost use Rattle.transaction_laws.specs.Machine.{WellFormed, RiseWithin, first_stage, points};
ghost use Rattle.transaction_laws.specs.Answers.{AnswerIsFirm, AnswersClient, CallIsFirm, EndIsFirm, RepliesToAgent, to_agent, to_client};
ghost use Rattle.transaction_laws.specs.Worlds.{IsSlotOf, IsPartOf, IsInitiator, GoesOnClosed, GoesOnAlike, StandsOrIsOpen, EndsAlike, AppliesOnce, ShareEnds};

use cluster_model::laws::AnyDatabase;

/// The points of the calls that a site's log applies never fall, and each is the stamp of an event that
/// has happened.
pub fn points_never_fall<B: AnyDatabase>()
    ensures { (input : Input) (w : World) (i : ℕ)
        → Reached B.database input w
        → IsSlotOf w i
        → RiseWithin 0 (length w.trace) (points (log_of w i)) }
{}

/// In the log of a site each entry fits behind those before it. A call on one partition runs where no
/// transaction is open. A transaction begins with its first round and a number above all before it, its
/// rounds come in order, and its end is that of the one that is open. So it is at a stale leader, at a
/// copy and at a joiner too, and behind any number of losses and recoveries.
pub fn logs_are_well_formed<B: AnyDatabase>()
    ensures { (input : Input) (w : World) (i : ℕ)
        → Reached B.database input w
        → IsSlotOf w i
        → WellFormed (first_stage B.database (part_of_slot w.deployment i))
        (log_of w i) }
{}

/// Were all power cut now, whichever of the contents that each disk may show it then shows: the log
/// with which a recovery goes on in a partition is well formed, its points don't fall, and no transaction
/// is open in it.
pub fn recoveries_go_on_with_closed_logs<B: AnyDatabase>()
    ensures { (input : Input) (w : World) (shown : List ℕ) (p : ℕ)
        → Reached B.database input w
        → MayShow w shown
        → IsPartOf w p
        → GoesOnClosed B.database w shown p }
{}

/// Were all power cut now, whichever of the contents that each disk may show it then shows: a recovery
/// applies a call on all partitions in each of them, or in none. An end that keeps or aborts such a call
/// in the log with which it goes on in one partition stands in that of each other one too, with the same
/// point.
pub fn recoveries_apply_a_call_in_all_partitions<B: AnyDatabase>()
    ensures { (input : Input) (w : World) (shown : List ℕ) (p q : ℕ)
        → Reached B.database input w
        → MayShow w shown
        → IsPartOf w p
        → IsPartOf w q
        → GoesOnAlike B.database w shown p q }
{}

/// Where an end that keeps or aborts a call on all partitions stands in the log of a partition's leader of
/// the greatest term, the same end stands in that of each other partition, or its transaction is still
/// open there.
pub fn an_applied_call_stands_or_is_open<B: AnyDatabase>()
    ensures { (input : Input) (w : World) (p q : ℕ)
        → Reached B.database input w
        → IsPartOf w p
        → IsPartOf w q
        → StandsOrIsOpen w p q }
{}

/// A call on all partitions that is kept or aborted ends in one way. Where such an end stands in the log
/// of a partition's leader of the greatest term, no other end of its number stands in that of any
/// partition.
pub fn a_call_ends_in_one_way<B: AnyDatabase>()
    ensures { (input : Input) (w : World) (p q : ℕ)
        → Reached B.database input w
        → IsPartOf w p
        → IsPartOf w q
        → EndsAlike w p q }
{}

/// Of all agents that run one at most is the initiator of the word that it has decided.
pub fn one_initiator_runs<B: AnyDatabase>()
    ensures { (input : Input) (w : World) (h g : ℕ)
        → Reached B.database input w
        → IsInitiator w h
        → IsInitiator w g
        → h ≡ g }
{}

/// No call is applied twice in the log of a site, however often its client or agents ask for it. Each that
/// is applied is as it was submitted: the input has it, with that client and body, on the partition of the
/// site or on all, and its point is above the event at which its client submitted it first.
pub fn no_call_stands_twice<B: AnyDatabase>()
    ensures { (input : Input) (w : World) (i : ℕ)
        → Reached B.database input w
        → IsSlotOf w i
        → AppliesOnce input w (part_of_slot w.deployment i) (log_of w i) }
{}

/// A call that is applied in the logs of two partitions' leaders of the greatest terms is one on all
/// partitions, and both logs apply it by the same end: of one transaction, with one outcome and point.
pub fn a_call_runs_once<B: AnyDatabase>()
    ensures { (input : Input) (w : World) (p q : ℕ)
        → Reached B.database input w
        → IsPartOf w p
        → IsPartOf w q
        → (p ≡ q → ⊥)
        → ShareEnds (w.authoritative p).log (w.authoritative q).log }
{}

/// Were all power cut now, whichever of the contents that each disk may show it then shows: the log with
/// which a recovery goes on in a partition applies no call twice, and each as it was submitted.
pub fn recoveries_apply_no_call_twice<B: AnyDatabase>()
    ensures { (input : Input) (w : World) (shown : List ℕ) (p : ℕ)
        → Reached B.database input w
        → MayShow w shown
        → IsPartOf w p
        → AppliesOnce input w p (recovered B.database w.deployment (shown_of w shown) p) }
{}

/// Were all power cut now, whichever of the contents that each disk may show it then shows: a call that is
/// applied in the logs with which a recovery goes on in two partitions is one on all partitions, and both
/// logs apply it by the same end.
pub fn recoveries_run_a_call_once<B: AnyDatabase>()
    ensures { (input : Input) (w : World) (shown : List ℕ) (p q : ℕ)
        → Reached B.database input w
        → MayShow w shown
        → IsPartOf w p
        → IsPartOf w q
        → (p ≡ q → ⊥)
        → ShareEnds (recovered B.database w.deployment (shown_of w shown) p) (recovered B.database w.deployment (shown_of w shown) q) }
{}

/// A reply to a call on all partitions that is under way from an initiator to the agent that asked, also one
/// that is given again, is of an entry that is firm. One end of a transaction, with one outcome and
/// number, stands among the firm entries of every partition: it applies the call, and the reply is the
/// one that it carries. So in each partition the call is answered so.
pub fn answers_of_initiators_are_of_firm_entries<B: AnyDatabase>()
    ensures ends { (input : Input) (w : World) (h g call : ℕ) (end : End) (l : Letter)
        → Reached B.database input w
        → In l (to_agent w h g)
        → RepliesToAgent l call end
        → EndIsFirm w call end }
    ensures applied { (input : Input) (w : World) (h g call : ℕ) (end : End) (l : Letter) (p : ℕ)
        → Reached B.database input w
        → In l (to_agent w h g)
        → RepliesToAgent l call end
        → IsPartOf w p
        → CallIsFirm B.database w p call end }
{}

/// An answer that is under way from an agent to a client is to a call of that client, and of an entry that
/// is firm. Of a call on one partition the entry stands among the firm ones of that partition, with its
/// client and body, and the answer is what the database answers behind the entries before it. Of a call
/// on all partitions it is the reply that an end carries which stands among the firm entries of every one.
/// The one other answer is that a partition is down; that a call is lost no agent says.
pub fn answers_to_clients_are_of_firm_entries<B: AnyDatabase>()
    ensures { (input : Input) (w : World) (h n call : ℕ) (end : End) (l : Letter)
        → Reached B.database input w
        → In l (to_client w h n)
        → AnswersClient l call end
        → AnswerIsFirm B.database input w n call end }
{}
