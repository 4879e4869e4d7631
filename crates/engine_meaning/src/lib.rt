//! What the engine of a partition over SQL does with the entries of its log, and how a call on all
//! partitions goes on. Begin with `specs/State.antt` and `specs/Entries.antt`. The laws say that engines
//! and coordinators do what calls mean; each is a function without a body, and the clause is the law.
#![tactic(auto)]

ghost use Rattle.std.specs.Prelude.{◌≡◌, ◌<◌, ℕ, true, List, [], None};
ghost use Rattle.sql_plan.specs.declared.plan.Plan.{Plan};
ghost use Rattle.sql_plan.specs.declared.reply.ProcReply.{ProcReply};
ghost use Rattle.sql_meaning.specs.Calls.{Call, part_of_call};
ghost use Rattle.sql_meaning.specs.Database.{Database, IsDatabase};
ghost use Rattle.sql_meaning.specs.Plans.{IsPlan};
ghost use Rattle.sql_wire.specs.Bodies.{call_bytes};
ghost use Rattle.sql_wire.specs.Spelled.{CallFits};
ghost use Rattle.engine_meaning.specs.Bodies.{body_of};
ghost use Rattle.engine_meaning.specs.State.{SqlState};
ghost use Rattle.engine_meaning.specs.Entries.{is_call_here};
ghost use Rattle.engine_meaning.specs.Coordinator.{asks, as_step, next};
ghost use Rattle.engine_meaning.specs.Rounds.{IsCalled, HaveShares, Runs, IsCarriedOut};

/// The entry of a call of a procedure that runs on this partition fits while nothing is open. The share
/// changes as the call means, its reply is answered, and it is noted as applied.
pub fn calls_on_one_partition_are_carried_out()
    ensures { (plan : Plan) (s : SqlState) (call client point : ℕ) (c : Call) → CallFits (body_of c)
        → s.under_way ≡ None → is_call_here plan s.part c ≡ true → IsCalled plan s call client point c }
{}

/// A coordinator reads a call as it was spelled.
pub fn coordinators_read_their_call()
    ensures { (plan : Plan) (c : Call) (fed : List (List (List ℕ))) → CallFits (body_of c)
        → asks plan (call_bytes (body_of c)) fed ≡ as_step (next plan c fed) }
{}

/// A call on all partitions that engines and a coordinator carry out, round after round, is answered as it
/// means on the whole database; and behind its end each partition has its share of what it leaves.
pub fn calls_in_rounds_end_as_they_mean()
    ensures { (plan : Plan) (db : Database) (c : Call) (transaction : ℕ) (states last : ℕ → SqlState)
        (answer : ProcReply) → IsPlan plan → IsDatabase plan.catalog db → part_of_call plan c ≡ None
        → HaveShares plan db states → Runs plan c transaction [] states last answer
        → IsCarriedOut plan db c transaction last answer }
{}
