//! Laws of what a cluster answers to calls: the replies to those on one partition, and what a partition
//! answers to the rounds and the ends of those on all partitions. They hold of every run of the whole
//! world, with any environment, any database and any input whose base term isn't 0, which would mean no term.
//! Each is a function without a body; the clause is the law.
#![tactic(auto)]

ghost use Rattle.std.specs.Prelude.{ℕ, List};
ghost use Rattle.volt_wire.specs.declared.end.End.{End};
ghost use Rattle.cluster_model.specs.Letters.{Letter};
ghost use Rattle.cluster_model.specs.World.{World, Input};
ghost use Rattle.cluster_model.specs.Runs.{Reached};
ghost use Rattle.cluster_steps.specs.Lists.{In};
ghost use Rattle.reply_laws.specs.UnderWay.{RepliesTo, AnswersRound, TellsEnd, CallStandsFirm, RoundStandsFirm, EndStandsFirm, under_way};

use cluster_model::laws::AnyDatabase;

/// A reply to a call that is under way from a site to an agent, also one that is given again, is of an
/// entry that is firm in the site's partition: the entry applies the call, and the reply is what it
/// answers there. That is what the database answers to a call on one partition behind the entries
/// before it, and what the end of a call on all partitions carries.
pub fn replies_are_of_firm_entries<B: AnyDatabase>()
    ensures { (input : Input) (w : World) (i h call : ℕ) (end : End) (l : Letter)
        → Reached B.database input w
        → In l (under_way w i h)
        → RepliesTo l call end
        → CallStandsFirm B.database w i call end }
{}

/// So is the part of a round that is under way from a site to an agent: the round stands among the firm
/// entries of the site's partition, and the part is what the database answers to it behind the entries
/// before it.
pub fn answers_of_rounds_are_of_firm_entries<B: AnyDatabase>()
    ensures { (input : Input) (w : World) (i h m round : ℕ) (partial : List ℕ) (l : Letter)
        → Reached B.database input w
        → In l (under_way w i h)
        → AnswersRound l m round partial
        → RoundStandsFirm B.database w i m round partial }
{}

/// Where a site tells an agent that a transaction has ended, an end of it stands among the firm entries of
/// the site's partition.
pub fn ends_are_of_firm_entries<B: AnyDatabase>()
    ensures { (input : Input) (w : World) (i h m : ℕ) (l : Letter)
        → Reached B.database input w
        → In l (under_way w i h)
        → TellsEnd l m
        → EndStandsFirm w i m }
{}
