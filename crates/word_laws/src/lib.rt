//! Laws of the words by which the hosts of a cluster agree on who is a member. They hold of every world
//! that is reached by any input, in any environment and over any database. Each is a function without a
//! body; the clause is the law. Begin with `PROOF.md`.
#![tactic(auto)]

ghost use Rattle.volt_base.specs.Semantics.{Semantics};
ghost use Rattle.std.specs.Prelude.{◌≡◌, ℕ, ◌==◌, nat_lt, take, true, false, []};
ghost use Rattle.volt_wire.specs.declared.actor.Actor.{Actor};
ghost use Rattle.volt_wire.specs.declared.actor.Actor.TheVariants.{Agent};
ghost use Rattle.volt_wire.specs.declared.event.Event.TheVariants as event;
ghost use Rattle.volt_wire.specs.declared.message.Msg.TheVariants as msg;
ghost use Rattle.volt_wire.specs.Word.{Membership};
ghost use Rattle.cluster_model.specs.Words.{Deployment, is_host, term_of};
ghost use Rattle.cluster_model.specs.Letters.{open_letter};
ghost use Rattle.cluster_model.specs.Environment.{Environment};
ghost use Rattle.cluster_model.specs.Events.{allows, can, step};
ghost use Rattle.cluster_model.specs.Laws.{EndsWith, left_by, starts_in};
ghost use Rattle.cluster_model.specs.World.{World, Input};
ghost use Rattle.cluster_model.specs.Runs.{Reached, RunsInEpoch};
ghost use Rattle.word_laws.specs.Chain.{HasDecided, HasWord, InEpoch, KeepsInitiator, KeepsLeaders, MembersRise, OneStartPerHost};
ghost use Rattle.word_laws.specs.Histories.{Comparable};
ghost use Rattle.word_laws.specs.Lost.{LostAreStopped};

use cluster_model::laws::AnyDatabase;

/// No start whose agent runs is lost in a word of the world: neither in one that an agent holds, nor in
/// one that travels from an agent.
pub fn lost_starts_are_stopped<B: AnyDatabase>()
    ensures { (input : Input) (w : World) → Reached B.database input w → LostAreStopped w }
{}

/// Of two words that were decided from one recovery that works to the next, one contains the other:
/// what is lost in it is lost in the other, and whom it admitted the other admitted.
pub fn decided_words_form_a_chain<B: AnyDatabase>()
    ensures { (input : Input) (v w : World) (m n : Membership)
        → Reached B.database input v → RunsInEpoch B.database v w
        → HasDecided v m → HasDecided w n → Comparable m n }
{}

/// A term names one decided word, from one recovery that works to the next.
pub fn a_term_names_one_decided_word<B: AnyDatabase>()
    ensures { (input : Input) (v w : World) (m n : Membership)
        → Reached B.database input v → RunsInEpoch B.database v w
        → HasDecided v m → HasDecided w n → term_of m ≡ term_of n → m ≡ n }
{}

/// Of each host at most one start isn't lost in a word that an agent has.
pub fn one_start_per_host<B: AnyDatabase>()
    ensures { (input : Input) (w : World) (m : Membership)
        → Reached B.database input w → HasWord w m → OneStartPerHost m }
{}

/// Of two words that were decided from one recovery that works to the next, a member of the later one
/// that the earlier one doesn't name has a greater start than each member of the earlier one that is
/// still there. So members rise by start in the order in which they were admitted, and none is passed
/// over. It holds whichever of the two is the later one.
pub fn members_rise_as_they_were_admitted<B: AnyDatabase>()
    ensures { (input : Input) (v w : World) (m n : Membership)
        → Reached B.database input v → RunsInEpoch B.database v w
        → HasDecided v m → HasDecided w n → MembersRise m n × MembersRise n m }
{}

/// Of two words that were decided from one recovery that works to the next, one within the other, the
/// later one has the initiator of the earlier one, unless its start is lost there. The same is so of
/// the leader of a partition, in any deployment: another one leads only if the start of the leader's
/// host is lost. It holds whichever of the two is the later one.
pub fn initiators_and_leaders_change_only_by_loss<B: AnyDatabase>()
    ensures initiator { (input : Input) (v w : World) (m n : Membership)
        → Reached B.database input v → RunsInEpoch B.database v w
        → HasDecided v m → HasDecided w n → KeepsInitiator m n × KeepsInitiator n m }
    ensures leaders { (input : Input) (v w : World) (m n : Membership) (D : Deployment)
        → Reached B.database input v → RunsInEpoch B.database v w
        → HasDecided v m → HasDecided w n → KeepsLeaders D m n × KeepsLeaders D n m }
{}

/// Each world has a history of the words that were said, decided and admitted since the last recovery
/// that worked, and all holds of it that laws on logs and disks ask of words: each member of a decided
/// word said it; nothing is between an admission and the first decided word that holds it; who knows an
/// initiator lost knows whom it admitted; and the rest of `HistoryOk` and `WordsHold`.
pub fn words_have_a_history<B: AnyDatabase>()
    ensures { (input : Input) (w : World) → Reached B.database input w → InEpoch w }
{}

/// An agent that stops says Closed to each other agent, with the start that it had, and nothing
/// behind it. While it is stopped it says nothing, until it takes a Start. (That an agent changes in
/// the messages that it takes alone, and in a recovery, is a law of `cluster_model`.)
pub fn a_stopped_agent_has_said_closed_last<B: AnyDatabase>()
    ensures closed { (w : World) (h g : ℕ) (from : Actor) (o : Environment)
        → nat_lt 0 (w.agents h).start ≡ true
        → ((step B.database w (event.Deliver (Agent h) from, o)).agents h).start ≡ 0
        → is_host w.deployment g ≡ true → (g == h) ≡ false
        → EndsWith (open_letter (msg.Closed (w.agents h).start))
        ((step B.database w (event.Deliver (Agent h) from, o)).channel (Agent h) (Agent g)) }
    ensures silent { (w : World) (h : ℕ) (from b : Actor) (o : Environment)
        → can w (event.Deliver (Agent h) from) ≡ true → allows w (event.Deliver (Agent h) from) o ≡ true
        → (w.agents h).start ≡ 0 → starts_in (take 1 (w.channel from (Agent h))) ≡ []
        → (step B.database w (event.Deliver (Agent h) from, o)).channel (Agent h) b
        ≡ left_by w (event.Deliver (Agent h) from) (Agent h) b }
{}
