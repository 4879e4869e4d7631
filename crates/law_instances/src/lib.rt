//! Each law of the cluster at a run that was worked out: the laws hold of every database and every
//! reached world, so of these. Their premises are met here, so none of them speaks of nothing.
#![tactic(auto)]

ghost use Rattle.std.specs.Prelude.{◌≡◌, ◌≤◌, ◌⊎◌, ℕ, length, take, [], ◌∷◌, Some, option_map};
ghost use Rattle.volt_base.specs.declared.entry.Entry.TheVariants.{Sp};
ghost use Rattle.volt_wire.specs.Word.{Membership};
ghost use Rattle.volt_wire.specs.declared.actor.Actor.{Actor};
ghost use Rattle.volt_wire.specs.declared.actor.Actor.TheVariants.{Agent};
ghost use Rattle.volt_wire.specs.declared.end.End.TheVariants as end;
ghost use Rattle.volt_wire.specs.declared.event.Event.TheVariants as event;
ghost use Rattle.volt_wire.specs.declared.message.Msg.TheVariants as msg;
ghost use Rattle.cluster_model.specs.Disk.{recovered};
ghost use Rattle.cluster_model.specs.Laws.{EndsWith, left_by};
ghost use Rattle.cluster_model.specs.Letters.{open_letter};
ghost use Rattle.cluster_model.specs.Recover.{shown_of};
ghost use Rattle.cluster_model.specs.Runs.{IsRun};
ghost use Rattle.cluster_model.specs.Scenarios.AskedAgainBehindRecovery as behind_recovery;
ghost use Rattle.cluster_model.specs.Scenarios.InitiatorLostBehindDone as behind_done;
ghost use Rattle.cluster_model.specs.Scenarios.LeaderLostBehindPut as behind_put;
ghost use Rattle.cluster_model.specs.Scenarios.LostAndRejoined as rejoined;
ghost use Rattle.cluster_model.specs.Toy.{toy, gives, put};
ghost use Rattle.cluster_model.specs.Words.{members, term_of, part_of_slot};
ghost use Rattle.cluster_steps.specs.Lists.{Prefix};
ghost use Rattle.word_laws.specs.Chain.{HasDecided, HasWord, InEpoch, KeepsInitiator, KeepsLeaders, MembersRise, OneStartPerHost};
ghost use Rattle.word_laws.specs.Histories.{Comparable};
ghost use Rattle.word_laws.specs.Lost.{LostAreStopped};
ghost use Rattle.log_laws.specs.Copies.{Follows, KeepsFirm, IsInAuthoritative, HasLogs, log_of};
ghost use Rattle.disk_laws.specs.Survival.{Survives, GoesOnWithFirm};
ghost use Rattle.call_laws.specs.Submissions.{IsGreatestOf, WasSubmitted};
ghost use Rattle.reply_laws.specs.UnderWay.{CallStandsFirm, RoundStandsFirm, EndStandsFirm};
ghost use Rattle.transaction_laws.specs.Answers.{AnswerIsFirm, CallIsFirm, EndIsFirm};
ghost use Rattle.transaction_laws.specs.Machine.{RiseWithin, WellFormed, first_stage, points};
ghost use Rattle.transaction_laws.specs.Worlds.{GoesOnClosed, GoesOnAlike, IsInitiator, StandsOrIsOpen, EndsAlike, AppliesOnce, ShareEnds};
ghost use Rattle.law_instances.specs.Instances.{answered, asked, asks, asks_again, ended, first_shown, given_again, heeding, heedless, joins, loaded, moved, moved_told, moves, requested, stopped, told, admits, admitted};

use call_laws::{a_pending_call_is_its_clients_greatest, requests_are_as_they_were_submitted};
use cluster_model::laws::{AnyDatabase, runs_lead_on};
use cluster_model::scenarios;
use disk_laws::{firm_entries_survive, no_choice_lacks_firm_entries};
use log_laws::{
    a_loaded_joiner_follows, copies_are_comparable, copies_follow_their_leader,
    firm_entries_are_everywhere, firm_entries_are_never_lost, later_leaders_have_what_was_firm,
    leaders_agree_with_the_authoritative_log, logs_have_a_history,
};
use reply_laws::{
    answers_of_rounds_are_of_firm_entries, ends_are_of_firm_entries, replies_are_of_firm_entries,
};
use transaction_laws::{
    a_call_ends_in_one_way, a_call_runs_once, an_applied_call_stands_or_is_open,
    answers_of_initiators_are_of_firm_entries, answers_to_clients_are_of_firm_entries,
    logs_are_well_formed, no_call_stands_twice, one_initiator_runs, points_never_fall,
    recoveries_apply_a_call_in_all_partitions, recoveries_apply_no_call_twice,
    recoveries_go_on_with_closed_logs, recoveries_run_a_call_once,
};
use word_laws::{
    a_stopped_agent_has_said_closed_last, a_term_names_one_decided_word,
    decided_words_form_a_chain, initiators_and_leaders_change_only_by_loss,
    lost_starts_are_stopped, members_rise_as_they_were_admitted, one_start_per_host,
    words_have_a_history,
};

/// The database of accounts over which scenarios are worked out. No value of it is made.
pub struct SmallDatabase;

impl AnyDatabase for SmallDatabase {
    ghost use Rattle.cluster_model.specs.Toy.{toy};

    ghost database = { toy };
}

/// Behind the loss of an initiator no start that runs is lost in a word, two words that were decided
/// at the two times are comparable, and the words have a history.
pub fn words_behind_a_loss()
    ensures lost { LostAreStopped behind_done.last }
    ensures chain { (m n : Membership) → HasDecided behind_done.start m → HasDecided behind_done.last n
        → Comparable m n }
    ensures term { (m n : Membership) → HasDecided behind_done.start m → HasDecided behind_done.last n
        → term_of m ≡ term_of n → m ≡ n }
    ensures starts { (m : Membership) → HasWord behind_done.last m → OneStartPerHost m }
    ensures history { InEpoch behind_done.last }
{
    scenarios::initiator_lost_behind_done();
    lost_starts_are_stopped::<SmallDatabase>();
    decided_words_form_a_chain::<SmallDatabase>();
    a_term_names_one_decided_word::<SmallDatabase>();
    one_start_per_host::<SmallDatabase>();
    words_have_a_history::<SmallDatabase>();
}

/// There, of the two copies of partition 2 the log of slot 5 is a prefix of that of slot 4, which leads,
/// and has all that it counts firm. What was firm in the beginning is firm still, the leader agrees
/// with the authoritative log, and the logs have a history.
pub fn logs_behind_a_loss()
    ensures follows { Prefix (log_of behind_done.last 5) (log_of behind_done.last 4) }
    ensures firm { (behind_done.last.sites 4).firm ≤ length (log_of behind_done.last 5) }
    ensures comparable { Prefix (log_of behind_done.last 5) (log_of behind_done.last 4)
        ⊎ Prefix (log_of behind_done.last 4) (log_of behind_done.last 5) }
    ensures kept { KeepsFirm behind_done.start behind_done.last 2 }
    ensures authoritative { IsInAuthoritative behind_done.last 4 }
    ensures history { HasLogs behind_done.last }
{
    scenarios::initiator_lost_behind_done();
    copies_follow_their_leader::<SmallDatabase>();
    firm_entries_are_everywhere::<SmallDatabase>();
    copies_are_comparable::<SmallDatabase>();
    firm_entries_are_never_lost::<SmallDatabase>();
    leaders_agree_with_the_authoritative_log::<SmallDatabase>();
    logs_have_a_history::<SmallDatabase>();
}

/// What was firm in the beginning survives, and were all power cut now and did each disk show the first
/// of its contents, a recovery would go on with all that is firm.
pub fn disks_behind_a_loss()
    ensures survives { Survives behind_done.start behind_done.last 2 }
    ensures goes_on { GoesOnWithFirm toy behind_done.last first_shown 2 }
{
    scenarios::initiator_lost_behind_done();
    firm_entries_survive::<SmallDatabase>();
    no_choice_lacks_firm_entries::<SmallDatabase>();
}

/// The call on all partitions that the lost initiator had decided ends alike in two partitions, and a
/// recovery would apply it in both, with logs in which nothing is open.
pub fn transactions_behind_a_loss()
    ensures alike { EndsAlike behind_done.last 1 2 }
    ensures stands { StandsOrIsOpen behind_done.last 1 2 }
    ensures recovered { GoesOnAlike toy behind_done.last first_shown 1 2 }
    ensures closed { GoesOnClosed toy behind_done.last first_shown 1 }
    ensures points { RiseWithin 0 (length behind_done.last.trace) (points (log_of behind_done.last 4)) }
    ensures formed { WellFormed (first_stage toy (part_of_slot behind_done.last.deployment 4))
        (log_of behind_done.last 4) }
    ensures initiator { (h : ℕ) → IsInitiator behind_done.last h → h ≡ 1 }
{
    scenarios::initiator_lost_behind_done();
    a_call_ends_in_one_way::<SmallDatabase>();
    an_applied_call_stands_or_is_open::<SmallDatabase>();
    recoveries_apply_a_call_in_all_partitions::<SmallDatabase>();
    recoveries_go_on_with_closed_logs::<SmallDatabase>();
    points_never_fall::<SmallDatabase>();
    logs_are_well_formed::<SmallDatabase>();
    one_initiator_runs::<SmallDatabase>();
}

/// Behind the loss of an initiator each call stands once in the log of a site, and in those of two
/// partitions by one end alone. So it is in the logs with which a recovery would go on.
pub fn calls_behind_a_loss()
    ensures once { AppliesOnce behind_done.input behind_done.last (part_of_slot behind_done.last.deployment 4)
        (log_of behind_done.last 4) }
    ensures shared { ShareEnds (behind_done.last.authoritative 1).log (behind_done.last.authoritative 2).log }
    ensures recovered { AppliesOnce behind_done.input behind_done.last 1
        (recovered toy behind_done.last.deployment (shown_of behind_done.last first_shown) 1) }
    ensures recovered_shared { ShareEnds
        (recovered toy behind_done.last.deployment (shown_of behind_done.last first_shown) 1)
        (recovered toy behind_done.last.deployment (shown_of behind_done.last first_shown) 2) }
{
    scenarios::initiator_lost_behind_done();
    no_call_stands_twice::<SmallDatabase>();
    a_call_runs_once::<SmallDatabase>();
    recoveries_apply_no_call_twice::<SmallDatabase>();
    recoveries_run_a_call_once::<SmallDatabase>();
}

/// When the leader of partition 1 has counted the first call firm, its reply is under way to the agent:
/// the call stands among the firm entries, and the reply is what the database answers to it there.
pub fn reply_under_way()
    ensures { CallStandsFirm toy answered 3 1 (end.Ok (gives 1)) }
{
    scenarios::initiator_lost_behind_done();
    runs_lead_on::<SmallDatabase>();
    replies_are_of_firm_entries::<SmallDatabase>();
}

/// The agent has that reply, and tells it to its client: the call is one of the client's on partition 1,
/// where it stands so.
pub fn answer_to_a_client()
    ensures { AnswerIsFirm toy behind_done.input told 2 1 (end.Ok (gives 1)) }
{
    scenarios::initiator_lost_behind_done();
    runs_lead_on::<SmallDatabase>();
    answers_to_clients_are_of_firm_entries::<SmallDatabase>();
}

/// An initiator has heard that the end of a call on all partitions stands for good, and its reply is under way
/// to the agent that asked: the end stands among the firm entries, with that reply. Then the agent tells
/// it to its client.
pub fn reply_of_an_initiator()
    ensures run { IsRun toy moves behind_recovery.start }
    ensures ends { EndIsFirm moved 3 (end.Ok (gives 6)) }
    ensures applied { CallIsFirm toy moved 0 3 (end.Ok (gives 6)) }
    ensures told { AnswerIsFirm toy behind_recovery.input moved_told 2 3 (end.Ok (gives 6)) }
{
    scenarios::asked_again_behind_recovery();
    runs_lead_on::<SmallDatabase>();
    answers_of_initiators_are_of_firm_entries::<SmallDatabase>();
    answers_to_clients_are_of_firm_entries::<SmallDatabase>();
}

/// A client has submitted its call, and its agent has asked the leader: the request is of that call, on
/// its partition, and no greater one was submitted.
pub fn request_under_way()
    ensures run { IsRun toy asks behind_put.start }
    ensures submitted { WasSubmitted behind_put.input requested 1 2 (Some 0) (put 1 10) }
    ensures greatest { IsGreatestOf requested 2 1 }
{
    scenarios::leader_lost_behind_put();
    requests_are_as_they_were_submitted::<SmallDatabase>();
    a_pending_call_is_its_clients_greatest::<SmallDatabase>();
}

/// A leader is lost when its call has reached the other copy. The next leader is asked again, and once
/// what it has is firm its reply is under way: the call stands among the firm entries, and the reply is
/// what the database answers to it there.
pub fn reply_given_again()
    ensures run { IsRun toy asks_again behind_put.start }
    ensures stands { CallStandsFirm toy given_again 1 1 (end.Ok (gives 1)) }
{
    scenarios::leader_lost_behind_put();
    replies_are_of_firm_entries::<SmallDatabase>();
}

/// What the leader of partition 1 counted firm then is a prefix of the log of the one that leads it
/// behind the loss, on another host and in a later term.
pub fn next_leader()
    ensures { Prefix (take (answered.sites 3).firm (log_of answered 3)) (log_of behind_done.last 2) }
{
    scenarios::initiator_lost_behind_done();
    runs_lead_on::<SmallDatabase>();
    later_leaders_have_what_was_firm::<SmallDatabase>();
}

/// The site of a host that came back has loaded its tables: it has the entry of the leader's log, which is
/// firm.
pub fn loaded_joiner()
    ensures run { IsRun toy joins rejoined.start }
    ensures follows { Follows loaded 0 1 }
    ensures log { log_of loaded 0 ≡ Sp 1 2 4 (put 1 10) ∷ [] }
{
    scenarios::lost_and_rejoined();
    a_loaded_joiner_follows::<SmallDatabase>();
}

/// The host that came back is admitted: it stands behind the one that stayed. Words that were decided
/// at the two times agree on the order of their members, on the initiator and on the leaders.
pub fn admitted_host()
    ensures run { IsRun toy admits loaded }
    ensures members { option_map members (admitted.agents 1).decided ≡ Some ((1, 2) ∷ (0, 3) ∷ []) }
    ensures rises { (m n : Membership) → HasDecided loaded m → HasDecided admitted n
        → MembersRise m n × MembersRise n m }
    ensures initiator { (m n : Membership) → HasDecided loaded m → HasDecided admitted n
        → KeepsInitiator m n × KeepsInitiator n m }
    ensures leaders { (m n : Membership) → HasDecided loaded m → HasDecided admitted n
        → KeepsLeaders admitted.deployment m n × KeepsLeaders admitted.deployment n m }
{
    scenarios::lost_and_rejoined();
    members_rise_as_they_were_admitted::<SmallDatabase>();
    initiators_and_leaders_change_only_by_loss::<SmallDatabase>();
}

/// When the first round of the call on all partitions is firm in partition 1, its part is under way to the
/// initiator: the round stands among the firm entries, and the part is the balance that the database
/// answers to it there.
pub fn part_of_a_round_under_way()
    ensures { RoundStandsFirm toy asked 3 1 1 (10 ∷ []) }
{
    scenarios::initiator_lost_behind_done();
    runs_lead_on::<SmallDatabase>();
    answers_of_rounds_are_of_firm_entries::<SmallDatabase>();
}

/// When the next initiator's end of it is firm in partition 0, slot 1 tells that: an end of the
/// transaction stands among the firm entries.
pub fn end_under_way()
    ensures { EndStandsFirm ended 1 1 }
{
    scenarios::initiator_lost_behind_done();
    runs_lead_on::<SmallDatabase>();
    ends_are_of_firm_entries::<SmallDatabase>();
}

/// The agent of host 0, which takes its Stop, says to agent 2 last that its start is closed. A word that
/// comes to it then has it say nothing.
pub fn stopped_agent()
    ensures closed { EndsWith (open_letter (msg.Closed 1)) (stopped.channel (Agent 0) (Agent 2)) }
    ensures silent { (b : Actor) → heedless.channel (Agent 0) b
        ≡ left_by heeding (event.Deliver (Agent 0) (Agent 1)) (Agent 0) b }
{
    a_stopped_agent_has_said_closed_last::<SmallDatabase>();
}
