//! Scenarios of the whole world, evaluated on its definitions with the database of the example.
//! Each is a function without a body; its clauses say what happens and what the report shows.

ghost use Rattle.std.specs.Prelude.{◌≡◌, true, false, [], ◌∷◌, map, Some, None};
ghost use Rattle.volt_wire.specs.declared.actor.Actor.TheVariants.{Agent, Client, Site};
ghost use Rattle.volt_wire.specs.declared.event.Event.TheVariants.{Deliver};
ghost use Rattle.cluster_model.specs.World.{IsInput};
ghost use Rattle.cluster_model.specs.Runs.{IsRun, may_happen, run};
ghost use Rattle.cluster_model.specs.Events.{can, is_stopped, may_recover};
ghost use Rattle.cluster_model.specs.Sync.{parts_of_sync};
ghost use Rattle.cluster_model.specs.Toy.{toy};
ghost use Rattle.cluster_model.specs.Scenarios.{outline, stampless};
ghost use Rattle.cluster_model.specs.Scenarios.PutAndGet as put_and_get;
ghost use Rattle.cluster_model.specs.Scenarios.BelowZero as below_zero;
ghost use Rattle.cluster_model.specs.Scenarios.LeaderLostBehindPut as behind_put;
ghost use Rattle.cluster_model.specs.Scenarios.LeaderLostBeforePut as before_put;
ghost use Rattle.cluster_model.specs.Scenarios.InitiatorLostBehindDone as behind_done;
ghost use Rattle.cluster_model.specs.Scenarios.InitiatorLostBeforeDecision as before_decision;
ghost use Rattle.cluster_model.specs.Scenarios.PowerCut as power_cut;
ghost use Rattle.cluster_model.specs.Scenarios.MarkBeforeLength as mark;
ghost use Rattle.cluster_model.specs.Scenarios.LostAndRejoined as rejoined;
ghost use Rattle.cluster_model.specs.Scenarios.PartitionDown as down;
ghost use Rattle.cluster_model.specs.Scenarios.StreamOfAnOldTerm as stale;
ghost use Rattle.cluster_model.specs.Scenarios.JoinerHearsOfALoss as joiner;
ghost use Rattle.cluster_model.specs.Scenarios.StopOvertakesStart as overtaken;
ghost use Rattle.cluster_model.specs.Scenarios.SecondJoinerOfASlot as second;
ghost use Rattle.cluster_model.specs.Scenarios.StartBelowTheInitiators as below;
ghost use Rattle.cluster_model.specs.Scenarios.StartBelowAMembers as below_member;
ghost use Rattle.cluster_model.specs.Scenarios.ClientsAgentCloses as agent_closes;
ghost use Rattle.cluster_model.specs.Scenarios.AskedTwice as twice;
ghost use Rattle.cluster_model.specs.Scenarios.LateRequest as late;
ghost use Rattle.cluster_model.specs.Scenarios.LostCallRunsLater as lost_call;
ghost use Rattle.cluster_model.specs.Scenarios.AskedAgainBehindRecovery as behind_recovery;
ghost use Rattle.cluster_model.specs.Scenarios.SnapshotBeforeACall as snapshot;
ghost use Rattle.cluster_model.specs.Scenarios.RecoveryFailsAsItWrites as fails_writing;
ghost use Rattle.cluster_model.specs.Scenarios.CancelledJoin as cancelled;
ghost use Rattle.cluster_model.specs.Scenarios.StreamFails as stream;
ghost use Rattle.cluster_model.specs.Scenarios.OutOfMemory as memory;

/// One host: a call puts an account, and the next one reads it.
pub fn put_and_get()
    ensures input { IsInput put_and_get.input }
    ensures events { put_and_get.last.trace ≡ put_and_get.events }
    ensures shown { outline put_and_get.last ≡ put_and_get.shown }
{}

/// An agent has nothing to take before a client submitted a call.
pub fn nothing_to_deliver()
    ensures { can put_and_get.start (Deliver (Agent 0) (Client 1)) ≡ false }
{}

/// One host: a call that would take away more than there is aborts, and stands in the serial list.
pub fn below_zero()
    ensures input { IsInput below_zero.input }
    ensures shown { outline below_zero.last ≡ below_zero.shown }
{}

/// Two hosts with a copy each: the leader is lost when the call has reached the copy. It is asked
/// again, and answered by the last reply that the copy has for its client.
pub fn leader_lost_behind_put()
    ensures input { IsInput behind_put.input }
    ensures given { IsRun toy behind_put.given_run behind_put.start }
    ensures events { behind_put.last.trace ≡ behind_put.events }
    ensures shown { outline behind_put.last ≡ behind_put.shown }
{}

/// The same, where what the leader sent to the copy comes in a later term. The call is asked again,
/// and runs there.
pub fn leader_lost_before_put()
    ensures input { IsInput before_put.input }
    ensures given { IsRun toy before_put.given_run before_put.start }
    ensures events { before_put.last.trace ≡ before_put.events }
    ensures shown { outline before_put.last ≡ before_put.shown }
{}

/// A call on three partitions whose initiator is lost when its decision has reached one leader. The
/// next initiator hears of it, the call is applied in all partitions, and answered.
pub fn initiator_lost_behind_done()
    ensures input { IsInput behind_done.input }
    ensures run { IsRun toy behind_done.events behind_done.start }
    ensures shown { stampless (outline behind_done.last) ≡ behind_done.shown }
{}

/// The same, where the initiator is lost before it decides. The next initiator drops the transaction,
/// and runs the call, which is asked again, with a number of its own.
pub fn initiator_lost_before_decision()
    ensures input { IsInput before_decision.input }
    ensures run { IsRun toy before_decision.events before_decision.start }
    ensures shown { stampless (outline before_decision.last) ≡ before_decision.shown }
{}

/// A disk loses power inside the batch of a call. It shows the batch or not, and the recovery goes
/// on with what it shows.
pub fn power_cut()
    ensures input { IsInput power_cut.input }
    ensures contents { (power_cut.cut.sites 0).contents ≡ power_cut.contents }
    ensures cut { may_happen power_cut.applied power_cut.failing ≡ true }
    ensures recovery { IsRun toy (power_cut.recovery 1) power_cut.cut }
    ensures other_recovery { IsRun toy (power_cut.recovery 0) power_cut.cut }
    ensures events { (power_cut.last 1).trace ≡ power_cut.events }
    ensures with_batch { outline (power_cut.last 1) ≡ power_cut.with_batch }
    ensures without_batch { outline (power_cut.last 0) ≡ power_cut.without_batch }
{}

/// A leader whose disk alone has an entry sends no reply. It is lost, and the call is asked again of
/// the other copy. Of the two disks, which have the call at two points, that with the later mark is
/// chosen in a recovery.
pub fn mark_before_length()
    ensures input { IsInput mark.input }
    ensures given { IsRun toy mark.given_run mark.start }
    // The leader's disk has the entry and the copy's hasn't: the leader has sent no reply.
    ensures unanswered { can (run toy mark.given_run mark.start) (Deliver (Agent 1) (Site 0)) ≡ false }
    ensures stopped { may_recover mark.stopped ≡ true }
    ensures contents { map (λ i. (mark.stopped.sites i).contents) (0 ∷ 1 ∷ []) ≡ mark.contents }
    ensures shown { outline mark.last ≡ mark.shown }
{}

/// A host is lost and comes back while calls are served: it has a new start, and its copy is the
/// leader's.
pub fn lost_and_rejoined()
    ensures input { IsInput rejoined.input }
    ensures shown { stampless (outline rejoined.last) ≡ rejoined.shown }
    ensures start { (rejoined.last.agents 0).start ≡ 3 }
    // When it runs again its disk still shows what it showed when it stopped.
    ensures kept { (rejoined.joining.sites 0).contents ≡ rejoined.contents }
{}

/// A host without spare copies is lost: a call is answered that its partition is down, and all hosts
/// are recovered.
pub fn partition_down()
    ensures input { IsInput down.input }
    ensures shown { stampless (outline down.last) ≡ down.shown }
{}

/// A leader of an old term, whose host is lost, streams its tables to a joiner whose disk alone has
/// the newest entry. The joiner doesn't take the stream, and its disk stays as it is.
pub fn stream_of_an_old_term()
    ensures input { IsInput stale.input }
    ensures run { IsRun toy stale.events stale.start }
    ensures kept { (stale.last.sites 1).contents ≡ stale.contents }
{}

/// A joiner hears that the initiator is lost before the members do. It doesn't tell them: no message
/// of it is under way to the others.
pub fn joiner_hears_of_a_loss()
    ensures input { IsInput joiner.input }
    ensures run { IsRun toy joiner.events joiner.start }
    ensures silent { map (λ h. can joiner.last (Deliver (Agent h) (Agent 5))) (1 ∷ 2 ∷ 4 ∷ [])
        ≡ false ∷ false ∷ false ∷ [] }
{}

/// A second Stop reaches a site before the Start that was sent between the two. The site stays
/// stopped.
pub fn stop_overtakes_start()
    ensures input { IsInput overtaken.input }
    ensures run { IsRun toy overtaken.events overtaken.start }
    ensures stopped { (overtaken.last.sites 0).start ≡ 0 }
{}

/// A slot asks a leader of an old term to join a second time. Its first start was admitted, and led a
/// later term without the call that this leader has. The leader still counts the first joiner, and so
/// doesn't answer the call.
pub fn second_joiner_of_a_slot()
    ensures input { IsInput second.input }
    ensures run { IsRun toy second.events second.start }
    ensures counted { map (λ j. j.start) (second.last.sites 0).joiners ≡ 5 ∷ [] }
    ensures unanswered { can second.last (Deliver (Agent 2) (Site 0)) ≡ false }
    ensures contents { map (λ i. (second.last.sites i).contents) (0 ∷ 1 ∷ []) ≡ second.contents }
    ensures authoritative { second.last.authoritative 0 ≡ second.authoritative }
{}

/// A start that was drawn before that of the initiator comes to its host late. It would be the
/// initiator in the place of one that runs, so its host stops when it hears of that one.
pub fn start_below_the_initiators()
    ensures input { IsInput below.input }
    ensures run { IsRun toy below.events below.start }
    ensures comes { (below.joining.agents 1).start ≡ 4 }
    ensures initiator { below.initiator_of (below.joining.agents 2).decided ≡ Some (2, 5) }
    ensures heard { IsRun toy below.heard below.joining }
    ensures stops { (below.last.agents 1).start ≡ 0 }
{}

/// A start that was drawn before that of a member comes to its host late, where the initiator is
/// another one. Its host stops when it hears of that member, and joins with its next start.
pub fn start_below_a_members()
    ensures input { IsInput below_member.input }
    ensures run { IsRun toy below_member.events below_member.start }
    ensures initiator { below.initiator_of (below_member.passed_over.agents 2).decided ≡ Some (0, 1) }
    ensures stops { (below_member.passed_over.agents 1).start ≡ 0 }
    ensures starts { map (λ h. (below_member.last.agents h).start) (0 ∷ 1 ∷ 2 ∷ []) ≡ 1 ∷ 6 ∷ 5 ∷ [] }
    ensures shown { stampless (outline below_member.last) ≡ below_member.shown }
{}

/// A client's agent closes while its call is pending there. The client asks the next agent, and is
/// answered by the last reply that the copy has for it.
pub fn clients_agent_closes()
    ensures input { IsInput agent_closes.input }
    ensures run { IsRun toy agent_closes.events agent_closes.start }
    ensures shown { outline agent_closes.last ≡ agent_closes.shown }
{}

/// Two agents ask a leader for one call, the second one while the first one's entry isn't firm. The
/// leader appends one entry, holds a reply for each, and sends neither before the entry is firm.
pub fn asked_twice()
    ensures input { IsInput twice.input }
    ensures run { IsRun toy twice.events twice.start }
    ensures held { map (λ d. d.to) (twice.asked.sites 0).held ≡ twice.askers }
    ensures unanswered { can twice.asked (Deliver (Agent 0) (Site 0)) ≡ false }
    ensures shown { outline twice.last ≡ twice.shown }
{}

/// A request for a call comes to the leader when a later call of its client has run. It is dropped.
pub fn late_request()
    ensures input { IsInput late.input }
    ensures run { IsRun toy late.events late.start }
    ensures shown { outline late.last ≡ late.shown }
{}

/// A client loses a call that an initiator has yet to run, of which it doesn't know. It hears of that,
/// and its next call runs there before the lost one. So a client's calls needn't stand in their order.
pub fn lost_call_runs_later()
    ensures input { IsInput lost_call.input }
    ensures run { IsRun toy lost_call.events lost_call.start }
    ensures shown { outline lost_call.last ≡ lost_call.shown }
{}

/// A call on all partitions is decided and not answered when all is recovered. It is asked again, and
/// the new initiator answers it by the last replies of the logs that were recovered.
pub fn asked_again_behind_recovery()
    ensures input { IsInput behind_recovery.input }
    ensures run { IsRun toy behind_recovery.events behind_recovery.start }
    ensures shown { stampless (outline behind_recovery.last) ≡ behind_recovery.shown }
{}

/// A snapshot begins while a call comes behind it. Each copy splits its batch there, scans its tables,
/// and writes a base that has the snapshot and not the call, which stands beside it.
pub fn snapshot_before_a_call()
    ensures input { IsInput snapshot.input }
    ensures run { IsRun toy snapshot.events snapshot.start }
    ensures split { parts_of_sync (snapshot.begins_base.sites 0) None ≡ snapshot.split }
    ensures contents { map (λ i. (snapshot.last.sites i).contents) (0 ∷ 1 ∷ []) ≡ snapshot.contents ∷ snapshot.contents ∷ [] }
    ensures shown { outline snapshot.last ≡ snapshot.shown }
{}

/// A recovery fails as it writes the base of the second disk, and all stays stopped. The first disk
/// has the new base by then. The next recovery goes on with the same log, and the call in it, which
/// was on one disk alone, is answered when it is asked again.
pub fn recovery_fails_as_it_writes()
    ensures input { IsInput fails_writing.input }
    ensures run { IsRun toy fails_writing.events fails_writing.start }
    ensures stopped { is_stopped fails_writing.failed ≡ true }
    ensures contents { map (λ i. (fails_writing.failed.sites i).contents) (0 ∷ 1 ∷ []) ≡ fails_writing.contents }
    ensures shown { outline fails_writing.last ≡ fails_writing.shown }
{}

/// A host is lost while another one joins. The word without it doesn't admit the joiner, whose disk
/// is wiped by then: its host stops, and joins with its next start.
pub fn cancelled_join()
    ensures input { IsInput cancelled.input }
    ensures run { IsRun toy cancelled.events cancelled.start }
    ensures stops { (cancelled.stopped.agents 1).start ≡ 0 }
    ensures blank { (cancelled.stopped.sites 1).contents ≡ None ∷ [] }
    ensures shown { stampless (outline cancelled.last) ≡ cancelled.shown }
{}

/// The disk of a joiner fails as it is wiped for a stream. It shows what it showed or nothing, and its
/// host stops. The others serve, and the host joins with its next start.
pub fn stream_fails()
    ensures input { IsInput stream.input }
    ensures run { IsRun toy stream.events stream.start }
    ensures contents { (stream.failed.sites 1).contents ≡ stream.contents }
    ensures stops { stream.last.stops ≡ stream.stops }
    ensures shown { stampless (outline stream.last) ≡ stream.shown }
{}

/// A leader finds no memory for a call, and its host stops. The call is asked again of the other one.
pub fn out_of_memory()
    ensures input { IsInput memory.input }
    ensures run { IsRun toy memory.events memory.start }
    ensures stops { memory.last.stops ≡ memory.stops }
    ensures shown { outline memory.last ≡ memory.shown }
{}
