use crate::actor::Actor;
use crate::end::End;
use crate::stream::Stream;
use crate::word::{Admissions, Starts, Word};
use sqlite_items::Items;
use volt_base::{
    Bytes, CallNo, ClientNo, Entry, LastReply, Outcome, PartNo, Pos, SlotNo, Start, Term,
};

/// A message from one actor to another. What its receiver does with it stands in the definitions of
/// the cluster's actors, under the message's name. A scan of the engine is an `S`.
#[derive(Debug, Drop)]
pub enum Msg<S> {
    // ---- between clients, agents and the director
    /// From a client to an agent of this start: run this call, on this partition or on all.
    Call {
        call: CallNo,
        start: Start,
        part: Option<PartNo>,
        body: Bytes,
    },
    /// From a client to the director: a call was submitted.
    Told,
    /// From an agent to a client: the call ended so.
    Answer {
        call: CallNo,
        end: End,
    },
    /// From an agent of this start to clients and other agents: it stopped.
    Closed {
        start: Start,
    },
    /// From an agent of this start to clients: it takes calls.
    Opened {
        start: Start,
    },

    // ---- from the director, and within a host
    /// To any actor of a host: stop, if its start isn't above this one.
    Stop {
        start: Start,
    },
    /// To an agent, from it to its sites, and from a site to its scanner: run with this start.
    Start {
        start: Start,
    },
    /// To a site: its disk is to lose power at a call.
    Power {
        call: u64,
        choice: u64,
    },
    /// To a site: say what the copy shows.
    Look,
    /// From a site to the director: what the copy shows.
    Looked {
        position: Pos,
        rows: Bytes,
    },
    /// To the agents: take a snapshot.
    Snap,

    // ---- between agents
    /// The sender's own word, without the first hosts.
    Word {
        base: Term,
        lost: Starts,
        admitted: Admissions,
    },
    /// The sender started, and asks for the word.
    Hello {
        start: Start,
    },
    /// The word that the sender has decided.
    Decided {
        word: Word,
    },
    /// To the initiator from an agent of this start: run this call of a client on all partitions.
    MpCall {
        call: CallNo,
        start: Start,
        client: ClientNo,
        body: Bytes,
    },
    /// From the initiator to the agent that asked: the call ended so.
    MpReply {
        call: CallNo,
        end: End,
    },
    /// To the initiator: the sites of the sender's host have loaded their tables; admit this start.
    Admit {
        start: Start,
    },

    // ---- from an agent to a site
    /// From an agent of this start to the leader of a partition: run this call of a client.
    SpCall {
        call: CallNo,
        start: Start,
        client: ClientNo,
        body: Bytes,
    },
    /// To an agent's own sites: the word that it has decided, or as a joiner has taken.
    View {
        word: Word,
    },
    /// From the initiator to the leaders: a round of a multi-partition transaction.
    Frag {
        transaction: u64,
        round: u16,
        body: Bytes,
    },
    /// From the initiator to the leaders: the end of a multi-partition transaction.
    Done {
        transaction: u64,
        outcome: Outcome,
    },

    // ---- from a site to an agent
    /// To the agent of this start that asked: the call ended so.
    Reply {
        call: CallNo,
        start: Start,
        end: End,
    },
    /// To the initiator: what a partition answered in a round.
    FragDone {
        transaction: u64,
        round: u16,
        partial: Bytes,
    },
    /// To the initiator: the end of a transaction stands in a partition for good.
    Finished {
        transaction: u64,
    },
    /// To the initiator of a new term: the transaction that is open in a partition, or the last one
    /// that was done, and its last replies.
    MpState {
        transaction: u64,
        is_open: bool,
        outcome: Option<Outcome>,
        replies: Items<LastReply>,
    },
    /// To a joiner's own agent: the site has loaded its tables.
    Loaded {
        start: Start,
    },

    // ---- between the sites of a partition
    /// From a leader to a copy: the entry at this position. The copy may forget those up to the floor.
    Put {
        position: Pos,
        entry: Entry,
        floor: Pos,
    },
    /// From a copy or joiner to the leader: all up to this position is on disk.
    Ack {
        position: Pos,
    },
    /// From a copy to the leader of a new term: where its log ends, and its entries above the floor.
    Report {
        position: Pos,
        floor: Pos,
        tail: Items<Entry>,
    },
    /// From a leader to a copy that reported: the entries that it lacks, which follow this position.
    Repair {
        from: Pos,
        entries: Items<Entry>,
    },
    /// From a joiner's site of this start and slot to the leader: let me join.
    JoinAsk {
        start: Start,
        slot: SlotNo,
    },
    /// From the leader to a joiner: the tables follow.
    StreamStart {
        stream: Stream,
    },
    /// From a leader to a joiner: that many blocks were sent.
    StreamEnd {
        count: u64,
    },
    /// From a leader to a joiner: the entry at this position.
    Task {
        position: Pos,
        entry: Entry,
    },

    // ---- between a site and the scanners
    /// From a site to its scanner: read this scan out, and send its blocks to the target of this start.
    ScanStart {
        id: u64,
        target: Actor,
        start: Start,
        scan: S,
    },
    /// From a scanner to a site: one block.
    Chunk {
        id: u64,
        bytes: Bytes,
    },
    /// From a scanner to its own site: that many blocks were sent.
    ScanEnd {
        id: u64,
        count: u64,
    },
}
