use volt_base::{Bytes, CallNo, ClientNo, PartNo, Start};

/// A message from one actor to another.
#[derive(Debug, Drop)]
pub enum Msg {
    /// From a client to an agent of this start: run this call.
    Call {
        call: CallNo,
        start: Start,
        part: Option<PartNo>,
        body: Bytes,
    },
    /// From a client to the director: a call was submitted.
    Told,
    /// From an agent of this start to the leader of a partition: run this call of a client.
    SpCall {
        call: CallNo,
        start: Start,
        client: ClientNo,
        body: Bytes,
    },
    /// From a site to the agent of this start that asked: what the call answered.
    Reply {
        call: CallNo,
        start: Start,
        reply: Bytes,
    },
    /// From an agent to a client: the call ended with this reply.
    Answer {
        call: CallNo,
        reply: Bytes,
    },
}
