ghost use Rattle.std.specs.Prelude.{◌≡◌, ◌<◌, [], Some, None, remove, length, slice_index_or, OnOk, IfSome, IfNone};
ghost use Rattle.one_host_model.specs.declared.state.Pending.{Pending};
ghost use Rattle.one_host_model.specs.Agent.{agent_after, agent_sends, client_of, without};
ghost use Rattle.cluster_core.specs.Outbox.{SendsMore};

use crate::outbox::Outbox;
use one_host_model::{Msg, Pending};
use std::alloc::{AllocError, Global};
use std::marker::Model;
use volt_base::{Bytes, CallNo, PartNo, Start};
use volt_wire::Actor;

/// An agent hands the calls of clients to the leaders of their partitions, and the replies back.
#[derive(Drop)]
pub struct Agent {
    start: Start,
    pending: Vec<Pending>,
}

impl Model for Agent {
    ghost use Rattle.one_host_model.specs.declared.state.Pending.{Pending};
    ghost use Rattle.one_host_model.specs.Agent.{AgentState};

    ghost Value = { AgentState };

    ghost view = { λ a. record { start = a.start; pending = a.pending.items } };
}

impl Agent {
    /// An agent that runs with this start and has taken no call.
    pub fn new(alloc: Global, start: Start) -> Agent
        ensures { result ≡ record { start = start; pending = [] } }
    {
        Agent {
            start,
            pending: Vec::new(alloc),
        }
    }

    /// Takes a message.
    pub fn take(&mut self, from: Actor, msg: Msg, out: &mut Outbox) -> Result<(), AllocError>
        ensures agent { OnOk result (self.new ≡ agent_after self.old from msg) }
        ensures sends { OnOk result (SendsMore out.old out.new (agent_sends self.old from msg)) }
    {
        match msg {
            Msg::Call {
                call,
                start,
                part,
                body,
            } => self.on_call(from, call, start, part, body, out),
            Msg::Reply { call, start, reply } => self.on_reply(from, call, start, reply, out),
            _ => Ok(()),
        }
    }

    /// A call of a client to this start is pending, and goes to the leader of its partition.
    fn on_call(
        &mut self,
        from: Actor,
        call: CallNo,
        start: Start,
        part: Option<PartNo>,
        body: Bytes,
        out: &mut Outbox,
    ) -> Result<(), AllocError>
        ensures agent { OnOk result (self.new ≡ agent_after self.old from (Msg.Call call start part body)) }
        ensures sends { OnOk result (SendsMore out.old out.new (agent_sends self.old from (Msg.Call call start part body))) }
    {
        if let (Actor::Client(client), Some(part)) = (from, part)
            && start == self.start
        {
            self.pending.push(Pending { call, client })?;
            out.push(
                Actor::Site(part),
                Msg::SpCall {
                    call,
                    start,
                    client,
                    body,
                },
            )?;
        }
        Ok(())
    }

    /// A site's reply goes to the client that waits for it.
    fn on_reply(
        &mut self,
        from: Actor,
        call: CallNo,
        start: Start,
        reply: Bytes,
        out: &mut Outbox,
    ) -> Result<(), AllocError>
        ensures agent { OnOk result (self.new ≡ agent_after self.old from (Msg.Reply call start reply)) }
        ensures sends { OnOk result (SendsMore out.old out.new (agent_sends self.old from (Msg.Reply call start reply))) }
    {
        if let Actor::Site(_) = from
            && let Some(place) = place_of(&self.pending, call)
        {
            let pending = self.pending.remove(place);
            out.push(Actor::Client(pending.client), Msg::Answer { call, reply })?;
        }
        Ok(())
    }
}

/// Where a call stands among those that are pending.
fn place_of(pending: &[Pending], call: CallNo) -> Option<usize>
    ensures within { IfSome result (λ i. i < length pending.now) }
    ensures found { IfSome result (λ i. (d : Pending) → client_of call pending.now ≡ Some (slice_index_or pending.now i d).client) }
    ensures removed { IfSome result (λ i. without call pending.now ≡ remove pending.now i) }
    ensures none { IfNone result (client_of call pending.now ≡ None) }
    ensures all { IfNone result (without call pending.now ≡ pending.now) }
{
    for (i, p) in pending.iter().enumerate() {
        if p.call == call {
            return Some(i);
        }
    }
    None
}
