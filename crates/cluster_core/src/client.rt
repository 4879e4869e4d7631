ghost use Rattle.std.specs.Prelude.{◌≡◌, [], None, OnOk, IfOk, All};
ghost use Rattle.one_host_model.specs.Client.{may_submit, submitted, submit_sends, client_after};
ghost use Rattle.one_host_model.specs.World.{due};
ghost use Rattle.cluster_core.specs.Outbox.{SendsMore};

use crate::outbox::Outbox;
use one_host_model::{Due, Ended, Msg, WorldCall};
use std::alloc::{AllocError, Global};
use std::collections::VecDeque;
use std::marker::Model;
use volt_base::{Bytes, CallNo, ClientNo, Stamp};
use volt_wire::Actor;

/// A client submits its calls one after another, and notes how each ended.
#[derive(Drop)]
pub struct Client {
    left: VecDeque<Due>,
    pending: Option<(CallNo, Stamp)>,
    ended: Vec<Ended>,
}

impl Model for Client {
    ghost use Rattle.one_host_model.specs.Client.{ClientState};

    ghost Value = { ClientState };

    ghost view = { λ c. record { left = c.left.items; pending = c.pending; ended = c.ended.items } };
}

impl Client {
    /// A client that has all these calls to submit, numbered from 1.
    pub fn new(alloc: Global, calls: &[WorldCall]) -> Result<Client, AllocError>
        requires { All (λ call. call.client ≡ 1) calls.now }
        ensures { IfOk result (λ client. client ≡ record { left = due 1 1 calls.now; pending = None; ended = [] }) }
    {
        let mut left = VecDeque::new(alloc);
        let mut number = 1u32;
        for call in calls {
            left.push_back(Due {
                body: call.body.copy(alloc)?,
                call: number,
                part: call.part,
            })?;
            number = number.checked_add(1).ok_or(AllocError)?;
        }
        Ok(Client {
            left,
            pending: None,
            ended: Vec::new(alloc),
        })
    }

    /// The calls that ended, in that order.
    pub fn into_ended(self) -> Vec<Ended>
        ensures { result.items ≡ self.ended }
    {
        self.ended
    }

    /// Whether it may submit: a call is left, and none waits for its answer.
    pub fn may_submit(&self) -> bool
        ensures { result ≡ may_submit self.now.left self.now.pending }
    {
        self.pending.is_none() && !self.left.is_empty()
    }

    /// Submits the next call: it goes to the agent of the one host, and the director is told.
    pub fn submit(&mut self, stamp: Stamp, out: &mut Outbox) -> Result<(), AllocError>
        ensures client { OnOk result (self.new ≡ submitted stamp self.old self.old.left) }
        ensures sends { OnOk result (SendsMore out.old out.new (submit_sends self.old.left)) }
    {
        if let Some(due) = self.left.pop_front() {
            self.pending = Some((due.call, stamp));
            out.push(Actor::Director, Msg::Told)?;
            let call = Msg::Call {
                call: due.call,
                start: 1,
                part: due.part,
                body: due.body,
            };
            out.push(Actor::Agent(0), call)?;
        }
        Ok(())
    }

    /// Takes a message.
    pub fn take(&mut self, number: ClientNo, stamp: Stamp, msg: Msg) -> Result<(), AllocError>
        ensures { OnOk result (self.new ≡ client_after stamp number self.old msg) }
    {
        match msg {
            Msg::Answer { call, reply } => self.on_answer(number, stamp, call, reply),
            _ => Ok(()),
        }
    }

    /// The call ends at this stamp, if it is the one that waits.
    fn on_answer(
        &mut self,
        number: ClientNo,
        stamp: Stamp,
        call: CallNo,
        reply: Bytes,
    ) -> Result<(), AllocError>
        ensures { OnOk result (self.new ≡ client_after stamp number self.old (Msg.Answer call reply)) }
    {
        if let Some((pending, submitted)) = self.pending
            && pending == call
        {
            self.pending = None;
            self.ended.push(Ended {
                submitted,
                ended: stamp,
                reply,
                call,
                client: number,
            })?;
        }
        Ok(())
    }
}
