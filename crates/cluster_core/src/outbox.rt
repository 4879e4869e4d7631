ghost use Rattle.std.specs.Prelude.{◌≡◌, [], ◌∷◌, ◌++◌, OnOk, IsNone, IfSome, IfNone};
ghost use Rattle.one_host_model.specs.Actors.{only};
ghost use Rattle.cluster_core.specs.Outbox.{SendsMore};

use one_host_model::Msg;
use std::alloc::{AllocError, Global};
use std::collections::VecDeque;
use std::marker::Model;
use volt_wire::Actor;

/// What an event sends, seen as the list of receivers and messages in order.
#[derive(Drop)]
pub struct Outbox {
    messages: VecDeque<(Actor, Msg)>,
}

impl Model for Outbox {
    ghost use Rattle.std.specs.Prelude.{List};
    ghost use Rattle.volt_wire.specs.declared.actor.Actor.{Actor};
    ghost use Rattle.one_host_model.specs.declared.message.Msg.{Msg};

    ghost Value = { List (Actor × Msg) };

    ghost view = { λ o. o.messages.items };
}

impl Outbox {
    /// An outbox that holds nothing.
    pub fn new(alloc: Global) -> Outbox
        ensures { result ≡ [] }
    {
        Outbox {
            messages: VecDeque::new(alloc),
        }
    }

    /// Adds a message to an actor.
    pub fn push(&mut self, to: Actor, msg: Msg) -> Result<(), AllocError>
        ensures at_end { OnOk result (self.new ≡ self.old ++ (to, msg) ∷ []) }
        ensures sends { OnOk result (SendsMore self.old self.new (only to msg)) }
    {
        self.messages.push_back((to, msg))?;
        Ok(())
    }

    /// Takes the first message that is left.
    pub fn pop(&mut self) -> Option<(Actor, Msg)>
        ensures empty { IsNone result → self.old ≡ [] }
        ensures first { IfSome result (λ m. self.old ≡ m ∷ self.new) }
        ensures none { IfNone result (self.new ≡ self.old) }
    {
        self.messages.pop_front()
    }
}
