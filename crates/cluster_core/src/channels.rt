ghost use Rattle.std.specs.Prelude.{◌≡◌, ◌++◌, [], map, slice_get, OnOk};
ghost use Rattle.one_host_model.specs.Actors.{only};
ghost use Rattle.one_host_model.specs.World.{took, sent, is_some_message};
ghost use Rattle.volt_wire.specs.declared.actor.Actor.{Actor};
ghost use Rattle.cluster_core.specs.Channels.{queue_of, routes, delivery, IsInOrder, AreAllRoutes, first_message};

use crate::route::Route;
use one_host_model::Msg;
use std::alloc::{AllocError, Global};
use std::collections::{BTreeMap, VecDeque};
use std::marker::Model;
use volt_wire::{Actor, Event};

/// The messages under way: the queue of each route that had a message, by route. A queue stays where
/// it becomes empty, so that its memory serves the next message.
#[derive(Drop)]
pub struct Channels {
    queues: BTreeMap<Route, VecDeque<Msg>>,
    alloc: Global,
}

impl Model for Channels {
    ghost use Rattle.std.specs.Prelude.{List};
    ghost use Rattle.one_host_model.specs.declared.message.Msg.{Msg};
    ghost use Rattle.cluster_core.specs.declared.route.Route.{Route};

    ghost Value = { List (Route × List Msg) };

    ghost use Rattle.cluster_core.specs.Channels.{shown};

    ghost view = { λ c. shown c.queues.entries };
}

impl Channels {
    /// Channels with no message under way.
    pub fn new(alloc: Global) -> Channels
        ensures { result ≡ [] }
    {
        Channels {
            queues: BTreeMap::new(alloc),
            alloc,
        }
    }

    /// Whether a channel holds a message.
    pub fn has(&self, from: Actor, to: Actor) -> bool
        ensures { result ≡ is_some_message (queue_of self.now from to) }
    {
        match self.queues.get(&Route { to, from }) {
            Some(queue) => !queue.is_empty(),
            None => false,
        }
    }

    /// The first route that has a message.
    pub fn first(&self) -> Option<Route>
        ensures ordered { IsInOrder (routes self.now) }
        ensures all { AreAllRoutes self.now }
        ensures first { result ≡ slice_get (routes self.now) 0 }
    {
        for (route, queue) in self.queues.iter() {
            if !queue.is_empty() {
                return Some(*route);
            }
        }
        None
    }

    /// Adds the delivery of each route that has a message, in their order.
    pub fn add_deliveries(&self, into: &mut Vec<Event>) -> Result<(), AllocError>
        ensures ordered { IsInOrder (routes self.now) }
        ensures all { AreAllRoutes self.now }
        ensures added { OnOk result (into.new.items ≡ into.old.items ++ map delivery (routes self.now)) }
    {
        for (route, queue) in self.queues.iter() {
            if !queue.is_empty() {
                into.push(Event::Deliver {
                    to: route.to,
                    from: route.from,
                })?;
            }
        }
        Ok(())
    }

    /// Puts a message at the end of a channel.
    pub fn push(&mut self, from: Actor, to: Actor, msg: Msg) -> Result<(), AllocError>
        ensures { OnOk result ((f t : Actor) → queue_of self.new f t ≡ sent (queue_of self.old) from (only to msg) f t) }
    {
        let none = VecDeque::new(self.alloc);
        let queue = self.queues.entry(Route { to, from })?.or_insert(none);
        queue.push_back(msg)?;
        Ok(())
    }

    /// Takes the first message of a channel, where it has one.
    pub fn pop(&mut self, from: Actor, to: Actor) -> Option<Msg>
        ensures first { result ≡ first_message (queue_of self.old from to) }
        ensures others { (f t : Actor) → queue_of self.new f t ≡ took (queue_of self.old) from to f t }
    {
        match self.queues.get_mut(&Route { to, from }) {
            Some(queue) => queue.pop_front(),
            None => None,
        }
    }
}
