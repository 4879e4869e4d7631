ghost use Rattle.std.specs.Prelude.{◌≡◌, ◌++◌, true, false, [], OnOk, IfOk, All};
ghost use Rattle.volt_wire.specs.declared.actor.Actor.{Actor};
ghost use Rattle.one_host_model.specs.World as model;
ghost use Rattle.one_host_model.specs.Runs.{is_one_of_them, is_event_of_them, enabled, first_of_events};
ghost use Rattle.cluster_core.specs.Channels.{queue_of};
ghost use Rattle.cluster_core.specs.Outbox.{sent_to};
ghost use Rattle.cluster_core.specs.World.{StandsFor, HasThemAlone, if_it_may};
ghost use Rattle.cluster_core.specs.Outcomes.{TellsOutcomes};

use crate::agent::Agent;
use crate::channels::Channels;
use crate::client::Client;
use crate::director::Director;
use crate::outbox::Outbox;
use crate::site::Site;
use one_host_model::{CopyRows, Ended, WorldInput};
use std::alloc::{AllocError, Global};
use volt_base::{Applied, Engine, MakeEngine, Stamp};
use volt_wire::{Actor, Event};

/// The world of one host with one site, and one client: its actors, the messages under way, and the
/// events so far.
#[derive(Drop)]
pub struct World<M: MakeEngine> {
    director: Director,
    client: Client,
    agent: Agent,
    site: Site<M::E>,
    channels: Channels,
    /// What the event under way sends: empty between events.
    outbox: Outbox,
    trace: Vec<Event>,
    alloc: Global,
}

/// What there is to report of a world.
#[derive(Debug, Drop)]
pub struct Outcomes {
    /// The calls that ended, by number.
    pub ends: Vec<Ended>,
    /// The copies of running members, by slot.
    pub copies: Vec<CopyRows>,
    /// The applied lists of the copies, merged by point.
    pub serial: Vec<Applied>,
    /// The events so far.
    pub trace: Vec<Event>,
}

impl<M: MakeEngine> World<M> {
    /// The first world of an input: nothing has happened, and each client has its calls to submit.
    pub fn boot(alloc: Global, make: &M, input: &WorldInput) -> Result<World<M>, AllocError>
        requires { All (λ call. call.client ≡ 1) input.now.calls.items }
        ensures { IfOk result (λ world. StandsFor M.E.meaning M.E.state world (model.first_world input.now.calls.items)) }
    {
        Ok(World {
            director: Director::new(),
            client: Client::new(alloc, &input.calls)?,
            agent: Agent::new(alloc, 1),
            site: Site::new(alloc, 0, make.make(alloc, 0)?),
            channels: Channels::new(alloc),
            outbox: Outbox::new(alloc),
            trace: Vec::new(alloc),
            alloc,
        })
    }

    /// Whether an event may happen. An event of no actor of this world may not.
    pub fn is_enabled(&self, event: Event) -> bool
        ensures of_them { (w : model.World) → is_event_of_them event ≡ true
            → StandsFor M.E.meaning M.E.state self.now w → result ≡ model.can w event }
        ensures others { is_event_of_them event ≡ false → result ≡ false }
    {
        match event {
            Event::Deliver { to, from } => {
                is_here(to) && is_here(from) && self.channels.has(from, to)
            }
            Event::Sync(slot) => slot == 0 && self.site.owes(),
            Event::Submit(client) => client == 1 && self.client.may_submit(),
            Event::Scan(_) | Event::Recover | Event::Item | Event::Idle(_) => false,
        }
    }

    /// The events that may happen, in their order, in place of what `into` held. In a world of a run
    /// no event may happen but those of its actors.
    pub fn enabled(&self, into: &mut Vec<Event>) -> Result<(), AllocError>
        ensures { OnOk result ((w : model.World) → StandsFor M.E.meaning M.E.state self.now w
            → HasThemAlone w → into.new.items ≡ enabled w) }
    {
        into.clear();
        self.channels.add_deliveries(into)?;
        add_if(into, self.site.owes(), Event::Sync(0))?;
        add_if(into, self.client.may_submit(), Event::Submit(1))?;
        Ok(())
    }

    /// The first of the events that may happen.
    pub fn first(&self) -> Option<Event>
        ensures { (w : model.World) → StandsFor M.E.meaning M.E.state self.now w
            → HasThemAlone w → result ≡ first_of_events (enabled w) }
    {
        if let Some(route) = self.channels.first() {
            return Some(Event::Deliver {
                to: route.to,
                from: route.from,
            });
        }
        if self.site.owes() {
            return Some(Event::Sync(0));
        }
        if self.client.may_submit() {
            return Some(Event::Submit(1));
        }
        None
    }

    /// One event, which has the next stamp. After running out of memory the world may only be dropped.
    pub fn step(&mut self, event: Event) -> Result<(), AllocError>
        requires { is_event_of_them event ≡ true }
        ensures { OnOk result ((w : model.World)
            → StandsFor M.E.meaning M.E.state self.old w
            → StandsFor M.E.meaning M.E.state self.new (model.step M.E.meaning w event)) }
    {
        let stamp = self.trace.len() as u64 + 1;
        self.happen(stamp, event)?;
        self.trace.push(event)?;
        Ok(())
    }

    /// What there is to report of the world.
    pub fn into_parts(self) -> Result<Outcomes, AllocError>
        ensures { IfOk result (λ outcomes. (w : model.World)
            → StandsFor M.E.meaning M.E.state self w → TellsOutcomes M.E.meaning outcomes w) }
    {
        let rows = self.site.engine.dump(self.alloc)?;
        let serial = Vec::from_slice(self.alloc, self.site.engine.applied())?;
        let mut copies = Vec::new(self.alloc);
        copies.push(CopyRows {
            rows,
            position: serial.len() as u64,
            slot: 0,
        })?;
        Ok(Outcomes {
            ends: self.client.into_ended(),
            copies,
            serial,
            trace: self.trace,
        })
    }

    /// What an event does to the actors and the channels.
    fn happen(&mut self, stamp: Stamp, event: Event) -> Result<(), AllocError>
        requires { is_event_of_them event ≡ true }
        ensures { OnOk result ((w : model.World)
            → StandsFor M.E.meaning M.E.state self.old w
            → StandsFor M.E.meaning M.E.state self.new (model.happens M.E.meaning stamp w event)) }
    {
        match event {
            Event::Deliver { to, from } => self.deliver(stamp, to, from),
            Event::Sync(_) => self.sync(stamp),
            Event::Submit(_) => self.submit(stamp),
            Event::Scan(_) | Event::Recover | Event::Item | Event::Idle(_) => unreachable!(),
        }
    }

    /// The receiver takes the first message of a channel, if there is one.
    fn deliver(&mut self, stamp: Stamp, to: Actor, from: Actor) -> Result<(), AllocError>
        requires { is_one_of_them to ≡ true }
        ensures { OnOk result ((w : model.World)
            → StandsFor M.E.meaning M.E.state self.old w
            → StandsFor M.E.meaning M.E.state self.new (model.happens M.E.meaning stamp w (Event.Deliver to from))) }
    {
        match to {
            Actor::Director => self.deliver_to_director(stamp, from),
            Actor::Client(_) => self.deliver_to_client(stamp, from),
            Actor::Agent(_) => self.deliver_to_agent(stamp, from),
            Actor::Site(_) => self.deliver_to_site(stamp, from),
            Actor::Scanner(_) => unreachable!(),
        }
    }

    /// A site writes what it owes to its disk, and sends the replies that waited for it.
    fn sync(&mut self, stamp: Stamp) -> Result<(), AllocError>
        ensures { OnOk result ((w : model.World)
            → StandsFor M.E.meaning M.E.state self.old w
            → StandsFor M.E.meaning M.E.state self.new (model.happens M.E.meaning stamp w (Event.Sync 0))) }
    {
        self.site.sync(&mut self.outbox)?;
        post(&mut self.channels, &mut self.outbox, Actor::Site(0))?;
        Ok(())
    }

    /// The client sends its next call.
    fn submit(&mut self, stamp: Stamp) -> Result<(), AllocError>
        ensures { OnOk result ((w : model.World)
            → StandsFor M.E.meaning M.E.state self.old w
            → StandsFor M.E.meaning M.E.state self.new (model.happens M.E.meaning stamp w (Event.Submit 1))) }
    {
        self.client.submit(stamp, &mut self.outbox)?;
        post(&mut self.channels, &mut self.outbox, Actor::Client(1))?;
        Ok(())
    }

    fn deliver_to_director(&mut self, stamp: Stamp, from: Actor) -> Result<(), AllocError>
        ensures { OnOk result ((w : model.World)
            → StandsFor M.E.meaning M.E.state self.old w
            → StandsFor M.E.meaning M.E.state self.new (model.happens M.E.meaning stamp w (Event.Deliver Actor.Director from))) }
    {
        if let Some(msg) = self.channels.pop(from, Actor::Director) {
            self.director.take(msg)?;
        }
        Ok(())
    }

    fn deliver_to_client(&mut self, stamp: Stamp, from: Actor) -> Result<(), AllocError>
        ensures { OnOk result ((w : model.World)
            → StandsFor M.E.meaning M.E.state self.old w
            → StandsFor M.E.meaning M.E.state self.new (model.happens M.E.meaning stamp w (Event.Deliver (Actor.Client 1) from))) }
    {
        if let Some(msg) = self.channels.pop(from, Actor::Client(1)) {
            self.client.take(1, stamp, msg)?;
        }
        Ok(())
    }

    fn deliver_to_agent(&mut self, stamp: Stamp, from: Actor) -> Result<(), AllocError>
        ensures { OnOk result ((w : model.World)
            → StandsFor M.E.meaning M.E.state self.old w
            → StandsFor M.E.meaning M.E.state self.new (model.happens M.E.meaning stamp w (Event.Deliver (Actor.Agent 0) from))) }
    {
        let Some(msg) = self.channels.pop(from, Actor::Agent(0)) else {
            return Ok(());
        };
        self.agent.take(from, msg, &mut self.outbox)?;
        post(&mut self.channels, &mut self.outbox, Actor::Agent(0))?;
        Ok(())
    }

    fn deliver_to_site(&mut self, stamp: Stamp, from: Actor) -> Result<(), AllocError>
        ensures { OnOk result ((w : model.World)
            → StandsFor M.E.meaning M.E.state self.old w
            → StandsFor M.E.meaning M.E.state self.new (model.happens M.E.meaning stamp w (Event.Deliver (Actor.Site 0) from))) }
    {
        if let Some(msg) = self.channels.pop(from, Actor::Site(0)) {
            self.site.take(self.alloc, stamp, from, msg)?;
        }
        Ok(())
    }
}

/// Adds an event that may happen.
fn add_if(into: &mut Vec<Event>, may_happen: bool, event: Event) -> Result<(), AllocError>
    ensures { OnOk result (into.new.items ≡ into.old.items ++ if_it_may may_happen event) }
{
    if may_happen {
        into.push(event)?;
    }
    Ok(())
}

/// Whether an actor is one of this world's.
fn is_here(actor: Actor) -> bool
    ensures { result ≡ is_one_of_them actor }
{
    match actor {
        Actor::Director => true,
        Actor::Client(number) => number == 1,
        Actor::Agent(host) => host == 0,
        Actor::Site(slot) => slot == 0,
        Actor::Scanner(_) => false,
    }
}

/// Sends what an event's outbox holds.
fn post(channels: &mut Channels, out: &mut Outbox, from: Actor) -> Result<(), AllocError>
    ensures empty { OnOk result (out.new ≡ []) }
    ensures sent { OnOk result ((f t : Actor) → queue_of channels.new f t ≡ model.sent (queue_of channels.old) from (λ b. sent_to b out.old) f t) }
{
    while let Some((to, msg)) = out.pop() {
        channels.push(from, to, msg)?;
    }
    Ok(())
}
