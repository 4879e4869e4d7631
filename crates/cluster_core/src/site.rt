ghost use Rattle.std.specs.Prelude.{◌≡◌, ◌+◌, [], OnOk, IfOk};
ghost use Rattle.one_host_model.specs.Site.{SiteState, site_after, owes, synced, sync_sends, replies};
ghost use Rattle.cluster_core.specs.Outbox.{SendsMore};
ghost use Rattle.cluster_core.specs.Site.{StandsForSite};

use crate::outbox::Outbox;
use one_host_model::{Msg, Waiting};
use std::alloc::{AllocError, Global};
use std::collections::VecDeque;
use volt_base::{Bytes, CallNo, ClientNo, Engine, Entry, HostNo, Pos, SlotNo, Stamp, Start};
use volt_wire::Actor;

/// What a site keeps of its log.
#[derive(Drop)]
pub struct LogEnd {
    /// The position of the last entry.
    pub end: Pos,
    /// The position of the last entry that is on disk.
    pub on_disk: Pos,
    /// The replies to entries that aren't firm yet, in order of the log.
    pub waiting: VecDeque<Waiting>,
}

/// A site keeps the copy of a partition: its log and, in an engine, the tables that the log leads to.
#[derive(Drop)]
pub struct Site<E: Engine> {
    pub slot: SlotNo,
    pub engine: E,
    pub log: LogEnd,
}

impl<E: Engine> Site<E> {
    /// A site whose log is empty, with an engine that has nothing in it.
    pub fn new(alloc: Global, slot: SlotNo, engine: E) -> Site<E>
        ensures slot { result.slot ≡ slot }
        ensures empty { E.state engine ≡ E.meaning.opening slot
            → StandsForSite E.meaning slot result.log (E.state result.engine) (record { log = []; on_disk = 0; waiting = [] }) }
    {
        Site {
            slot,
            engine,
            log: LogEnd {
                end: 0,
                on_disk: 0,
                waiting: VecDeque::new(alloc),
            },
        }
    }

    /// Whether it owes its disk an entry.
    pub fn owes(&self) -> bool
        ensures { (s : SiteState)
            → StandsForSite E.meaning self.now.slot self.now.log (E.state self.now.engine) s
            → result ≡ owes s }
    {
        self.log.on_disk < self.log.end
    }

    /// Takes a message. An entry that doesn't fit the engine is running out of memory.
    pub fn take(
        &mut self,
        alloc: Global,
        stamp: Stamp,
        from: Actor,
        msg: Msg,
    ) -> Result<(), AllocError>
        ensures slot { self.new.slot ≡ self.old.slot }
        ensures site { OnOk result ((s : SiteState)
            → StandsForSite E.meaning self.old.slot self.old.log (E.state self.old.engine) s
            → StandsForSite E.meaning self.old.slot self.new.log (E.state self.new.engine)
            (site_after E.meaning stamp self.old.slot s from msg)) }
    {
        match msg {
            Msg::SpCall {
                call,
                start,
                client,
                body,
            } => self.on_call(alloc, stamp, from, call, start, client, body),
            _ => Ok(()),
        }
    }

    /// An agent's call is appended with this stamp as its point and applied. Its reply waits.
    fn on_call(
        &mut self,
        alloc: Global,
        stamp: Stamp,
        from: Actor,
        call: CallNo,
        start: Start,
        client: ClientNo,
        body: Bytes,
    ) -> Result<(), AllocError>
        ensures slot { self.new.slot ≡ self.old.slot }
        ensures site { OnOk result ((s : SiteState)
            → StandsForSite E.meaning self.old.slot self.old.log (E.state self.old.engine) s
            → StandsForSite E.meaning self.old.slot self.new.log (E.state self.new.engine)
            (site_after E.meaning stamp self.old.slot s from (Msg.SpCall call start client body))) }
    {
        let Actor::Agent(host) = from else {
            return Ok(());
        };
        let entry = Entry::Sp {
            call,
            client,
            point: stamp,
            body,
        };
        let reply = self.apply(alloc, &entry)?;
        self.log.waiting.push_back(Waiting {
            reply,
            call,
            start,
            host,
        })?;
        Ok(())
    }

    /// Appends an entry and applies it, and answers its reply.
    fn apply(&mut self, alloc: Global, entry: &Entry) -> Result<Bytes, AllocError>
        ensures end { OnOk result (self.new.log.end ≡ self.old.log.end + 1) }
        ensures state { OnOk result (E.state self.new.engine ≡ E.meaning.after (E.state self.old.engine) entry.now) }
        ensures reply { IfOk result (λ reply. reply ≡ E.meaning.answer (E.state self.old.engine) entry.now) }
        ensures slot { self.new.slot ≡ self.old.slot }
        ensures on_disk { self.new.log.on_disk ≡ self.old.log.on_disk }
        ensures waiting { self.new.log.waiting.items ≡ self.old.log.waiting.items }
    {
        let end = self.log.end.checked_add(1).ok_or(AllocError)?;
        if !self.engine.fits(alloc, entry)? {
            return Err(AllocError);
        }
        let reply = self.engine.apply(alloc, entry)?;
        self.log.end = end;
        Ok(reply)
    }

    /// Everything is on disk. It has no copies to wait for, so each reply that waited is sent.
    pub fn sync(&mut self, out: &mut Outbox) -> Result<(), AllocError>
        ensures slot { self.new.slot ≡ self.old.slot }
        ensures site { OnOk result ((s : SiteState)
            → StandsForSite E.meaning self.old.slot self.old.log (E.state self.old.engine) s
            → StandsForSite E.meaning self.old.slot self.new.log (E.state self.new.engine) (synced s)) }
        ensures sends { OnOk result ((s : SiteState)
            → StandsForSite E.meaning self.old.slot self.old.log (E.state self.old.engine) s
            → SendsMore out.old out.new (sync_sends s)) }
    {
        send_replies(&mut self.log.waiting, out)?;
        self.log.on_disk = self.log.end;
        Ok(())
    }
}

/// Sends each reply that waited to the agent that asked for it.
fn send_replies(waiting: &mut VecDeque<Waiting>, out: &mut Outbox) -> Result<(), AllocError>
    ensures none { OnOk result (waiting.new.items ≡ []) }
    ensures sends { OnOk result (SendsMore out.old out.new (replies waiting.old.items)) }
{
    while let Some(reply) = waiting.pop_front() {
        let msg = Msg::Reply {
            call: reply.call,
            start: reply.start,
            reply: reply.reply,
        };
        out.push(Actor::Agent(reply.host), msg)?;
    }
    Ok(())
}
