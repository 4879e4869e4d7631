ghost use Rattle.std.specs.Prelude.{◌≡◌, IfOk, All};

use super::World;
use one_host_model::{Ended, WorldCall, WorldInput};
use std::alloc::{AllocError, Global};
use std::process::Abort;
use std::test::Fail;
use volt_base::{Applied, Bytes, Engine, Entry, LastReply, MakeEngine, PartNo};
use volt_wire::{Actor, Event};

/// An engine that answers each call with the call's own body.
#[derive(Drop)]
struct Echo {
    applied: Vec<Applied>,
}

impl Engine for Echo {
    ghost use Rattle.cluster_core.specs.Echo.{echo_semantics};

    ghost meaning = { echo_semantics };

    ghost state = { λ e. e.applied.items };

    fn fits(&self, _alloc: Global, _entry: &Entry) -> Result<bool, AllocError> {
        Ok(true)
    }

    fn apply(&mut self, alloc: Global, entry: &Entry) -> Result<Bytes, AllocError> {
        match entry {
            Entry::Sp {
                call,
                point,
                body,
                ..
            } => {
                self.applied.push(Applied {
                    call: *call,
                    point: *point,
                })?;
                body.copy(alloc)
            }
            Entry::Frag { .. } | Entry::Done { .. } => Ok(Bytes::from_vec(Vec::new(alloc))),
        }
    }

    fn dump(&self, alloc: Global) -> Result<Bytes, AllocError> {
        Bytes::of(alloc, &[7])
    }

    fn applied(&self) -> &[Applied] {
        self.applied.as_slice()
    }

    fn replies(&self) -> &[LastReply] {
        &[]
    }
}

struct EchoMaker;

impl MakeEngine for EchoMaker {
    type E = Echo;

    fn make(&self, alloc: Global, _part: PartNo) -> Result<Echo, AllocError> {
        Ok(Echo {
            applied: Vec::new(alloc),
        })
    }
}

/// How a call runs: it is submitted, and comes to the agent, to the site and to the disk. Its reply
/// goes back the same way.
const RUN_OF_A_CALL: [Event; 7] = [
    Event::Submit(1),
    Event::Deliver {
        to: Actor::Director,
        from: Actor::Client(1),
    },
    Event::Deliver {
        to: Actor::Agent(0),
        from: Actor::Client(1),
    },
    Event::Deliver {
        to: Actor::Site(0),
        from: Actor::Agent(0),
    },
    Event::Sync(0),
    Event::Deliver {
        to: Actor::Agent(0),
        from: Actor::Site(0),
    },
    Event::Deliver {
        to: Actor::Client(1),
        from: Actor::Agent(0),
    },
];

/// A call of client 1, with a body of one byte.
fn call_of(alloc: Global, byte: u8) -> Result<WorldCall, AllocError>
    ensures { IfOk result (λ call. call.client ≡ 1) }
{
    Ok(WorldCall {
        client: 1,
        part: Some(0),
        body: Bytes::of(alloc, &[byte])?,
    })
}

/// Two calls of client 1.
fn two_calls(alloc: Global) -> Result<WorldInput, AllocError>
    ensures { IfOk result (λ input. All (λ call. call.client ≡ 1) input.calls.items) }
{
    let mut calls = Vec::new(alloc);
    calls.push(call_of(alloc, 10)?)?;
    calls.push(call_of(alloc, 20)?)?;
    Ok(WorldInput { calls })
}

/// Compares how a call ended with its number, its stamps and its reply.
fn check_end(rt: &impl Abort, end: &Ended, wanted: (u32, u64, u64, u8)) {
    assert_eq!(rt; end.client, 1);
    assert_eq!(rt;
        (end.call, end.submitted, end.ended),
        (wanted.0, wanted.1, wanted.2)
    );
    assert_eq!(rt; end.reply.as_slice(), [wanted.3].as_slice());
}

#[test]
fn two_calls_run_one_after_another(rt: HostRuntime) -> Result<(), Fail> {
    let alloc = rt.alloc();
    let mut world = World::boot(alloc, &EchoMaker, &two_calls(alloc)?)?;
    assert!(rt; world.is_enabled(Event::Submit(1)));
    assert!(rt; !world.is_enabled(Event::Sync(0)));

    let mut events = Vec::new(alloc);
    for _ in 0..2 {
        for event in RUN_OF_A_CALL {
            assert_eq!(rt; world.first(), Some(event));
            world.enabled(&mut events)?;
            assert_eq!(rt; events.first(), Some(&event));
            assert!(rt; world.is_enabled(event));
            world.step(event)?;
        }
    }
    assert_eq!(rt; world.first(), None);
    world.enabled(&mut events)?;
    assert!(rt; events.is_empty());

    let outcomes = world.into_parts()?;
    assert_eq!(rt; outcomes.ends.len(), 2);
    check_end(&rt, &outcomes.ends[0], (1, 1, 7, 10));
    check_end(&rt, &outcomes.ends[1], (2, 8, 14, 20));
    let serial = [
        Applied { call: 1, point: 4 },
        Applied { call: 2, point: 11 },
    ];
    assert_eq!(rt; outcomes.serial.as_slice(), serial.as_slice());
    assert_eq!(rt; outcomes.copies.len(), 1);
    let copy = &outcomes.copies[0];
    assert_eq!(rt; (copy.slot, copy.position), (0, 2));
    assert_eq!(rt; copy.rows.as_slice(), [7].as_slice());
    assert_eq!(rt; outcomes.trace.len(), 14);
    assert_eq!(rt; &outcomes.trace.as_slice()[..7], RUN_OF_A_CALL.as_slice());
    assert_eq!(rt; &outcomes.trace.as_slice()[7..], RUN_OF_A_CALL.as_slice());
    Ok(())
}
