//! Laws that show how the definitions hang together: they hold of every world and every event, over
//! any database. Each is a function without a body; the clause is the law.

ghost use Rattle.std.specs.Prelude.{◌≡◌, ℕ, ◌+◌, true, false, List, ◌∷◌, [], ◌++◌};
ghost use Rattle.volt_wire.specs.declared.actor.Actor.{Actor};
ghost use Rattle.volt_wire.specs.declared.event.Event.{Event};
ghost use Rattle.volt_wire.specs.declared.event.Event.TheVariants as event;
ghost use Rattle.volt_wire.specs.declared.item.TimedItem.{TimedItem};
ghost use Rattle.cluster_model.specs.Engine.{Database};
ghost use Rattle.cluster_model.specs.World.{World, Input, IsInput, first_world, stamp_of};
ghost use Rattle.cluster_model.specs.Environment.{Environment};
ghost use Rattle.cluster_model.specs.Events.{can, is_quiet_item, may_do, step};
ghost use Rattle.cluster_model.specs.Runs.{Happening, IsOneEpoch, IsRun, Reached, RunsInEpoch, RunsTo, run};
ghost use Rattle.cluster_model.specs.Laws.{ChangesOne, RiseFrom, is_one_actors, actor_of, drawn_in};

/// A database that stands for any.
pub trait AnyDatabase {
    /// What the cluster knows of it.
    ghost database: { Database };
}

/// An event that may happen, but for a recovery, changes one actor, takes at most the first message of one channel, and
/// appends to channels from that actor alone.
pub fn an_event_changes_one_actor<B: AnyDatabase>()
    ensures { (w : World) (e : Event) (o : Environment) → is_one_actors e ≡ true → can w e ≡ true
        → ChangesOne w (step B.database w (e, o)) e (actor_of e) }
{}

/// Whether a message may be taken depends on its channel alone, for an actor of the deployment.
pub fn a_message_may_be_taken_by_its_channel()
    ensures { (w v : World) (to from : Actor) → w.deployment ≡ v.deployment → w.channel from to ≡ v.channel from to
        → can w (event.Deliver to from) ≡ can v (event.Deliver to from) }
{}

/// Whether a site may sync, a scanner scan, a client submit or the director do its next item depends
/// on its own state alone; an item that waits for quiet is the exception.
pub fn own_events_may_happen_by_own_state()
    ensures sync { (w v : World) (i : ℕ) → w.deployment ≡ v.deployment → w.sites i ≡ v.sites i
        → can w (event.Sync i) ≡ can v (event.Sync i) }
    ensures scan { (w v : World) (i : ℕ) → w.deployment ≡ v.deployment → w.scanners i ≡ v.scanners i
        → can w (event.Scan i) ≡ can v (event.Scan i) }
    ensures submit { (w v : World) (n : ℕ) → w.deployment ≡ v.deployment → w.clients n ≡ v.clients n
        → can w (event.Submit n) ≡ can v (event.Submit n) }
    ensures item { (w v : World) (next : TimedItem) (left : List TimedItem)
        → w.director ≡ v.director → is_quiet_item next.item ≡ false
        → may_do w (next ∷ left) ≡ may_do v (next ∷ left) }
{}

/// The trace grows by each event, and so the stamps rise by one.
pub fn stamps_rise_by_one<B: AnyDatabase>()
    ensures trace { (w : World) (e : Happening) → (step B.database w e).trace ≡ w.trace ++ e.0 ∷ [] }
    ensures stamp { (w : World) (e : Happening) → stamp_of (step B.database w e) ≡ stamp_of w + 1 }
{}

/// A world is reached by an input exactly where a run leads to it from the input's first world. So what
/// holds of all reached worlds holds behind each run, and the other way round.
pub fn runs_reach_worlds<B: AnyDatabase>()
    ensures each { (input : Input) (es : List Happening) → IsInput input → IsRun B.database es (first_world B.database input)
        → Reached B.database input (run B.database es (first_world B.database input)) }
    ensures only { (input : Input) (w : World) → Reached B.database input w
        → IsInput input × ((es : List Happening)
        × IsRun B.database es (first_world B.database input) × (run B.database es (first_world B.database input) ≡ w)) }
{}

/// So it is with two worlds of a run, in one epoch or not: a run leads from the one to the other exactly
/// where the two stand in one run from there on.
pub fn runs_lead_on<B: AnyDatabase>()
    ensures on { (w : World) (es more : List Happening) → IsRun B.database (es ++ more) w
        → RunsTo B.database w (run B.database es w)
        × RunsTo B.database (run B.database es w) (run B.database (es ++ more) w) }
    ensures in_epoch { (w : World) (es more : List Happening) → IsRun B.database (es ++ more) w → IsOneEpoch more
        → RunsInEpoch B.database (run B.database es w) (run B.database (es ++ more) w) }
    ensures reached { (input : Input) (v w : World) → Reached B.database input v → RunsTo B.database v w
        → Reached B.database input w }
    ensures any { (v w : World) → RunsInEpoch B.database v w → RunsTo B.database v w }
{}

/// The starts that hosts get in a run, by an item or in a recovery, rise from the next one of its
/// first world on. So no start is used twice.
pub fn starts_are_drawn_once<B: AnyDatabase>()
    ensures { (w : World) (es : List Happening)
        → RiseFrom w.director.next_start (drawn_in B.database es w) }
{}
