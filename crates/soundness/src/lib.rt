//! When a report is sound, and when it is tied to a run; and the law that a run which ends quiescent has
//! a report that is both. Begin with `specs/Sound.antt`, and then `quiescent_runs_are_sound`.
#![tactic(auto)]

ghost use Rattle.std.specs.Prelude.{◌≡◌, ◌*◌, ◌≤◌, true, List, [], length, map};
ghost use Rattle.std.specs.List.{range_with_len};
ghost use Rattle.volt_base.specs.Semantics.{Semantics};
ghost use Rattle.volt_wire.specs.declared.event.Event.{Event};
ghost use Rattle.volt_report.specs.Report.{Report};
ghost use Rattle.one_host_model.specs.World.{can};
ghost use Rattle.one_host_model.specs.Runs.{run, IsRun, IsQuiescent, is_event_of_them, enabled, serves};
ghost use Rattle.soundness.specs.Meaning.{Meaning};
ghost use Rattle.soundness.specs.Sound.{Sound};
ghost use Rattle.soundness.specs.Tied.{ShowsWorld};
ghost use Rattle.soundness.specs.Carries.{Carries, script};
ghost use Rattle.soundness.specs.Law.{first_world_of, HasSoundReport};

/// A meaning of calls, and an engine that carries it out.
pub trait Carried {
    /// What calls mean.
    ghost meaning: { Meaning };

    /// What the entries of a log mean to the engine.
    ghost semantics: { Semantics };

    /// The engine does what the calls mean.
    ghost carries: { Carries semantics meaning };
}

/// Every run that ends quiescent has a report that shows its last world and is sound, and in which every
/// call has ended.
pub fn quiescent_runs_are_sound<C: Carried>()
    ensures { (calls : List C.meaning.Call) (es : List Event)
        → IsRun C.semantics es (first_world_of C.semantics C.meaning C.carries calls)
        → IsQuiescent (run C.semantics es (first_world_of C.semantics C.meaning C.carries calls))
        → HasSoundReport C.semantics C.meaning C.carries calls
        (run C.semantics es (first_world_of C.semantics C.meaning C.carries calls)) }
{}

/// A run has at most seven events for each call.
pub fn runs_are_short<C: Carried>()
    ensures { (calls : List C.meaning.Call) (es : List Event)
        → IsRun C.semantics es (first_world_of C.semantics C.meaning C.carries calls)
        → length es ≤ 7 * length calls }
{}

/// The trace of a run is its events.
pub fn runs_are_noted<C: Carried>()
    ensures { (calls : List C.meaning.Call) (es : List Event)
        → (run C.semantics es (first_world_of C.semantics C.meaning C.carries calls)).trace ≡ es }
{}

/// In a run only events of the one client, the one agent and the one site may happen.
pub fn events_are_of_them<C: Carried>()
    ensures { (calls : List C.meaning.Call) (es : List Event) (e : Event)
        → IsRun C.semantics es (first_world_of C.semantics C.meaning C.carries calls)
        → can (run C.semantics es (first_world_of C.semantics C.meaning C.carries calls)) e ≡ true
        → is_event_of_them e ≡ true }
{}

/// Where no event of their list may happen, a run has ended quiescent: no event at all may happen.
pub fn quiescent_where_nothing_is_enabled<C: Carried>()
    ensures { (calls : List C.meaning.Call) (es : List Event)
        → IsRun C.semantics es (first_world_of C.semantics C.meaning C.carries calls)
        → enabled (run C.semantics es (first_world_of C.semantics C.meaning C.carries calls)) ≡ []
        → IsQuiescent (run C.semantics es (first_world_of C.semantics C.meaning C.carries calls)) }
{}

/// The cluster serves in every world of a run: its agent keeps the start that it began with.
pub fn runs_serve<C: Carried>()
    ensures { (calls : List C.meaning.Call) (es : List Event)
        → IsRun C.semantics es (first_world_of C.semantics C.meaning C.carries calls)
        → serves (run C.semantics es (first_world_of C.semantics C.meaning C.carries calls)) ≡ true }
{}

#[cfg(test)]
mod tests {
    use crate::{
        Carried, events_are_of_them, quiescent_runs_are_sound, quiescent_where_nothing_is_enabled,
        runs_are_noted, runs_are_short, runs_serve,
    };

    struct Adding;

    impl Carried for Adding {
        ghost use Rattle.soundness.specs.Adding.{adding, adding_engine, adding_carried};

        ghost meaning = { adding };

        ghost semantics = { adding_engine };

        ghost carries = { adding_carried };
    }

    #[test]
    fn the_laws_hold_of_an_engine_that_adds() {
        quiescent_runs_are_sound::<Adding>();
        runs_are_short::<Adding>();
        runs_are_noted::<Adding>();
        events_are_of_them::<Adding>();
        quiescent_where_nothing_is_enabled::<Adding>();
        runs_serve::<Adding>();
    }
}
