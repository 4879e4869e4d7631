//! The steps.

ghost use Rattle.std.specs.Prelude.{◌≡◌, ◌+◌, ◌-◌, ◌<◌, ◌≤◌, ◌↔◌, [], ◌∷◌, ◌++◌, take, length, IsSome, IfSome, IfNone, OnOk, OnErr};

use crate::mark::Mark;
use std::alloc::{AllocError, Global};
use std::marker::Model;

/// Steps, each of which undoes a change, the newest last. It is seen as the list of them and the
/// number of steps for which it has room: a step is noted in room that was made before.
#[derive(Drop)]
pub struct Undo<T> {
    steps: Vec<T>,
}

impl<T> Model for Undo<T> {
    ghost use Rattle.std.specs.Prelude.{◌-◌, vec_len};
    ghost use Rattle.std.specs.Vec.{vec_capacity};
    ghost use Rattle.undo_log.specs.Log.{Log};

    ghost Value = { Log T };

    ghost view = { λ u. record { steps = u.steps.items; room = vec_capacity u.steps - vec_len u.steps } };
}

impl<T> Undo<T> {
    /// No steps, and no room.
    pub fn new(alloc: Global) -> Undo<T>
        ensures { result.steps ≡ [] }
    {
        Undo {
            steps: Vec::new(alloc),
        }
    }

    /// The steps.
    pub fn steps(&self) -> &[T]
        ensures { result.now ≡ self.now.steps }
    {
        self.steps.as_slice()
    }

    /// The mark above all steps that there are. It takes no memory.
    pub fn mark(&self) -> Mark
        ensures { result ≡ length self.now.steps }
    {
        Mark::above(self.steps.len())
    }

    /// Makes room for so many more steps. Without memory it keeps the room that it has.
    pub fn reserve(&mut self, steps: usize) -> Result<(), AllocError>
        ensures room { OnOk result (steps ≤ self.new.room) }
        ensures steps { self.new.steps ≡ self.old.steps }
        ensures keeps { self.old.room ≤ self.new.room }
        ensures kept { OnErr result (self.new ≡ self.old) }
    {
        self.steps.reserve(steps)
    }

    /// Notes a step in room that was made for it. It takes no memory.
    pub fn note(&mut self, step: T)
        requires { 0 < self.old.room }
        ensures steps { self.new.steps ≡ self.old.steps ++ step ∷ [] }
        ensures room { self.new.room + 1 ≡ self.old.room }
    {
        self.steps.push_reserved(step);
    }

    /// Takes the newest step above a mark out. `None` comes exactly where none is above it. It takes
    /// no memory, and the room is there again.
    pub fn roll_back(&mut self, mark: Mark) -> Option<T>
        ensures variant { IsSome result ↔ (mark < length self.old.steps) }
        ensures newest { IfSome result (λ step. self.old.steps ≡ self.new.steps ++ step ∷ []) }
        ensures room { IfSome result (λ _. self.new.room ≡ self.old.room + 1) }
        ensures none { IfNone result (self.new ≡ self.old) }
    {
        if self.steps.len() > mark.below() {
            self.steps.pop()
        } else {
            None
        }
    }
}

impl<T: Drop> Undo<T> {
    /// Drops the steps above a mark. It takes no memory, and their room is there again.
    pub fn release(&mut self, mark: Mark)
        ensures steps { self.new.steps ≡ take mark self.old.steps }
        ensures room { self.new.room ≡ self.old.room + (length self.old.steps - mark) }
    {
        self.steps.truncate(mark.below());
    }
}
