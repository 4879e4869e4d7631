//! Where a program stands while a statement is on its way.

ghost use Rattle.std.specs.Prelude.{◌≡◌, ◌∷◌, [], IfOk, MatchOption};

use crate::turn::Turn;
use std::alloc::{AllocError, Global};
use std::collections::VecDeque;
use std::marker::Model;

/// The way from the program to the statement, seen as the list of its turns. It is empty at the
/// statement itself.
#[derive(Drop)]
pub(crate) struct Path {
    turns: VecDeque<Turn>,
}

impl Model for Path {
    ghost use Rattle.std.specs.Prelude.{List};
    ghost use Rattle.proc_run.specs.declared.turn.Turn.{Turn as OneTurn};

    ghost Value = { List OneTurn };

    ghost view = { λ p. p.turns.items };
}

impl Path {
    /// At the statement.
    pub(crate) fn here(alloc: Global) -> Path
        ensures { result ≡ [] }
    {
        Path {
            turns: VecDeque::new(alloc),
        }
    }

    /// The way with one turn before it.
    pub(crate) fn behind(self, turn: Turn) -> Result<Path, AllocError>
        ensures { IfOk result (λ path. path ≡ turn ∷ self) }
    {
        let mut turns = self.turns;
        turns.push_front(turn)?;
        Ok(Path { turns })
    }

    /// Takes the first turn.
    pub(crate) fn take(&mut self) -> Option<Turn>
        ensures { MatchOption result (self.old ≡ []) (λ turn. self.old ≡ turn ∷ self.new) }
    {
        self.turns.pop_front()
    }
}
