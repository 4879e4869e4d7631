//! How far steps went.

ghost use Rattle.std.specs.Prelude.{◌≡◌, IfOk};
ghost use Rattle.proc_run.specs.Running as spec;

use crate::path::Path;
use crate::turn::Turn;
use sql_plan::{Cause, Rows};
use std::alloc::AllocError;
use volt_value::Value;

/// How far steps went.
#[derive(Drop)]
pub(crate) enum Went {
    /// To their end.
    On,
    /// To a statement, by its number, that is asked with arguments. The path leads to it.
    Asks {
        statement: u16,
        args: Vec<Value>,
        path: Path,
    },
    /// To a RETURN.
    Returns(Rows),
    /// To where the call is aborted.
    Aborts(Cause),
}

impl Went {
    pub(crate) fn is_on(&self) -> bool
        ensures { result ≡ spec.is_on self.now }
    {
        match self {
            Went::On => true,
            _ => false,
        }
    }

    /// The same, where those steps stand behind a turn.
    pub(crate) fn behind(self, turn: Turn) -> Result<Went, AllocError>
        ensures { IfOk result (λ went. went ≡ spec.behind turn self) }
    {
        match self {
            Went::Asks {
                statement,
                args,
                path,
            } => Ok(Went::Asks {
                statement,
                args,
                path: path.behind(turn)?,
            }),
            other => Ok(other),
        }
    }
}
