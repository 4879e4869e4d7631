//! Rows that several places of a run hold.

ghost use Rattle.std.specs.Prelude.{◌≡◌, [], length, slice_get, IfOk, Option, Some, None};
ghost use Rattle.std.specs.Option.{option_copied};

use sql_plan::{Row, Rows};
use sqlite_items::Items;
use std::alloc::{AllocError, Global};
use std::marker::Model;
use std::sync::Arc;

/// The rows of a result, seen as their list. Whoever holds them holds the same rows: none is copied.
#[derive(Drop)]
pub(crate) struct SharedRows {
    /// `None` is without rows.
    held: Option<Arc<Rows>>,
}

impl Model for SharedRows {
    ghost use Rattle.std.specs.Prelude.{List};
    ghost use Rattle.std.specs.Option.{option_map};
    ghost use Rattle.std.specs.Arc.{arc_value};
    ghost use Rattle.sql_plan.specs.declared.row.Rows.{Rows as Held};
    ghost use Rattle.sql_plan.specs.Rows.{Cells};
    ghost use Rattle.proc_run.specs.Kept.{rows_in};

    ghost Value = { List Cells };

    ghost view = { λ s. rows_in (option_map (λ a. (arc_value {X = Held} a).rows) s.held) };
}

/// A copy of rows.
fn copied(alloc: Global, rows: &[Row]) -> Result<Rows, AllocError>
    ensures { IfOk result (λ copy. copy.rows ≡ rows.now) }
{
    let mut copies = Items::new(alloc);
    for row in rows {
        copies.push(Row::of(alloc, row.as_slice())?)?;
    }
    Ok(Rows { rows: copies })
}

impl SharedRows {
    /// No rows.
    pub(crate) fn none() -> SharedRows
        ensures { result ≡ [] }
    {
        SharedRows { held: None }
    }

    /// These rows.
    pub(crate) fn of(alloc: Global, rows: Rows) -> Result<SharedRows, AllocError>
        ensures { IfOk result (λ shared. shared ≡ rows.rows) }
    {
        Ok(SharedRows {
            held: Some(Arc::new(alloc, rows)?),
        })
    }

    /// The same rows once more.
    pub(crate) fn share(&self) -> Result<SharedRows, AllocError>
        ensures { IfOk result (λ shared. shared ≡ self.now) }
    {
        match &self.held {
            Some(rows) => Ok(SharedRows {
                held: Some(Arc::try_clone(rows)?),
            }),
            None => Ok(SharedRows::none()),
        }
    }

    /// How many there are.
    pub(crate) fn len(&self) -> usize
        ensures { result ≡ length self.now }
    {
        match &self.held {
            Some(rows) => rows.rows.len(),
            None => 0,
        }
    }

    /// The row of a number from 0.
    pub(crate) fn get(&self, number: usize) -> Option<&Row>
        ensures { option_copied result ≡ slice_get self.now number }
    {
        match &self.held {
            Some(rows) => rows.rows.get(number),
            None => None,
        }
    }

    /// The rows. They are copied only where they are held elsewhere too.
    pub(crate) fn into_rows(self, alloc: Global) -> Result<Rows, AllocError>
        ensures { IfOk result (λ rows. rows.rows ≡ self) }
    {
        let Some(shared) = self.held else {
            return Ok(Rows {
                rows: Items::new(alloc),
            });
        };
        match Arc::try_unwrap(shared) {
            Ok(rows) => Ok(rows),
            Err(shared) => copied(alloc, shared.rows.as_slice()),
        }
    }
}
