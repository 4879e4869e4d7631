//! The row that a FOR is at.

ghost use Rattle.std.specs.Prelude.{◌≡◌, [], slice_get, IfOk, Option, Some, None};
ghost use Rattle.sql_meaning.specs.Values.{at};
ghost use Rattle.sql_meaning.specs.Programs.{cells_at};
ghost use Rattle.expr_eval.specs.Shown.{shown};

use crate::shared::SharedRows;
use expr_eval::Seen;
use std::marker::Model;

/// A row among those of a result, seen as its values. Where there is none of its number it is seen as
/// a row without values.
#[derive(Drop)]
pub(crate) struct RowAt {
    rows: SharedRows,
    number: usize,
}

impl Model for RowAt {
    ghost use Rattle.sql_plan.specs.Rows.{Cells};
    ghost use Rattle.sql_meaning.specs.Programs.{cells_at};

    ghost Value = { Cells };

    ghost view = { λ r. cells_at r.rows r.number };
}

/// A value of one of these rows: NULL where it isn't there.
pub(crate) fn value_in(rows: &SharedRows, number: usize, column: usize) -> Seen<'_>
    ensures { shown result ≡ at (cells_at rows.now number) column }
{
    match rows.get(number) {
        Some(row) => Seen::at(row.as_slice(), column),
        None => Seen::Null,
    }
}

impl RowAt {
    /// No row.
    pub(crate) fn none() -> RowAt
        ensures { result ≡ [] }
    {
        RowAt {
            rows: SharedRows::none(),
            number: 0,
        }
    }

    /// The row of a number from 0.
    pub(crate) fn of(rows: SharedRows, number: usize) -> RowAt
        ensures { result ≡ cells_at rows number }
    {
        RowAt { rows, number }
    }

    /// The value in a column: NULL where it isn't there.
    pub(crate) fn value(&self, column: usize) -> Seen<'_>
        ensures { shown result ≡ at self.now column }
    {
        value_in(&self.rows, self.number, column)
    }
}
