//! Rows read where they stand.

ghost use Rattle.std.specs.Prelude.{◌≡◌, ◌<◌, ◌↔◌, Some, length, map, slice_get, IfOk, IsSome, IsTrue};
ghost use Rattle.std.specs.Option.{unwrap_or};
ghost use Rattle.std.specs.Iterator.{YieldsFirst, item_count};
ghost use Rattle.volt_value.specs.declared.value.Value.TheVariants.{Null};
ghost use Rattle.row_codec.specs.Packing.{row_of, IsTuple};
ghost use Rattle.row_codec.specs.Seen.{seen};
ghost use Rattle.table_rows.specs.Held.{row_at};

use crate::slots::Slots;
use row_codec::{Cell, RowLayout};
use std::alloc::{AllocError, Global};
use std::marker::Model;
use volt_index::IndexRange;
use volt_value::Value;

/// A row of a table, read where it stands. It is seen as the list of its values.
#[derive(Drop)]
pub struct Row<'a> {
    pub(crate) layout: &'a RowLayout,
    pub(crate) tuple: &'a [u8],
}

impl<'a> Model for Row<'a> {
    ghost use Rattle.table_rows.specs.Held.{RowValues};
    ghost use Rattle.row_codec.specs.Packing.{row_of, IsTuple};

    ghost Value = { RowValues };

    ghost view = { λ r. row_of r.layout.now r.tuple.now };

    ghost invariant = { λ r. IsTuple r.layout.now r.tuple.now };
}

impl<'a> Row<'a> {
    /// How many values there are.
    pub fn len(&self) -> usize
        ensures { result ≡ length self.now }
    {
        self.layout.fields().len()
    }

    /// Whether there are none.
    pub fn is_empty(&self) -> bool
        ensures { IsTrue result ↔ (length self.now ≡ 0) }
    {
        self.len() == 0
    }

    /// The value of a column.
    pub fn cell(&self, column: u8) -> Cell<'a>
        requires { column < length self.now }
        ensures { seen result ≡ unwrap_or (slice_get self.now column) Null }
    {
        self.layout.cell(self.tuple, column)
    }

    /// The values. They are copied.
    pub fn values(&self, alloc: Global) -> Result<Vec<Value>, AllocError>
        ensures { IfOk result (λ values. values.items ≡ self.now) }
    {
        self.layout.unpack(alloc, self.tuple)
    }
}

/// Rows of a table in the order of a key, seen as the list of those that are left. It takes no memory.
#[derive(Drop)]
pub struct Rows<'a> {
    pub(crate) slots: &'a Slots,
    pub(crate) places: IndexRange<'a>,
}

impl<'a> Model for Rows<'a> {
    ghost use Rattle.std.specs.Prelude.{List};
    ghost use Rattle.std.specs.List.{AllByRecursion};
    ghost use Rattle.table_rows.specs.Held.{RowValues};
    ghost use Rattle.table_rows.specs.Standing.{rows_at, IsHeldAt};

    ghost Value = { List RowValues };

    ghost view = { λ r. rows_at r.slots.now.held r.places };

    ghost invariant = { λ r. AllByRecursion (IsHeldAt r.slots.now.held) r.places };
}

impl<'a> Iterator for Rows<'a> {
    type Item = Row<'a>;

    ghost next_gives = { YieldsFirst (λ rows. rows) };

    ghost remaining = { item_count (λ rows. rows) };

    fn next(&mut self) -> Option<Row<'a>> {
        match self.places.next() {
            Some(place) => Some(self.slots.row(place)),
            None => None,
        }
    }
}
