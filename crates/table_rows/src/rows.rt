//! The rows of a table with their indexes.

ghost use Rattle.std.specs.Prelude.{◌≡◌, ◌⊎◌, ◌<◌, None, Some, Ok, Err, true, false, is_some, length, IfOk, IfSome, IfNone, OnOk, OnErr, IfErr};
ghost use Rattle.std.specs.Option.{option_map, unwrap_or};
ghost use Rattle.std.specs.Prelude.{[], slice_get};
ghost use Rattle.std.specs.Int.{div_ceil};
ghost use Rattle.row_codec.specs.declared.fault.RowFault.{RowFault};
ghost use Rattle.row_codec.specs.Faults.{columns_fault};
ghost use Rattle.row_codec.specs.Packing.{row_of, IsTuple};
ghost use Rattle.table_rows.specs.Standing.{IsScanOf};
ghost use Rattle.table_rows.specs.Order.{row_key};
ghost use Rattle.table_rows.specs.Table.{no_rows, inserted, deleted, updated, row_fault, row_of_key, rows_between, primary_key, duplicate_if, has_like, CanInsert, CanUpdate, IsSchema, IsTable};

use crate::keyed::KeyedIndex;
use crate::row::{Row, Rows};
use crate::slots::Slots;
use crate::{changes, compact, keyed};
use cow_scan::CowScan;
use row_codec::{RowFault, RowLayout};
use std::alloc::{AllocError, Global};
use std::marker::Model;
use volt_catalog::ColumnNos;
use volt_index::Key;
use volt_value::Value;

/// The rows of a table. No two of them have the same values in the columns of one of its keys, where
/// NULL is like NULL; the first key is the primary one. It is seen as the table: its columns and keys,
/// and its rows in the order of the primary key.
///
/// A key given to a call is the spelling of its values. A change costs the logarithm of the number of
/// rows for each key.
#[derive(Drop)]
pub struct TableRows {
    alloc: Global,
    slots: Slots,
    indexes: Vec<KeyedIndex>,
}

impl Model for TableRows {
    ghost use Rattle.table_rows.specs.Table.{Table};
    ghost use Rattle.table_rows.specs.Standing.{standing_table, IsStanding};

    ghost Value = { Table };

    ghost view = { λ t. standing_table t.slots t.indexes.items };

    ghost invariant = { λ t. IsStanding t.slots t.indexes.items };
}

impl TableRows {
    /// A table without rows, of columns and keys.
    pub fn new(
        alloc: Global,
        layout: RowLayout,
        keys: Vec<ColumnNos>,
    ) -> Result<TableRows, AllocError>
        requires { IsSchema (record { fields = layout; keys = keys.items }) }
        ensures { IfOk result (λ table. table ≡ no_rows (record { fields = layout; keys = keys.items })) }
    {
        Ok(TableRows {
            alloc,
            slots: Slots::new(alloc, layout),
            indexes: keyed::indexes_of(alloc, keys)?,
        })
    }

    /// How its rows are packed, which tells its columns.
    pub fn layout(&self) -> &RowLayout
        ensures { result.now ≡ self.now.schema.fields }
    {
        self.slots.layout()
    }

    /// What holds of the table at any time. It does nothing.
    pub fn rules(&self)
        ensures { IsTable self.now }
    {
        self.slots.rules();
    }

    /// How many keys there are, one at least.
    pub fn keys(&self) -> usize
        ensures value { result ≡ length self.now.schema.keys }
        ensures some { 0 < result }
    {
        self.indexes.len()
    }

    /// The primary key of a row, spelled.
    pub fn key_of(&self, row: &[Value]) -> Result<Key, AllocError>
        ensures { IfOk result (λ key. key ≡ row_key (primary_key self.now.schema) row.now) }
    {
        keyed::first_key(self.alloc, self.indexes.as_slice(), row)
    }

    /// Puts a row in. It is refused, and the table stays as it was, for the first of these: NULL in a
    /// column that takes none, an integer out of its column's range, a text that is too long, and a
    /// row that has the same values in the columns of a key. `NoMemory` is free.
    pub fn insert(&mut self, row: &[Value]) -> Result<(), RowFault>
        requires { length row.now ≡ length self.old.schema.fields }
        ensures inserted { OnOk result (self.new ≡ inserted self.old row.now) }
        ensures back { OnOk result (deleted self.new (row_key (primary_key self.old.schema) row.now) ≡ self.old) }
        ensures accepted { OnOk result (row_fault self.old row.now ≡ None) }
        ensures refused { IfErr result (λ fault.
            (fault ≡ RowFault.NoMemory) ⊎ (row_fault self.old row.now ≡ Some fault)) }
        ensures judged { (fault : RowFault) → columns_fault self.old.schema.fields row.now ≡ Some fault → result ≡ Err fault }
        ensures kept { OnErr result (self.new ≡ self.old) }
    {
        let mut tuple = Vec::new(self.alloc);
        changes::pack(self.slots.layout(), row, &mut tuple)?;
        changes::put_in(
            &mut self.slots,
            self.indexes.as_mut_slice(),
            tuple.as_slice(),
        )
    }

    /// Takes out the row whose primary key this is, and answers whether there was one. Out of memory,
    /// the table stays as it was.
    pub fn delete(&mut self, key: &Key) -> Result<bool, AllocError>
        ensures deleted { OnOk result (self.new ≡ deleted self.old key.now) }
        ensures back { result ≡ Ok true → IfSome (row_of_key self.old key.now)
            (λ row. (inserted self.new row ≡ self.old) × CanInsert self.new row) }
        ensures held { IfOk result (λ held. held ≡ is_some (row_of_key self.old key.now)) }
        ensures kept { OnErr result (self.new ≡ self.old) }
    {
        match changes::place_of(&self.slots, self.indexes.as_slice(), key) {
            Some(place) => {
                changes::take_out(&mut self.slots, self.indexes.as_mut_slice(), place)?;
                Ok(true)
            }
            None => Ok(false),
        }
    }

    /// As `delete`, and gives the row that was taken out.
    pub fn take(&mut self, key: &Key) -> Result<Option<Vec<Value>>, AllocError>
        ensures taken { IfOk result (λ row. option_map (λ r. r.items) row ≡ row_of_key self.old key.now) }
        ensures deleted { OnOk result (self.new ≡ deleted self.old key.now) }
        ensures back { IfOk result (λ row. IfSome row
            (λ r. (inserted self.new r.items ≡ self.old) × CanInsert self.new r.items)) }
        ensures same { IfOk result (λ row. IfNone row (self.new ≡ self.old)) }
        ensures kept { OnErr result (self.new ≡ self.old) }
    {
        match changes::place_of(&self.slots, self.indexes.as_slice(), key) {
            Some(place) => {
                let row = self.slots.row(place).values(self.alloc)?;
                changes::take_out(&mut self.slots, self.indexes.as_mut_slice(), place)?;
                Ok(Some(row))
            }
            None => Ok(None),
        }
    }

    /// Puts a row in the place of the one whose primary key it has, and answers whether there was one.
    /// Where there was, it is refused, and the table stays as it was, for the first of the reasons of
    /// `insert`, with the other rows in mind. `NoMemory` is free.
    pub fn update(&mut self, key: &Key, row: &[Value]) -> Result<bool, RowFault>
        requires count { length row.now ≡ length self.old.schema.fields }
        requires stays { key.now ≡ row_key (primary_key self.old.schema) row.now }
        ensures held { IfOk result (λ held. held ≡ is_some (row_of_key self.old key.now)) }
        ensures updated { result ≡ Ok true → self.new ≡ updated self.old row.now }
        ensures back { result ≡ Ok true → IfSome (row_of_key self.old key.now)
            (λ row. (updated self.new row ≡ self.old) × CanUpdate self.new row) }
        ensures same { result ≡ Ok false → self.new ≡ self.old }
        ensures accepted { result ≡ Ok true → row_fault (deleted self.old key.now) row.now ≡ None }
        ensures refused { IfErr result (λ fault.
            (fault ≡ RowFault.NoMemory) ⊎ (row_fault (deleted self.old key.now) row.now ≡ Some fault)) }
        ensures missing { row_of_key self.old key.now ≡ None → result ≡ Ok false }
        ensures kept { OnErr result (self.new ≡ self.old) }
    {
        match changes::place_of(&self.slots, self.indexes.as_slice(), key) {
            Some(place) => {
                let mut tuple = Vec::new(self.alloc);
                changes::pack(self.slots.layout(), row, &mut tuple)?;
                changes::put_over(
                    &mut self.slots,
                    self.indexes.as_mut_slice(),
                    place,
                    tuple.as_slice(),
                )?;
                Ok(true)
            }
            None => Ok(false),
        }
    }

    /// As `update`, and gives the row that was there.
    pub fn replace(&mut self, key: &Key, row: &[Value]) -> Result<Option<Vec<Value>>, RowFault>
        requires count { length row.now ≡ length self.old.schema.fields }
        requires stays { key.now ≡ row_key (primary_key self.old.schema) row.now }
        ensures held { IfOk result (λ old. option_map (λ r. r.items) old ≡ row_of_key self.old key.now) }
        ensures updated { IfOk result (λ old. IfSome old (λ _. self.new ≡ updated self.old row.now)) }
        ensures back { IfOk result (λ old. IfSome old
            (λ r. (updated self.new r.items ≡ self.old) × CanUpdate self.new r.items)) }
        ensures same { IfOk result (λ old. IfNone old (self.new ≡ self.old)) }
        ensures accepted { IfOk result (λ old. IfSome old
            (λ _. row_fault (deleted self.old key.now) row.now ≡ None)) }
        ensures refused { IfErr result (λ fault.
            (fault ≡ RowFault.NoMemory) ⊎ (row_fault (deleted self.old key.now) row.now ≡ Some fault)) }
        ensures missing { row_of_key self.old key.now ≡ None → result ≡ Ok None }
        ensures kept { OnErr result (self.new ≡ self.old) }
    {
        match changes::place_of(&self.slots, self.indexes.as_slice(), key) {
            Some(place) => {
                let old = self.slots.row(place).values(self.alloc)?;
                let mut tuple = Vec::new(self.alloc);
                changes::pack(self.slots.layout(), row, &mut tuple)?;
                changes::put_over(
                    &mut self.slots,
                    self.indexes.as_mut_slice(),
                    place,
                    tuple.as_slice(),
                )?;
                Ok(Some(old))
            }
            None => Ok(None),
        }
    }

    /// The row whose primary key this is.
    pub fn get(&self, key: &Key) -> Option<Row<'_>>
        ensures { result ≡ row_of_key self.now key.now }
    {
        match changes::place_of(&self.slots, self.indexes.as_slice(), key) {
            Some(place) => Some(self.slots.row(place)),
            None => None,
        }
    }

    /// The rows at the keys of a number, counted from 0, from one on, which counts, and before
    /// another, which doesn't, in their order. A missing key bounds nothing. It takes no memory, and
    /// costs what it gives.
    pub fn range(&self, number: usize, from: Option<&Key>, to: Option<&Key>) -> Rows<'_>
        requires { number < length self.now.schema.keys }
        ensures { result ≡ rows_between (unwrap_or (slice_get self.now.schema.keys number) [])
            (option_map (λ key. key.now) from.entry) (option_map (λ key. key.now) to.entry) self.now }
    {
        self.slots.rules();
        Rows {
            slots: &self.slots,
            places: self.indexes[number].index.range(from, to),
        }
    }

    /// Moves the rows to the first places, and answers in how many blocks they stand then: one for each 64
    /// rows or part of them. The table is the same after it, also where it runs out of memory; then some
    /// rows may have moved.
    pub fn compact(&mut self) -> Result<u32, AllocError>
        ensures blocks { IfOk result (λ blocks. blocks ≡ div_ceil (length self.old.rows) 64) }
        ensures kept { self.new ≡ self.old }
    {
        compact::compact(&mut self.slots, self.indexes.as_mut_slice())?;
        Ok(self.slots.blocks())
    }

    /// A scan whose blocks have the rows as they stand, at the first places, whatever is changed later.
    /// Rows that stand elsewhere move there first, as by `compact`; no other row is copied. The table is
    /// the same after it, also where it runs out of memory.
    pub fn share(&mut self) -> Result<CowScan, AllocError>
        ensures scan { IfOk result (IsScanOf self.old) }
        ensures kept { self.new ≡ self.old }
    {
        compact::compact(&mut self.slots, self.indexes.as_mut_slice())?;
        self.slots.share()
    }
}
