//! An index of a table with the keys of the row that changes.

ghost use Rattle.std.specs.Prelude.{◌≡◌, ◌⊎◌, ◌++◌, Some, true, false, map, IfOk, OnOk, OnErr, IfErr};
ghost use Rattle.std.specs.Prelude.{slice_get};
ghost use Rattle.std.specs.Option.{unwrap_or};
ghost use Rattle.std.specs.List.{list_all, list_any};
ghost use Rattle.volt_value.specs.declared.value.Value.TheVariants.{Null};
ghost use Rattle.volt_index.specs.Keys.{value_key};
ghost use Rattle.row_codec.specs.Packing.{row_of, IsTuple};
ghost use Rattle.row_codec.specs.Seen.{seen};
ghost use Rattle.table_rows.specs.Order.{row_key};
ghost use Rattle.table_rows.specs.Table.{first_of, has_columns, duplicate_if};
ghost use Rattle.table_rows.specs.Standing as standing;
ghost use Rattle.table_rows.specs.Keyed.{new_index, coming, going, compared, entered, backed_out, left, relocated, is_taken, kept};

use row_codec::{Cell, RowFault, RowLayout};
use std::alloc::{AllocError, Global};
use volt_catalog::ColumnNos;
use volt_index::{Index, IndexFault, Key};
use volt_value::Value;

/// The index of a key's columns, and beside it what a change of one row does to it.
#[derive(Drop)]
pub(crate) struct KeyedIndex {
    pub(crate) columns: ColumnNos,
    pub(crate) index: Index,
    // the row's key after the change, and before it
    pub(crate) fresh: Key,
    pub(crate) stale: Key,
    // whether the change is one of this index
    pub(crate) changes: bool,
}

/// Adds a value to a key.
fn push(key: &mut Key, cell: Cell<'_>) -> Result<(), AllocError>
    ensures { OnOk result (key.new ≡ key.old ++ value_key (seen cell.entry)) }
{
    match cell {
        Cell::Null => key.push_null(),
        Cell::Int(n) => key.push_integer(n),
        Cell::Text(text) => key.push_text(text),
    }
}

/// Makes a key that of a tuple in some columns.
fn spell(key: &mut Key, layout: &RowLayout, columns: &[u8], tuple: &[u8]) -> Result<(), AllocError>
    requires columns { has_columns layout.now columns.now ≡ true }
    requires tuple { IsTuple layout.now tuple.now }
    ensures { OnOk result (key.new ≡ row_key columns.now (row_of layout.now tuple.now)) }
{
    key.clear();
    let mut left = columns;
    while let [column, rest @ ..] = left {
        push(key, layout.cell(tuple, *column))?;
        left = rest;
    }
    Ok(())
}

/// Adds a row's value in a column to a key.
fn push_value(key: &mut Key, row: &[Value], column: u8) -> Result<(), AllocError>
    ensures { OnOk result (key.new ≡ key.old ++ value_key (unwrap_or (slice_get row.now column) Null)) }
{
    match row.get(column as usize) {
        Some(value) => key.push(value),
        None => key.push_null(),
    }
}

/// A row's values in some columns, spelled.
fn key_in(alloc: Global, columns: &[u8], row: &[Value]) -> Result<Key, AllocError>
    ensures { IfOk result (λ key. key ≡ row_key columns.now row.now) }
{
    let mut key = Key::new(alloc);
    let mut left = columns;
    while let [column, rest @ ..] = left {
        push_value(&mut key, row, *column)?;
        left = rest;
    }
    Ok(key)
}

/// A row's values in the columns of the first index, spelled.
pub(crate) fn first_key(
    alloc: Global,
    indexes: &[KeyedIndex],
    row: &[Value],
) -> Result<Key, AllocError>
    ensures { IfOk result (λ key. key ≡ row_key (first_of (standing.keys_of indexes.now)) row.now) }
{
    match indexes {
        [first, ..] => key_in(alloc, first.columns.as_slice(), row),
        [] => Ok(Key::new(alloc)),
    }
}

impl KeyedIndex {
    /// The index of no rows.
    pub(crate) fn new(alloc: Global, columns: ColumnNos) -> KeyedIndex
        ensures { result ≡ new_index columns }
    {
        KeyedIndex {
            columns,
            index: Index::new(alloc, true),
            fresh: Key::new(alloc),
            stale: Key::new(alloc),
            changes: false,
        }
    }

    /// Tells it the tuple that comes.
    fn come(&mut self, layout: &RowLayout, tuple: &[u8]) -> Result<(), AllocError>
        requires columns { has_columns layout.now self.old.columns ≡ true }
        requires tuple { IsTuple layout.now tuple.now }
        ensures told { OnOk result (self.new ≡ coming (row_of layout.now tuple.now) self.old) }
        ensures kept { kept self.new ≡ kept self.old }
    {
        spell(&mut self.fresh, layout, self.columns.as_slice(), tuple)?;
        self.changes = true;
        Ok(())
    }

    /// Tells it the tuple that goes.
    fn go(&mut self, layout: &RowLayout, tuple: &[u8]) -> Result<(), AllocError>
        requires columns { has_columns layout.now self.old.columns ≡ true }
        requires tuple { IsTuple layout.now tuple.now }
        ensures told { OnOk result (self.new ≡ going (row_of layout.now tuple.now) self.old) }
        ensures kept { kept self.new ≡ kept self.old }
    {
        spell(&mut self.stale, layout, self.columns.as_slice(), tuple)?;
        self.changes = true;
        Ok(())
    }

    /// Puts a place at the fresh key, where this index changes.
    fn enter(&mut self, place: u32) -> Result<(), RowFault>
        ensures entered { OnOk result (self.new ≡ entered place self.old) }
        ensures free { OnOk result (is_taken self.old ≡ false) }
        ensures refused { IfErr result (λ fault.
            (fault ≡ RowFault.NoMemory) ⊎ (duplicate_if (is_taken self.old) ≡ Some fault)) }
        ensures kept { OnErr result (self.new ≡ self.old) }
    {
        if !self.changes {
            return Ok(());
        }
        match self.index.insert(&self.fresh, place) {
            Ok(()) => Ok(()),
            Err(IndexFault::Duplicate(_)) => Err(RowFault::Duplicate),
            Err(IndexFault::NoMemory) => Err(RowFault::NoMemory),
        }
    }

    /// Takes it from there again.
    fn back_out(&mut self, place: u32)
        ensures { self.new ≡ backed_out place self.old }
    {
        if self.changes {
            let _held = self.index.remove(&mut self.fresh, place);
        }
    }

    /// Takes a place from the stale key, where this index changes.
    fn leave(&mut self, place: u32)
        ensures { self.new ≡ left place self.old }
    {
        if self.changes {
            let _held = self.index.remove(&mut self.stale, place);
        }
    }

    /// Puts another place at the stale key.
    fn relocate(&mut self, place: u32)
        requires { self.old.index.unique ≡ true }
        ensures { self.new ≡ relocated place self.old }
    {
        let _held = self.index.set_place(&self.stale, place);
    }
}

/// An index of no rows for each key.
pub(crate) fn indexes_of(alloc: Global, keys: Vec<ColumnNos>) -> Result<Vec<KeyedIndex>, AllocError>
    ensures { IfOk result (λ indexes. indexes.items ≡ map new_index keys.items) }
{
    let mut indexes = Vec::with_capacity(alloc, keys.len())?;
    for columns in keys {
        indexes.push_reserved(KeyedIndex::new(alloc, columns));
    }
    Ok(indexes)
}

/// The place at a key of the first index.
pub(crate) fn first_place(indexes: &[KeyedIndex], key: &Key) -> Option<u32>
    ensures { result ≡ standing.first_place key.now indexes.now }
{
    match indexes {
        [first, ..] => first.index.get(key),
        [] => None,
    }
}

/// Tells each index the tuple that comes.
pub(crate) fn come(
    indexes: &mut [KeyedIndex],
    layout: &RowLayout,
    tuple: &[u8],
) -> Result<(), AllocError>
    requires columns { list_all (has_columns layout.now) (map (λ k. k.columns) indexes.old) ≡ true }
    requires tuple { IsTuple layout.now tuple.now }
    ensures told { OnOk result (indexes.new ≡ map (coming (row_of layout.now tuple.now)) indexes.old) }
    ensures kept { map kept indexes.new ≡ map kept indexes.old }
{
    let Some((first, rest)) = indexes.split_first_mut() else {
        return Ok(());
    };
    first.come(layout, tuple)?;
    come(rest, layout, tuple)
}

/// Tells each index the tuple that goes.
pub(crate) fn go(
    indexes: &mut [KeyedIndex],
    layout: &RowLayout,
    tuple: &[u8],
) -> Result<(), AllocError>
    requires columns { list_all (has_columns layout.now) (map (λ k. k.columns) indexes.old) ≡ true }
    requires tuple { IsTuple layout.now tuple.now }
    ensures told { OnOk result (indexes.new ≡ map (going (row_of layout.now tuple.now)) indexes.old) }
    ensures kept { map kept indexes.new ≡ map kept indexes.old }
{
    let Some((first, rest)) = indexes.split_first_mut() else {
        return Ok(());
    };
    first.go(layout, tuple)?;
    go(rest, layout, tuple)
}

/// Lets only those indexes change of which the two keys differ.
pub(crate) fn compare(indexes: &mut [KeyedIndex])
    ensures compared { indexes.new ≡ map compared indexes.old }
    ensures kept { map kept indexes.new ≡ map kept indexes.old }
{
    let Some((first, rest)) = indexes.split_first_mut() else {
        return;
    };
    first.changes = first.fresh != first.stale;
    compare(rest);
}

/// Puts the place at the fresh key of each index that changes. Where one takes it not, none does.
pub(crate) fn enter(indexes: &mut [KeyedIndex], place: u32) -> Result<(), RowFault>
    requires { list_all (λ k. k.index.unique) indexes.old ≡ true }
    ensures entered { OnOk result (indexes.new ≡ map (entered place) indexes.old) }
    ensures free { OnOk result (list_any is_taken indexes.old ≡ false) }
    ensures refused { IfErr result (λ fault.
        (fault ≡ RowFault.NoMemory) ⊎ (duplicate_if (list_any is_taken indexes.old) ≡ Some fault)) }
    ensures kept { OnErr result (indexes.new ≡ indexes.old) }
{
    let Some((first, rest)) = indexes.split_first_mut() else {
        return Ok(());
    };
    first.enter(place)?;
    let done = enter(rest, place);
    if done.is_err() {
        first.back_out(place);
    }
    done
}

/// Takes the place from the fresh key of each index that changes, where `enter` put it.
pub(crate) fn back_out(indexes: &mut [KeyedIndex], place: u32)
    ensures { indexes.new ≡ map (backed_out place) indexes.old }
{
    let Some((first, rest)) = indexes.split_first_mut() else {
        return;
    };
    first.back_out(place);
    back_out(rest, place);
}

/// Takes a place from the stale key of each index that changes.
pub(crate) fn leave(indexes: &mut [KeyedIndex], place: u32)
    ensures { indexes.new ≡ map (left place) indexes.old }
{
    let Some((first, rest)) = indexes.split_first_mut() else {
        return;
    };
    first.leave(place);
    leave(rest, place);
}

/// Puts another place at the stale key of each index. It takes no memory.
pub(crate) fn relocate(indexes: &mut [KeyedIndex], place: u32)
    requires { list_all (λ k. k.index.unique) indexes.old ≡ true }
    ensures { indexes.new ≡ map (relocated place) indexes.old }
{
    let Some((first, rest)) = indexes.split_first_mut() else {
        return;
    };
    first.relocate(place);
    relocate(rest, place);
}
