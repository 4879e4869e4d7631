//! The tables of a catalog.

ghost use Rattle.std.specs.Prelude.{◌≡◌, ◌∷◌, ◌==◌, IfOk};
ghost use Rattle.std.specs.List.{list_any};
ghost use Rattle.table_rows.specs.Table.{no_rows, IsSchema};
ghost use Rattle.table_store.specs.Schemas as schemas;

use row_codec::{Field, RowLayout};
use std::alloc::{AllocError, Global};
use table_rows::TableRows;
use volt_catalog::{Column, ColumnNos, IndexDef, Table};

/// Whether a number is among these.
fn has_number(numbers: &[u8], number: usize) -> bool
    ensures { result ≡ list_any (λ other. other == number) numbers.now }
{
    numbers.iter().any(|other| *other as usize == number)
}

/// A column of a number, of a table with this primary key, as its rows are packed.
#[tactic(auto, unfolding(crate::specs::Schemas::field_at))]
fn field_of(key: &[u8], number: usize, column: &Column) -> Field
    ensures { result ≡ schemas.field_at number key.now column.now }
{
    Field {
        kind: column.kind,
        not_null: column.not_null || has_number(key, number),
    }
}

/// A table's columns as its rows are packed.
fn fields_of(alloc: Global, table: &Table) -> Result<Vec<Field>, AllocError>
    ensures { IfOk result (λ fields. fields.items ≡ schemas.fields_from 0 table.now.key table.now.columns) }
{
    let mut fields = Vec::new(alloc);
    let mut left = table.columns.as_slice();
    let mut number = 0usize;
    while let [column, rest @ ..] = left {
        fields.push(field_of(table.key.as_slice(), number, column))?;
        number += 1;
        left = rest;
    }
    Ok(fields)
}

/// The key of an index of a table with this primary key.
fn index_key(alloc: Global, key: &[u8], index: &IndexDef) -> Result<ColumnNos, AllocError>
    ensures { IfOk result (λ columns. columns ≡ schemas.index_key key.now index.now) }
{
    let mut columns = Vec::from_slice(alloc, index.columns.as_slice())?;
    if !index.unique {
        columns.extend_from_slice(key)?;
    }
    Ok(ColumnNos::from_vec(columns))
}

/// The keys of a table.
fn keys_of(
    alloc: Global,
    number: u16,
    key: &[u8],
    indexes: &[IndexDef],
) -> Result<Vec<ColumnNos>, AllocError>
    ensures { IfOk result (λ keys. keys.items ≡ key.now ∷ schemas.index_keys number key.now indexes.now) }
{
    let mut keys = Vec::new(alloc);
    keys.push(ColumnNos::from_vec(Vec::from_slice(alloc, key)?))?;
    let mut left = indexes;
    while let [index, rest @ ..] = left {
        if index.table == number {
            keys.push(index_key(alloc, key, index)?)?;
        }
        left = rest;
    }
    Ok(keys)
}

/// The table of a number, without rows.
pub(crate) fn empty_table(
    alloc: Global,
    number: u16,
    table: &Table,
    indexes: &[IndexDef],
) -> Result<TableRows, AllocError>
    requires { IsSchema (schemas.schema_of number table.now indexes.now) }
    ensures { IfOk result (λ rows. rows ≡ no_rows (schemas.schema_of number table.now indexes.now)) }
{
    let layout = RowLayout::new(alloc, fields_of(alloc, table)?)?;
    TableRows::new(
        alloc,
        layout,
        keys_of(alloc, number, table.key.as_slice(), indexes)?,
    )
}
