//! Definitions that name what is in the catalog: indexes and partitionings.

ghost use Rattle.std.specs.Prelude.{◌≡◌, ◌⊎◌, ◌≤◌, Some, None, length, IfOk, IfErr, OnOk, OnErr};
ghost use Rattle.volt_catalog.specs.Catalog.{with_index};
ghost use Rattle.volt_catalog.specs.Rules as rules;
ghost use Rattle.ddl_define.specs.Names as spec;

use crate::columns::{byte_in, bytes_in};
use ddl_parse::{CreateIndex, PartitionTable};
use std::alloc::{AllocError, Global};
use volt_catalog::{Catalog, CatalogFault, Column, IndexDef};
use volt_value::Text;

/// The number of the table of a name. Where there is none, the number behind the last one.
fn table_number(catalog: &Catalog, name: &Text) -> u16
    ensures { result ≡ spec.table_number catalog.now name.now }
{
    match catalog.table(name) {
        Some(number) => number,
        None => catalog.tables().len() as u16,
    }
}

/// The columns of the table of a number, of which there are few. Where there is none, no columns.
fn columns_at(catalog: &Catalog, table: u16) -> &[Column]
    ensures columns { result.now ≡ spec.columns_at catalog.now table }
    ensures few { length result.now ≤ 32 }
{
    match catalog.tables().get(table as usize) {
        Some(table) => table.columns.as_slice(),
        None => &[],
    }
}

/// An index with its table and columns by their numbers.
#[tactic(auto, using(crate::proofs::NumberLemmas::bytes_in_few))]
fn index_from(alloc: Global, catalog: &Catalog, text: &CreateIndex) -> Result<IndexDef, AllocError>
    ensures { IfOk result (λ index. index ≡ spec.index_from catalog.now text.now) }
{
    let table = table_number(catalog, &text.table);
    Ok(IndexDef {
        name: Text::of(alloc, text.name.as_str())?,
        table,
        columns: bytes_in(alloc, columns_at(catalog, table), text.columns.as_slice())?,
        unique: text.unique,
    })
}

/// Adds an index to the catalog, as it is defined.
pub(crate) fn create_index(
    alloc: Global,
    catalog: &mut Catalog,
    text: &CreateIndex,
) -> Result<(), CatalogFault>
    ensures added { OnOk result (catalog.new ≡ with_index catalog.old (spec.index_from catalog.old text.now)) }
    ensures accepted { OnOk result (rules.fault_of_index catalog.old (spec.index_from catalog.old text.now) ≡ None) }
    ensures refused { IfErr result (λ fault.
        (fault ≡ CatalogFault.NoMemory) ⊎ (rules.fault_of_index catalog.old (spec.index_from catalog.old text.now) ≡ Some fault)) }
    ensures kept { OnErr result (catalog.new ≡ catalog.old) }
{
    let index = index_from(alloc, catalog, text)?;
    catalog.add_index(index)?;
    Ok(())
}

/// The number of a column of the table of a number.
fn column_number(catalog: &Catalog, table: u16, name: &Text) -> u8
    ensures { result ≡ spec.column_number catalog.now table name.now }
{
    byte_in(columns_at(catalog, table), name)
}

/// Partitions a table of the catalog.
pub(crate) fn partition(catalog: &mut Catalog, text: &PartitionTable) -> Result<(), CatalogFault>
    ensures made { OnOk result (catalog.new ≡ spec.partitioned catalog.old text.now) }
    ensures accepted { OnOk result (spec.fault_of_unused catalog.old text.now ≡ None) }
    ensures refused { IfErr result (λ fault. spec.fault_of_unused catalog.old text.now ≡ Some fault) }
    ensures kept { OnErr result (catalog.new ≡ catalog.old) }
{
    let table = table_number(catalog, &text.table);
    let column = column_number(catalog, table, &text.column);
    catalog.partition(table, column)
}
