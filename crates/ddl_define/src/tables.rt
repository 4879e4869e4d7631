//! The definition of a table.

ghost use Rattle.std.specs.Prelude.{◌≡◌, ◌⊎◌, [], ◌∷◌, Some, None, map, IfOk, IfErr, OnOk, OnErr};
ghost use Rattle.volt_catalog.specs.Catalog.{with_table};
ghost use Rattle.ddl_define.specs.Columns.{columns_of};
ghost use Rattle.ddl_define.specs.Tables as spec;
ghost use Rattle.ddl_define.specs.Found as found;

use crate::columns::{byte_in, bytes_in, columns_of, number_in};
use ddl_parse::{CreateTable, TableItem};
use std::alloc::{AllocError, Global};
use volt_catalog::{Catalog, CatalogFault, Column, ColumnNos, Columns, Table};
use volt_value::Text;

/// Whether there is a column of each name.
fn have_columns(columns: &[Column], names: &[Text]) -> bool
    ensures { result ≡ found.are_known columns.now names.now }
{
    names
        .iter()
        .all(|name| number_in(columns, name) < columns.len())
}

/// Whether there is a column of each name of a primary key, where one is written.
fn has_key_columns(columns: &[Column], item: &TableItem) -> bool
    ensures { result ≡ found.are_known columns.now (found.names_in_key (spec.key_in item.now)) }
{
    match item {
        TableItem::Column(text) => {
            !text.primary_key || number_in(columns, &text.name) < columns.len()
        }
        TableItem::PrimaryKey { columns: names, .. } => have_columns(columns, names.as_slice()),
    }
}

/// Whether there is a column of each name of each primary key.
fn have_key_columns(columns: &[Column], items: &[TableItem]) -> bool
    ensures { result ≡ found.have_known_keys columns.now items.now }
{
    items.iter().all(|item| has_key_columns(columns, item))
}

/// The number of one column, as a list.
fn one_byte(alloc: Global, columns: &[Column], name: &Text) -> Result<ColumnNos, AllocError>
    ensures { IfOk result (λ numbers. numbers ≡ found.bytes_in columns.now (name.now ∷ [])) }
{
    let mut numbers = Vec::new(alloc);
    numbers.push(byte_in(columns, name))?;
    Ok(ColumnNos::from_vec(numbers))
}

/// The primary keys that are written, each as the numbers of its columns.
fn keys_of(
    alloc: Global,
    columns: &[Column],
    items: &[TableItem],
) -> Result<Vec<ColumnNos>, AllocError>
    ensures { IfOk result (λ keys. keys.items ≡ map (map found.byte_of) (spec.keys_of columns.now items.now)) }
{
    let mut keys = Vec::new(alloc);
    for item in items {
        match item {
            TableItem::Column(text) => {
                if text.primary_key {
                    keys.push(one_byte(alloc, columns, &text.name)?)?;
                }
            }
            TableItem::PrimaryKey { columns: names, .. } => {
                keys.push(bytes_in(alloc, columns, names.as_slice())?)?;
            }
        }
    }
    Ok(keys)
}

/// The key, where it is one alone; else one without columns.
fn only_key(alloc: Global, mut keys: Vec<ColumnNos>) -> ColumnNos
    ensures { result ≡ spec.only_key keys.items }
{
    if keys.len() == 1 {
        if let Some(key) = keys.pop() {
            return key;
        }
    }
    ColumnNos::from_vec(Vec::new(alloc))
}

/// A table that isn't partitioned.
fn table_with(
    alloc: Global,
    text: &CreateTable,
    columns: Vec<Column>,
    key: ColumnNos,
) -> Result<Table, AllocError>
    ensures { IfOk result (λ table. table ≡ found.table_with text.now columns.items key) }
{
    Ok(Table {
        name: Text::of(alloc, text.name.as_str())?,
        columns: Columns::from_vec(columns),
        key,
        part: None,
    })
}

/// The table that is defined, where its keys have known names. A number above 255 becomes 255.
fn asked_table(alloc: Global, text: &CreateTable, columns: Vec<Column>) -> Result<Table, AllocError>
    requires { columns.items ≡ columns_of text.now.items }
    ensures { IfOk result (λ table. table ≡ found.asked text.now) }
{
    let items = text.items.as_slice();
    let keys = keys_of(alloc, columns.as_slice(), items)?;
    table_with(alloc, text, columns, only_key(alloc, keys))
}

/// Refuses a table in whose keys a name is unknown, for another name where that is worse. The table
/// comes without a key, so that the catalog refuses it in any case.
fn refuse(catalog: &mut Catalog, table: Table) -> CatalogFault
    requires unpartitioned { table.part ≡ None }
    requires keyless { table.key ≡ [] }
    ensures fault { (result ≡ CatalogFault.NoMemory) ⊎ (result ≡ found.fault_of_unknown catalog.old table) }
    ensures kept { catalog.new ≡ catalog.old }
{
    match catalog.add_table(table) {
        Ok(_) | Err(CatalogFault::NoPrimaryKey) => CatalogFault::NoSuchName,
        Err(fault) => fault,
    }
}

/// Adds a table to the catalog, as it is defined.
///
/// It is refused, and the catalog stays as it was, for the first of these: `DuplicateName` where
/// there is a table of its name, or two of its columns have one name; `NoSuchName` where one of its
/// primary keys names what is no column of it; `NoPrimaryKey` where it hasn't exactly one primary
/// key; `TooMany` as in `Catalog::add_table`. `NoMemory` is free.
pub(crate) fn create_table(
    alloc: Global,
    catalog: &mut Catalog,
    text: &CreateTable,
) -> Result<(), CatalogFault>
    ensures added { OnOk result (catalog.new ≡ with_table catalog.old (spec.table_from text.now)) }
    ensures accepted { OnOk result (spec.fault_of_table catalog.old text.now ≡ None) }
    ensures refused { IfErr result (λ fault.
        (fault ≡ CatalogFault.NoMemory) ⊎ (spec.fault_of_table catalog.old text.now ≡ Some fault)) }
    ensures kept { OnErr result (catalog.new ≡ catalog.old) }
{
    let items = text.items.as_slice();
    let columns = columns_of(alloc, items)?;
    if !have_key_columns(columns.as_slice(), items) {
        let no_key = ColumnNos::from_vec(Vec::new(alloc));
        let table = table_with(alloc, text, columns, no_key)?;
        return Err(refuse(catalog, table));
    }
    let table = asked_table(alloc, text, columns)?;
    catalog.add_table(table)?;
    Ok(())
}
