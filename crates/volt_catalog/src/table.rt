//! Tables and indexes.

ghost use Rattle.std.specs.Prelude.{◌≡◌, ◌==◌, map, IfOk};
ghost use Rattle.std.specs.List.{list_any};
ghost use Rattle.volt_catalog.specs.Names.{differ};
ghost use Rattle.volt_catalog.specs.Rules as rules;

use crate::column::{Column, ColumnNos, Columns};
use crate::fault::CatalogFault;
use crate::names::Names;
use std::alloc::{AllocError, Global};
use volt_value::Text;

/// A table.
#[derive(Debug, Drop)]
pub struct Table {
    /// The name as it was written. Names are compared without ASCII case.
    pub name: Text,
    /// Its columns in their order, numbered from 0.
    pub columns: Columns,
    /// The columns of its primary key in the key's order. A column may be there twice.
    pub key: ColumnNos,
    /// The partitioning column. `None` for a table of which each partition has all rows.
    pub part: Option<u8>,
}

/// An index of a table.
#[derive(Debug, Drop)]
pub struct IndexDef {
    /// The name as it was written. Names are compared without ASCII case.
    pub name: Text,
    /// The number of its table.
    pub table: u16,
    /// Its columns in the index's order, one at least. A column may be there twice.
    pub columns: ColumnNos,
    /// Whether no two rows may agree on its columns.
    pub unique: bool,
}

/// Whether no two columns have one name.
pub(crate) fn have_names_of_their_own(alloc: Global, columns: &[Column]) -> Result<bool, AllocError>
    ensures { IfOk result (λ own. own ≡ differ (map (λ column. column.name) columns.now)) }
{
    let mut names = Names::new(alloc);
    for column in columns {
        if !names.add(alloc, column.name.as_str())? {
            return Ok(false);
        }
    }
    Ok(true)
}

/// Whether a table with these columns has one of each number.
pub(crate) fn has_columns(columns: &[Column], numbers: &[u8]) -> bool
    ensures { result ≡ rules.has_columns columns.now numbers.now }
{
    numbers
        .iter()
        .all(|number| (*number as usize) < columns.len())
}

/// Whether a number is among these.
fn has_number(numbers: &[u8], number: u8) -> bool
    ensures { result ≡ list_any (λ other. other == number) numbers.now }
{
    numbers.iter().any(|other| *other == number)
}

/// Whether columns of these numbers are without the partitioning column, where there is one.
pub(crate) fn lack_part(numbers: &[u8], part: Option<u8>) -> bool
    ensures { result ≡ rules.lack_part numbers.now part }
{
    match part {
        None => false,
        Some(part) => !has_number(numbers, part),
    }
}

/// Whether a unique index of a table is without a column.
fn has_unique_without(indexes: &[IndexDef], table: u16, column: u8) -> bool
    ensures { result ≡ list_any (rules.is_unique_without table column) indexes.now }
{
    indexes
        .iter()
        .any(|index| index.is_unique_without(table, column))
}

impl Table {
    /// Whether a column may be NULL: it is neither written NOT NULL nor in the primary key.
    fn may_be_null(&self, column: u8) -> bool
        ensures { result ≡ rules.may_be_null self.now column }
    {
        let is_not_null = match self.columns.as_slice().get(column as usize) {
            Some(column) => column.not_null,
            None => false,
        };
        lack_part(self.key.as_slice(), Some(column)) && !is_not_null
    }

    /// Why this table, which has a number, can't be partitioned on a column, beside these indexes.
    pub(crate) fn fault_of_part(
        &self,
        indexes: &[IndexDef],
        number: u16,
        column: u8,
    ) -> Option<CatalogFault>
        ensures { result ≡ rules.fault_of_part indexes.now number column self.now }
    {
        if self.part.is_some() {
            Some(CatalogFault::DuplicateName)
        } else if column as usize >= self.columns.as_slice().len() {
            Some(CatalogFault::NoSuchName)
        } else if self.may_be_null(column) {
            Some(CatalogFault::NullablePartitionColumn)
        } else if lack_part(self.key.as_slice(), Some(column))
            || has_unique_without(indexes, number, column)
        {
            Some(CatalogFault::KeyLacksPartitionColumn)
        } else {
            None
        }
    }
}

impl IndexDef {
    /// Whether this is a unique index of a table without a column.
    fn is_unique_without(&self, table: u16, column: u8) -> bool
        ensures { result ≡ rules.is_unique_without table column self.now }
    {
        self.table == table && self.unique && lack_part(self.columns.as_slice(), Some(column))
    }
}
