//! Tables and columns by their names.

ghost use Rattle.std.specs.Prelude.{◌≡◌};
ghost use Rattle.sql_resolve.specs.Tables as tables;

use crate::names::is_same;
use volt_catalog::{Catalog, Column, Table};
use volt_value::{Class, Text};

/// The table of a name, with its number.
pub fn table_named<'a>(catalog: &'a Catalog, name: &Text) -> Option<(u16, &'a Table)>
    ensures { tables.seen_table result ≡ tables.table_named catalog.now name.now }
{
    match catalog.table(name) {
        Some(number) => match catalog.tables().get(number as usize) {
            Some(table) => Some((number, table)),
            None => None,
        },
        None => None,
    }
}

/// The number of the column of a name.
pub fn number_of(columns: &[Column], name: &Text) -> Option<usize>
    ensures { result ≡ tables.number_of columns.now name.now }
{
    columns
        .iter()
        .position(|column| is_same(name, &column.name))
}

/// The class of a column.
pub fn class_at(columns: &[Column], number: usize) -> Class
    ensures { result ≡ tables.class_at columns.now number }
{
    match columns.get(number) {
        Some(column) => column.kind.class(),
        None => Class::Int,
    }
}
