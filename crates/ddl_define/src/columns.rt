//! Columns: those that a table's definition has, and their numbers by their names.

ghost use Rattle.std.specs.Prelude.{◌≡◌, ◌≤◌, min, nat_abs, length, IfOk};
ghost use Rattle.ddl_define.specs.Columns as spec;
ghost use Rattle.ddl_define.specs.Found as found;

use ddl_parse::{ColumnText, TableItem, TypeName};
use sql_resolve::number_of;
use std::alloc::{AllocError, Global};
use volt_catalog::{Column, ColumnNos};
use volt_value::{ColType, Text};

/// The greatest length that the type of a column holds.
const MOST_LENGTH: u64 = 65535;

/// A length as the type of a column holds it: one above the greatest becomes that one.
fn held_length(length: i64) -> u16
    ensures { result ≡ min (nat_abs length) spec.most_length }
{
    let length = length.unsigned_abs();
    if length <= MOST_LENGTH {
        length as u16
    } else {
        65535
    }
}

/// The type of a column or a parameter that has the type of this name.
///
/// A VARCHAR of more than 65,535 bytes becomes one of 65,535, which is too long for a column, too: at
/// most 2,048 bytes may be.
pub fn col_type(written: TypeName) -> ColType
    ensures { result ≡ spec.col_type written }
{
    match written {
        TypeName::Tinyint => ColType::Tiny,
        TypeName::Smallint => ColType::Small,
        TypeName::Integer => ColType::Integer,
        TypeName::Bigint => ColType::Big,
        TypeName::Varchar(length) => ColType::Varchar(held_length(length)),
    }
}

fn column_of(alloc: Global, text: &ColumnText) -> Result<Column, AllocError>
    ensures { IfOk result (λ column. column ≡ spec.column_of text.now) }
{
    Ok(Column {
        name: Text::of(alloc, text.name.as_str())?,
        kind: col_type(text.kind),
        not_null: text.not_null,
    })
}

/// The columns of a table's definition, in the order in which they are written.
pub(crate) fn columns_of(alloc: Global, items: &[TableItem]) -> Result<Vec<Column>, AllocError>
    ensures { IfOk result (λ columns. columns.items ≡ spec.columns_of items.now) }
{
    let mut columns = Vec::new(alloc);
    for item in items {
        match item {
            TableItem::Column(text) => columns.push(column_of(alloc, text)?)?,
            TableItem::PrimaryKey { .. } => {}
        }
    }
    Ok(columns)
}

/// The number of the column of a name. Where there is none, the number behind the last one.
pub(crate) fn number_in(columns: &[Column], name: &Text) -> usize
    ensures { result ≡ spec.number_in columns.now name.now }
{
    match number_of(columns, name) {
        Some(number) => number,
        None => columns.len(),
    }
}

/// The same as a byte. A greater number becomes 255, which no column of the catalog has.
pub(crate) fn byte_in(columns: &[Column], name: &Text) -> u8
    ensures exact { result ≡ found.byte_of (spec.number_in columns.now name.now) }
    ensures few { length columns.now ≤ 255 → result ≡ spec.number_in columns.now name.now }
{
    let number = number_in(columns, name);
    if number <= 255 { number as u8 } else { 255 }
}

/// The numbers of the columns of these names, each as a byte.
pub(crate) fn bytes_in(
    alloc: Global,
    columns: &[Column],
    names: &[Text],
) -> Result<ColumnNos, AllocError>
    ensures { IfOk result (λ numbers. numbers ≡ found.bytes_in columns.now names.now) }
{
    let mut numbers = Vec::new(alloc);
    for name in names {
        numbers.push(byte_in(columns, name))?;
    }
    Ok(ColumnNos::from_vec(numbers))
}
