//! Columns of a table.

ghost use Rattle.std.specs.Prelude.{◌≡◌};

use std::marker::Model;
use volt_value::{ColType, Text};

/// A column of a table.
#[derive(Debug, Drop)]
pub struct Column {
    /// The name as it was written. Names are compared without ASCII case.
    pub name: Text,
    /// The type of its values.
    pub kind: ColType,
    /// Whether NOT NULL was written. A column of the primary key takes no NULL, written or not.
    pub not_null: bool,
}

/// The columns of a table in their order, seen as that list.
#[derive(Debug, Drop)]
pub struct Columns {
    held: Vec<Column>,
}

impl Model for Columns {
    ghost use Rattle.std.specs.Prelude.{List};
    ghost use Rattle.volt_catalog.specs.declared.column.Column.{Column};

    ghost Value = { List Column };

    ghost view = { λ c. c.held.items };
}

impl Columns {
    /// The columns of a vector, which is not copied.
    pub fn from_vec(held: Vec<Column>) -> Columns
        ensures { result ≡ held.items }
    {
        Columns { held }
    }

    /// The columns as a vector. They are not copied.
    pub fn into_vec(self) -> Vec<Column>
        ensures { result.items ≡ self }
    {
        self.held
    }

    /// The columns.
    pub fn as_slice(&self) -> &[Column]
        ensures { result.now ≡ self.now }
    {
        self.held.as_slice()
    }
}

/// Numbers of columns of one table, which are counted from 0, seen as their list. A column may be
/// there more than once.
#[derive(Debug, Drop)]
pub struct ColumnNos {
    held: Vec<u8>,
}

impl Model for ColumnNos {
    ghost use Rattle.std.specs.Prelude.{List, ℕ};

    ghost Value = { List ℕ };

    ghost view = { λ c. c.held.items };
}

impl ColumnNos {
    /// The numbers of a vector, which is not copied.
    pub fn from_vec(held: Vec<u8>) -> ColumnNos
        ensures { result ≡ held.items }
    {
        ColumnNos { held }
    }

    /// The numbers as a vector. They are not copied.
    pub fn into_vec(self) -> Vec<u8>
        ensures { result.items ≡ self }
    {
        self.held
    }

    /// The numbers.
    pub fn as_slice(&self) -> &[u8]
        ensures { result.now ≡ self.now }
    {
        self.held.as_slice()
    }
}
