//! Statements that define tables, indexes and procedures, as they are written.

use crate::procedure::ProcText;
use sqlite_items::Items;
use volt_value::Text;

/// A statement that defines something. Names stand in it as they are written, and are compared
/// without ASCII case.
#[derive(Debug, Drop)]
pub enum Ddl {
    CreateTable(CreateTable),
    CreateIndex(CreateIndex),
    PartitionTable(PartitionTable),
    CreateProcedure(ProcText),
}

/// `CREATE TABLE name (items)`.
#[derive(Debug, Drop)]
pub struct CreateTable {
    pub name: Text,
    /// One or more.
    pub items: Items<TableItem>,
}

/// What stands in a table's parentheses.
#[derive(Debug, Drop)]
pub enum TableItem {
    Column(ColumnText),
    /// `CONSTRAINT constraint PRIMARY KEY (columns)`, where CONSTRAINT with its name may lack.
    PrimaryKey {
        constraint: Option<Text>,
        /// One or more.
        columns: Items<Text>,
    },
}

/// `name kind NOT NULL PRIMARY KEY`.
#[derive(Debug, Drop)]
pub struct ColumnText {
    pub name: Text,
    pub kind: TypeName,
    /// Whether NOT NULL is written.
    pub not_null: bool,
    /// Whether PRIMARY KEY is written.
    pub primary_key: bool,
}

/// The type of a column or a parameter.
#[derive(Clone, Copy, Debug, PartialEq, Eq)]
pub enum TypeName {
    Tinyint,
    Smallint,
    Integer,
    Bigint,
    /// `VARCHAR(length)`, with or without BYTES. 0 to 9223372036854775807.
    Varchar(i64),
}

/// `CREATE INDEX name ON table (columns)`.
#[derive(Debug, Drop)]
pub struct CreateIndex {
    pub name: Text,
    /// Whether UNIQUE is written.
    pub unique: bool,
    pub table: Text,
    /// One or more.
    pub columns: Items<Text>,
}

/// `PARTITION TABLE table ON COLUMN column`.
#[derive(Debug, Drop)]
pub struct PartitionTable {
    pub table: Text,
    pub column: Text,
}
