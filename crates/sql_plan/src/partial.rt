//! What a statement gives on one partition.

use crate::row::Row;
use crate::row_key::RowKey;
use sqlite_items::Items;
use volt_value::Value;

/// What a statement gives on one partition. Those of all partitions, joined, are its rows.
#[derive(Debug, Drop)]
pub enum Partial {
    /// How many rows an INSERT, UPDATE or DELETE inserted, changed or deleted.
    Count(u64),
    /// The rows of a SELECT without groups, in no order.
    Rows {
        rows: Items<KeyedRow>,
        /// The value of LIMIT, where it is written.
        limit: Option<u64>,
    },
    /// The groups of a SELECT with aggregates or GROUP BY, in no order. Without GROUP BY it is one
    /// group with the empty key, also of no rows.
    Groups {
        groups: Items<Group>,
        /// The value of LIMIT, where it is written.
        limit: Option<u64>,
    },
}

/// A row, and what it is put in order by.
#[derive(Debug, Drop)]
pub struct KeyedRow {
    pub key: RowKey,
    pub row: Row,
}

/// A group: the values on which its rows agree, and what each aggregate gathered of them.
#[derive(Debug, Drop)]
pub struct Group {
    pub key: Row,
    pub gathered: Items<Gathered>,
}

/// What an aggregate gathered of some rows of a group.
#[derive(Debug, Drop)]
pub enum Gathered {
    Count(u64),
    /// The exact sum. `None` without a value.
    Sum(Option<i128>),
    /// The least value. NULL without one.
    Min(Value),
    /// The greatest value. NULL without one.
    Max(Value),
}
