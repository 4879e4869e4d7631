//! What a SELECT does.

use crate::expression::{Cond, Scalar};
use sqlite_items::Items;

/// A SELECT. Its rows are those of the left table, or each of them with each of the right table
/// behind it. Of these it takes those for which ON is true, and of those the ones for which WHERE
/// is true; from them come the rows that it gives.
#[derive(Debug, Drop)]
pub struct SelectPlan {
    /// The number of the first table of FROM.
    pub left: u16,
    /// The second table of FROM, where there is one.
    pub right: Option<JoinPlan>,
    /// WHERE, over the row of all tables: the AND of none where it isn't written. ON comes first:
    /// a row that ON doesn't keep isn't judged by WHERE.
    pub filter: Cond,
    /// What is made of the rows that are kept.
    pub shape: Shape,
    /// LIMIT, where it is written.
    pub limit: Option<RowLimit>,
}

/// The second table of a FROM.
#[derive(Debug, Drop)]
pub struct JoinPlan {
    /// The table's number.
    pub table: u16,
    /// ON, over the row of both tables: the AND of none where it isn't written.
    pub on: Cond,
}

/// What a SELECT makes of the rows that it keeps.
#[derive(Debug, Drop)]
pub enum Shape {
    /// A row for each.
    Rows {
        /// Each over the row of all tables. `*` is one for each column.
        outputs: Items<Scalar>,
        /// The whole order: what ORDER BY has, and then each column of the left table's primary
        /// key and of the right table's, ascending. `Column` is one of the row of all tables.
        order: Items<Order>,
    },
    /// One row, of all rows that are kept, also where there are none.
    Total(Items<Aggregated>),
    /// A row for each group of rows that agree on some columns.
    Groups {
        /// The columns of GROUP BY, by their numbers in the row of all tables, as they are written.
        /// One or more.
        by: Items<usize>,
        /// What is made of each group.
        aggregates: Items<Aggregated>,
        /// The outputs in their order.
        outputs: Items<GroupOutput>,
        /// The whole order: what ORDER BY has, and then each column of GROUP BY, ascending.
        /// `Column` is one of GROUP BY, by its place there.
        order: Items<Order>,
    },
}

/// What is made of the values that an expression has on the rows of a group. NULL is skipped.
#[derive(Debug, Drop)]
pub enum Aggregated {
    /// `COUNT(*)`, how many rows there are.
    CountRows,
    /// How many values there are.
    Count(Scalar),
    /// Their sum, which is exact before its range is judged. NULL without any.
    Sum(Scalar),
    /// The least. NULL without any.
    Min(Scalar),
    /// The greatest. NULL without any.
    Max(Scalar),
}

/// An output of a SELECT with GROUP BY.
#[derive(Clone, Copy, Debug, PartialEq, Eq)]
pub enum GroupOutput {
    /// A column of GROUP BY, by its place there from 0.
    Column(usize),
    /// An aggregate, by its place from 0.
    Aggregate(usize),
}

/// One of the values that rows are put in order by.
#[derive(Clone, Copy, Debug, PartialEq, Eq)]
pub struct Order {
    pub by: OrderBy,
    /// The greatest comes first.
    pub descending: bool,
}

/// Where a value that rows are put in order by is found.
#[derive(Clone, Copy, Debug, PartialEq, Eq)]
pub enum OrderBy {
    /// An output, by its place from 0.
    Output(usize),
    /// A column, by its number from 0.
    Column(usize),
}

/// How many rows a SELECT gives at most. NULL and a number below 0 are out of range.
#[derive(Clone, Copy, Debug, PartialEq, Eq)]
pub enum RowLimit {
    Number(i64),
    /// An argument, by its number from 0.
    Param(usize),
}
