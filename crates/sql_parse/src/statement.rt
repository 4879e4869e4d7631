//! Statements, as they are written.

use expr_parse::{ColumnName, Expr};
use sqlite_items::Items;
use volt_value::Text;

/// A statement. Names stand in it as they are written, and are compared without ASCII case.
#[derive(Debug, Drop)]
pub enum Stmt {
    Insert(Insert),
    Update(Update),
    Delete(Delete),
    Select(Select),
}

/// `INSERT INTO table (columns) VALUES (values)`.
#[derive(Debug, Drop)]
pub struct Insert {
    pub table: Text,
    /// The names in parentheses, one or more, where they are written.
    pub columns: Option<Items<Text>>,
    /// One or more.
    pub values: Items<Expr>,
}

/// `UPDATE table SET sets WHERE filter`.
#[derive(Debug, Drop)]
pub struct Update {
    pub table: Text,
    /// One or more.
    pub sets: Items<Assignment>,
    pub filter: Option<Expr>,
}

/// `column = value`.
#[derive(Debug, Drop)]
pub struct Assignment {
    pub column: Text,
    pub value: Expr,
}

/// `DELETE FROM table WHERE filter`.
#[derive(Debug, Drop)]
pub struct Delete {
    pub table: Text,
    pub filter: Option<Expr>,
}

/// `SELECT outputs FROM first, second WHERE filter GROUP BY groups ORDER BY order LIMIT limit`.
#[derive(Debug, Drop)]
pub struct Select {
    pub outputs: Outputs,
    pub first: TableName,
    /// The second table, where there is one.
    pub second: Option<SecondTable>,
    pub filter: Option<Expr>,
    /// Empty exactly where there is no GROUP BY.
    pub groups: Items<ColumnName>,
    /// Empty exactly where there is no ORDER BY.
    pub order: Items<SortKey>,
    pub limit: Option<Limit>,
}

/// What a SELECT gives.
#[derive(Debug, Drop)]
pub enum Outputs {
    /// `*`, all columns.
    All,
    /// One or more.
    Listed(Items<Output>),
}

/// `value AS name`.
#[derive(Debug, Drop)]
pub struct Output {
    pub value: OutputValue,
    pub name: Option<Text>,
}

/// What is made of the values of a group.
#[derive(Clone, Copy, Debug, PartialEq, Eq)]
pub enum Aggregate {
    Count,
    Sum,
    Min,
    Max,
}

/// An expression, or an aggregate over the rows of a group.
#[derive(Debug, Drop)]
pub enum OutputValue {
    Expr(Expr),
    /// `COUNT(*)`.
    CountRows,
    /// `COUNT(expr)`, or one of the others.
    Aggregate(Aggregate, Expr),
}

/// A table of a FROM, and the name that it goes by there, where one is written.
#[derive(Debug, Drop)]
pub struct TableName {
    pub table: Text,
    pub alias: Option<Text>,
}

/// How the second table of a FROM stands beside the first.
#[derive(Debug, Drop)]
pub enum SecondTable {
    /// `, table`.
    Listed(TableName),
    /// `JOIN table ON condition`, or with INNER before it.
    Joined { table: TableName, on: Expr },
}

/// A column of ORDER BY.
#[derive(Debug, Drop)]
pub struct SortKey {
    pub column: ColumnName,
    /// Whether DESC is written.
    pub descending: bool,
}

/// The number of rows that a SELECT gives at most.
#[derive(Debug, Drop)]
pub enum Limit {
    /// 0 to 9223372036854775807.
    Number(i64),
    /// `?`.
    Parameter,
    /// `:name`.
    Variable(Text),
}
