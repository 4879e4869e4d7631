//! Expressions, as they are written.

use sqlite_items::{Boxed, Items};
use volt_value::Text;

/// A column: its table's name, where one is written, and its own.
#[derive(Debug, Drop)]
pub struct ColumnName {
    pub table: Option<Text>,
    pub column: Text,
}

/// What is done with two numbers.
#[derive(Clone, Copy, Debug, PartialEq, Eq)]
pub enum Arithmetic {
    Add,
    Subtract,
    Multiply,
    Divide,
}

/// How two values are compared.
#[derive(Clone, Copy, Debug, PartialEq, Eq)]
pub enum Comparison {
    Equal,
    /// `<>` or `!=`.
    NotEqual,
    Less,
    LessOrEqual,
    Greater,
    GreaterOrEqual,
}

/// An expression. Names stand in it as they are written, and are compared without ASCII case.
#[derive(Debug, Drop)]
pub enum Expr {
    /// 0 to 9223372036854775807.
    Number(i64),
    /// What stands between the quotes, with each doubled quote as one.
    Text(Text),
    Null,
    /// `?`.
    Parameter,
    Column(ColumnName),
    /// `( expr )`.
    Parenthesized(Boxed<Expr>),
    /// `:name`, a variable or a parameter of a program.
    Variable(Text),
    /// `:row.column`, of a row that a program goes over.
    RowColumn {
        row: Text,
        column: Text,
    },
    /// `ROWS(result)`, how many rows a result has.
    Rows(Text),
    /// `FIRST(result.column)`, a value of a result's first row.
    First {
        result: Text,
        column: Text,
    },
    Negate(Boxed<Expr>),
    Calculate(Arithmetic, Boxed<Expr>, Boxed<Expr>),
    Compare(Comparison, Boxed<Expr>, Boxed<Expr>),
    /// `value IS NULL`, or `value IS NOT NULL`.
    IsNull {
        value: Boxed<Expr>,
        negated: bool,
    },
    /// `value BETWEEN low AND high`, or `value NOT BETWEEN low AND high`.
    Between {
        value: Boxed<Expr>,
        low: Boxed<Expr>,
        high: Boxed<Expr>,
        negated: bool,
    },
    /// `value IN (items)`, or `value NOT IN (items)`. There is an item or more.
    In {
        value: Boxed<Expr>,
        items: Items<Expr>,
        negated: bool,
    },
    Not(Boxed<Expr>),
    And(Boxed<Expr>, Boxed<Expr>),
    Or(Boxed<Expr>, Boxed<Expr>),
}
