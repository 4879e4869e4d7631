//! Reads statements of SQL: from the tokens of a text to trees. Begin with `parse_statement`.
#![tactic(auto)]

mod parse;
mod parts;
mod select;
mod statement;
mod writes;

pub use expr_parse::{Arithmetic, ColumnName, Comparison, Expr, ParseFault};
pub use parse::{MAX_NESTING, parse_statement, stmt};
pub use parts::names;
pub use statement::{
    Aggregate, Assignment, Delete, Insert, Limit, Output, OutputValue, Outputs, SecondTable,
    Select, SortKey, Stmt, TableName, Update,
};
