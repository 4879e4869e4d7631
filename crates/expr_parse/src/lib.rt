//! Reads expressions of SQL to trees, and has what each reader of SQL stands on: a cursor over the
//! tokens of a text, and why reading ends. Begin with `Tokens::at` and `expr`.
#![tactic(auto)]

mod atoms;
mod cursor;
mod expression;
mod fault;
mod levels;
mod lists;
mod nested;
mod operators;
mod quoted;
mod rules;

pub use atoms::column;
pub use cursor::Tokens;
pub use expression::{Arithmetic, ColumnName, Comparison, Expr};
pub use fault::{Fault, ParseFault};
pub use lists::comma_list;
pub use nested::{expr, inner_expr};
