//! What the names and the expressions of SQL stand for: a column by its number, a `?` by its class, and
//! an expression as a value or a truth value of a plan. Begin with `Names`, `Notes` and `scalar`.
#![tactic(auto)]

mod bound;
mod fault;
mod names;
mod notes;
mod operands;
mod resolve;
mod resolved;
mod sort;
mod tables;

pub use bound::{Bound, Given, head_named, head_place};
pub use fault::CheckFault;
pub use names::{FoundColumn, NamedTable, Names, is_same};
pub use notes::Notes;
pub use resolve::{alone, condition, question, scalar, taken};
pub use resolved::Resolved;
pub use sort::{Sort, common_among, common_of_three, common_of_two, sort_of};
pub use tables::{class_at, number_of, table_named};
