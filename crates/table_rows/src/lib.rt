//! The rows of one table, in packed blocks with their indexes. `TableRows` is where to begin.
#![tactic(auto)]

mod changes;
mod compact;
mod keyed;
mod row;
mod rows;
mod slots;

pub use row::{Row, Rows};
pub use rows::TableRows;
