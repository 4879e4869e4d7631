//! Tables whose changes can be undone. `Tables` is where to begin.
#![tactic(auto)]

mod schema;
mod step;
mod tables;

pub use tables::Tables;
