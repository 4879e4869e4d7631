//! Checks statements against a catalog: from the tree of a statement to its plan, with each column by
//! its number and each parameter by its class. Begin with `prepare`.
#![tactic(auto)]

mod columns;
mod distribution;
mod examined;
mod from;
mod groups;
mod order;
mod outputs;
mod preparing;
mod select;
mod writes;

pub use columns::place_of;
pub use examined::Examined;
pub use from::{Source, Sources, find_sources, known_as, on_of, second_name};
pub use groups::group_place;
pub use order::order_by;
pub use outputs::{column_written, have_aggregate};
pub use preparing::{examine, prepare};
pub use select::heads_given;
