//! A table's rows in packed blocks, by place: places that are free are used again, and a scan keeps
//! the rows as they stood. Begin with `Pane`; its contracts see it as a width and a list of slots.
#![tactic(auto)]

mod pane;
mod place;
mod places;
mod rows;

pub use pane::{MAX_BLOCKS, Pane};
pub use place::Place;
pub use places::Places;
