//! Rows of a table packed into tuples of a fixed width, and the faults of rows. `RowLayout` is where
//! to begin.
#![tactic(auto)]

mod cell;
mod fault;
mod field;
mod layout;
mod packing;
mod reading;

pub use cell::{Cell, fault_of};
pub use fault::RowFault;
pub use field::Field;
pub use layout::RowLayout;
