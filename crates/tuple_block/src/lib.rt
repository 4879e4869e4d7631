//! 64 optional tuples of one width in a block, and the counter of its copies.
//! Begin with `Block`; its contracts see it as a width and a list of 64 slots.
#![tactic(auto)]

mod bits;
mod block;
mod bytes;
mod memory;
mod steps;

pub use block::{Block, MAX_WIDTH, PLACES};
pub use steps::Steps;
