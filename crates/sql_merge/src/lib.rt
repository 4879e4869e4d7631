//! Puts the parts of a statement together: what it gave on each partition becomes the rows of the
//! whole. Begin with `merge`.
#![tactic(auto)]

mod entries;
mod gathered;
mod groups;
mod merging;
mod outputs;
mod rows;

pub use merging::merge;
