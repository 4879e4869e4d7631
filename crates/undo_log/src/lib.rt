//! Inverse steps with marks, so that what was done since a mark can be undone. `Undo` is where to
//! begin.
#![tactic(auto)]

mod mark;
mod undo;

pub use mark::Mark;
pub use undo::Undo;
