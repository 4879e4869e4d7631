//! Blocks that are owned or shared, and scans that keep the blocks as they stood when they began.
//! Begin with `CowBlocks`; `CowBlocks::share` gives a `CowScan`.
#![tactic(auto)]

mod blocks;
mod scan;
mod state;

pub use blocks::CowBlocks;
pub use scan::CowScan;
