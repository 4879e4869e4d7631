//! Tests of tables, from the blocks and indexes that they stand on up to the chunks of a scan.
//! They stand apart from the crates that they call, whose code would be proved twice beside them.
#![tactic(auto)]

#[cfg(test)]
mod blocks;
#[cfg(test)]
mod chunks;
#[cfg(test)]
mod indexes;
#[cfg(test)]
mod packing;
#[cfg(test)]
mod pairs;
#[cfg(test)]
mod panes;
#[cfg(test)]
mod rows;
#[cfg(test)]
mod scans;
#[cfg(test)]
mod stores;
#[cfg(test)]
mod undo;
