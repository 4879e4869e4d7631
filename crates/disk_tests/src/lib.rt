//! Tests of what stands on disks: disks in memory and in a folder, logs and base files, with a loss of power at each call.
//! They stand apart from the crates that they call, whose code would be proved twice beside them.
#![tactic(auto)]

#[cfg(test)]
mod bases;
#[cfg(test)]
mod disks;
#[cfg(test)]
mod logs;
#[cfg(test)]
mod records;
