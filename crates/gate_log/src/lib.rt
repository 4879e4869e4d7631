//! A log of batches in one file of a disk. Whatever a crash leaves of the file, it holds the whole
//! batches that were appended, and of the one under way either all or nothing.
#![tactic(auto)]

pub mod log;
mod opening;
mod reading;
