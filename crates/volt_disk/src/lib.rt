//! Disks: numbered files, what a read gives of them, and what a crash may leave. A disk in memory
//! fails and loses power as it is told to; a disk over real files keeps them in a folder. Begin with
//! the trait `Disk` of `disk`, and with `specs/File.antt`, which says what a crash may leave.
#![tactic(auto)]

pub mod change;
pub mod disk;
mod draws;
mod files;
pub mod folder;
pub mod listing;
pub mod memory;
pub mod power;
mod stored;
