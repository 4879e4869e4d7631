//! Base files: a partition as it stood at a position of its log, written block by block in a file of
//! a disk, and read back. Begin with `specs/Base.antt`, which says what a base is and how it is
//! spelled, then `BaseWriter` and `read_base`.
#![tactic(auto)]

mod base;
mod chunks;
mod file;
mod head;
pub mod laws;
mod parts;
mod reading;
mod spelling;
mod writing;

pub use file::read_base;
pub use head::BaseHead;
pub use spelling::encode_head;
pub use writing::BaseWriter;
