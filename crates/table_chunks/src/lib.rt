//! The rows of a scan in chunks of bytes, and their loading into tables. Begin with `load`.
#![tactic(auto)]

pub mod laws;
mod loading;
mod reading;
mod writing;

pub use loading::load;
pub use reading::read_chunk;
pub use writing::{chunk_of, rows_in, write_chunk};
