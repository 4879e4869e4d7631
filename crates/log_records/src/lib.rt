//! What stands in the batches of a copy's disk: records, which are marks of terms and entries at
//! their positions, and manifests, which name the files that count. Begin with `specs/Records.antt`
//! and `specs/Manifest.antt`, which say how each is spelled.
#![tactic(auto)]

pub mod laws;
mod manifest;
mod reading;
mod record;
mod writing;

pub use manifest::{Manifest, encode_manifest, read_manifest};
pub use record::{Record, read_records};
pub use writing::encode_records;
