//! How bytes come in and go out: sources and sinks, over memory and over std's readers and writers,
//! the two loops that all callers share, and a buffer before a sink. Begin with `source` and `sink`.
#![tactic(auto)]

pub mod buffer;
pub mod memory;
pub mod sink;
pub mod source;
pub mod standard;
mod trail;
pub mod transfer;
