//! What every crate of the database speaks of: numbers, bytes, log entries, and engines.
//!
//! An engine is one partition's tables. The cluster moves entries to it and knows no SQL: all that
//! it may use of an engine is what the trait `Engine` says.
#![tactic(auto)]

mod bytes;
mod coord;
mod engine;
mod entry;
mod numbers;
mod reading;
mod replies;
mod spelling;

pub use bytes::Bytes;
pub use coord::CoordStep;
pub use engine::{Engine, MakeEngine};
pub use entry::{Applied, Entry, LastReply, Outcome};
pub use numbers::{CallNo, ClientNo, HostNo, PartNo, Pos, SlotNo, Stamp, Start, Term};
pub use replies::keep_reply;
pub use spelling::one_spelling;

#[cfg(test)]
mod tests;
