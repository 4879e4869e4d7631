//! The world of a cluster, defined once and whole: what each actor does with each message, which
//! events may happen, what an event makes of the world, what a recovery does, and what a report
//! shows of the last world of a run. The definitions are in `specs/`, a file for each actor, and the
//! contracts of the crates above cite them. The code here is the types that the code of the actors
//! shares with the definitions, and states scenarios and laws of these, without bodies.
#![tactic(auto)]

mod initiating;
mod known;
pub mod laws;
mod scanning;
pub mod scenarios;

pub use initiating::{Heard, Job, Phase, Queued};
pub use known::Known;
pub use scanning::Scanning;
