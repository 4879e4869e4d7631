//! The world of a cluster of one host and one partition: what the program runs today, defined once.
//! What each actor does with each message, runs, and what a report shows of the last world stand in
//! `specs/`, and the contracts of the crates above cite them. The code here is what the code of the
//! cluster and the definitions share: the messages, the input and the parts of an actor's state. Begin
//! with `specs/World.antt`. The whole world is in `cluster_model`.
#![tactic(auto)]

mod input;
mod message;
mod state;

pub use input::{Ended, WorldCall, WorldInput};
pub use message::Msg;
pub use state::{CopyRows, Due, Pending, Waiting};
