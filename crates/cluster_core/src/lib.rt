//! The world of one host as code: its actors, the messages under way, and one event after another.
//! Begin with `World`; `specs/World.antt` says when it stands for a world of `one_host_model`.
#![tactic(auto)]

mod agent;
mod channels;
mod client;
mod director;
mod outbox;
mod route;
mod site;
mod world;

pub use world::{Outcomes, World};

#[cfg(test)]
mod tests;
