//! What the actors of a cluster say to each other, the words that they agree on, and the events of
//! a run.
#![tactic(auto)]

mod actor;
mod end;
mod event;
mod header;
mod item;
mod message;
mod stream;
mod word;

pub use actor::Actor;
pub use end::End;
pub use event::Event;
pub use header::Header;
pub use item::{Item, TimedItem};
pub use message::Msg;
pub use stream::Stream;
pub use word::{Admissions, Starts, Word};
