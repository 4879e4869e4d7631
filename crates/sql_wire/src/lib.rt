//! The bytes in which calls, replies and the answers of partitions travel between the engines of SQL
//! and the cluster, which only moves them. Begin with `specs/Bodies.antt` and `specs/Parts.antt`,
//! which say how each is spelled; then `spell_call` and `read_call`.
#![tactic(auto)]

mod answers;
mod bodies;
mod keyed;
pub mod laws;
mod parts;
mod replies;
mod values;

pub use answers::{Answer, read_answer, spell_answer};
pub use bodies::{
    CallBody, RoundBody, StatementBody, read_call, read_round, spell_call, spell_round,
};
pub use replies::{read_reply, spell_reply};
