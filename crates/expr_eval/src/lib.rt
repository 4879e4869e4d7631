//! What the expressions of checked statements and programs give over a row and arguments: values, truth
//! values, or the fault that is reached first. An evaluation takes no memory: a text that it gives is
//! borrowed. Begin with `scalar`, `condition` and `values`.
#![tactic(auto)]

mod arithmetic;
mod collector;
mod comparing;
mod conditions;
mod scalars;
mod seen;
mod truth;
mod valued;

pub use collector::Collector;
pub use conditions::{condition, holds};
pub use scalars::scalar;
pub use seen::Seen;
pub use valued::{value, values};
