//! Compiles procedures: from the tree of a CREATE PROCEDURE and the catalog to how it is called and what
//! it does. Begin with `compile`.
#![tactic(auto)]

mod body;
mod compiling;
mod draft;
mod fault;
mod laws;
mod parameters;
mod partition;
mod statements;
mod steps;
mod values;

pub use compiling::compile;
pub use fault::ProcFault;
pub use laws::statements_keep_to_their_partition;
