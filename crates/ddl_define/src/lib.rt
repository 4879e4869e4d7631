//! Defines what the definitions of SQL define: from their trees to the catalog, or to the first rule
//! that one breaks. Begin with `Definitions`; `specs/Defined.antt` has what comes of a definition.
#![tactic(auto)]

mod columns;
mod definitions;
mod names;
mod procedures;
mod tables;

pub use columns::col_type;
pub use definitions::{DefinedProcedure, Definitions, code};
