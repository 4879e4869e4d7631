//! The catalog: tables, their columns and indexes, by the rules that the statements which define them
//! must meet. Begin with `Catalog`; `specs/Rules.antt` has the rules.
#![tactic(auto)]

mod catalog;
mod column;
mod fault;
mod limits;
mod names;
mod procedure;
mod table;

pub use catalog::Catalog;
pub use column::{Column, ColumnNos, Columns};
pub use fault::CatalogFault;
pub use procedure::{ParamTypes, ProcDef};
pub use table::{IndexDef, Table};
