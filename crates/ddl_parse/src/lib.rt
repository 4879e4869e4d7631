//! Reads definitions of SQL, those of tables, indexes, partitions and procedures: from the tokens of
//! a text to trees. Begin with `parse_ddl`.
#![tactic(auto)]

mod ddl;
mod definitions;
mod procedure;
mod program;
mod read_ddl;
mod tables;
mod types;

pub use ddl::{ColumnText, CreateIndex, CreateTable, Ddl, PartitionTable, TableItem, TypeName};
pub use expr_parse::ParseFault;
pub use procedure::{
    ParameterText, ProcBody, ProcPartition, ProcText, ProgramText, ReturnText, StepText,
};
pub use read_ddl::parse_ddl;
