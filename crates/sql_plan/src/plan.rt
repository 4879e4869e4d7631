//! What an input's definitions give.

use crate::program::Program;
use sqlite_items::Items;
use volt_catalog::{Catalog, ProcDef};

/// The tables, the procedures by their numbers from 0, and the number of partitions, 1 to 32.
#[derive(Drop)]
pub struct Plan {
    pub catalog: Catalog,
    pub procs: Items<(ProcDef, Program)>,
    pub parts: u8,
}
