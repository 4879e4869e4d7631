//! What is defined.

ghost use Rattle.std.specs.Prelude.{◌≡◌, ◌⊎◌, ◌++◌, [], ◌∷◌, Some, None, IfErr, OnOk, OnErr};
ghost use Rattle.ddl_define.specs.Defined as spec;
ghost use Rattle.ddl_define.specs.Names as names;
ghost use Rattle.ddl_define.specs.Procedures as procedures;

use crate::names::{create_index, partition};
use crate::procedures::{fault_of_procedure, is_in_use, procedure_from};
use crate::tables::create_table;
use ddl_parse::{Ddl, PartitionTable, ProcText};
use sqlite_items::Items;
use std::alloc::Global;
use volt_catalog::{Catalog, CatalogFault};
use volt_value::Text;

/// What the definitions so far have defined.
#[derive(Drop)]
pub struct Definitions {
    /// The tables and indexes.
    pub catalog: Catalog,
    /// The procedures in order of definition.
    pub procedures: Items<DefinedProcedure>,
}

/// What later definitions must know of a procedure.
#[derive(Debug, Drop)]
pub struct DefinedProcedure {
    /// The name as it was written. Names are compared without ASCII case.
    pub name: Text,
    /// The tables that its statements name, as they are written, from left to right. One that is
    /// named twice is there twice.
    pub tables: Items<Text>,
}

/// The number of a fault among all refusals of an input. `NoMemory`, which is none, has 255.
pub fn code(fault: CatalogFault) -> u8
    ensures { result ≡ spec.code_of fault }
{
    match fault {
        CatalogFault::DuplicateName => 8,
        CatalogFault::NoSuchName => 9,
        CatalogFault::NoPrimaryKey => 10,
        CatalogFault::NullablePartitionColumn => 11,
        CatalogFault::KeyLacksPartitionColumn => 12,
        CatalogFault::TooMany => 13,
        CatalogFault::NoMemory => 255,
    }
}

impl Definitions {
    /// Nothing is defined.
    pub fn new(alloc: Global) -> Definitions
        ensures { result ≡ spec.nothing }
    {
        Definitions {
            catalog: Catalog::new(alloc),
            procedures: Items::new(alloc),
        }
    }

    /// Partitions a table, unless a statement of a procedure names it.
    fn partition_table(&mut self, text: &PartitionTable) -> Result<(), CatalogFault>
        ensures made { OnOk result (self.new ≡ record self.old { catalog = names.partitioned self.old.catalog text.now }) }
        ensures accepted { OnOk result (spec.fault_of_partition self.old text.now ≡ None) }
        ensures refused { IfErr result (λ fault. spec.fault_of_partition self.old text.now ≡ Some fault) }
        ensures kept { OnErr result (self.new ≡ self.old) }
    {
        if is_in_use(self.procedures.as_slice(), &text.table) {
            return Err(CatalogFault::DuplicateName);
        }
        partition(&mut self.catalog, text)
    }

    /// Notes a procedure.
    fn create_procedure(&mut self, alloc: Global, text: &ProcText) -> Result<(), CatalogFault>
        ensures noted { OnOk result (self.new ≡ record self.old { procedures = self.old.procedures ++ procedures.procedure_from text.now ∷ [] }) }
        ensures accepted { OnOk result (procedures.fault_of_procedure self.old.procedures text.now ≡ None) }
        ensures refused { IfErr result (λ fault.
            (fault ≡ CatalogFault.NoMemory) ⊎ (procedures.fault_of_procedure self.old.procedures text.now ≡ Some fault)) }
        ensures kept { OnErr result (self.new ≡ self.old) }
    {
        if let Some(fault) = fault_of_procedure(self.procedures.as_slice(), text) {
            return Err(fault);
        }
        let procedure = procedure_from(alloc, text)?;
        self.procedures.push(procedure)?;
        Ok(())
    }

    /// Defines what a definition defines.
    ///
    /// It is refused, and nothing is changed, for the first of these that holds:
    ///
    /// - `DuplicateName`: there is a table, an index or a procedure of its name; two columns of its
    ///   table have one name; the table that it partitions is partitioned already, or a statement of
    ///   a procedure names it.
    /// - `NoSuchName`: a table or a column that it names isn't there; an index is of no column.
    /// - `NoPrimaryKey`: its table has not exactly one primary key.
    /// - `NullablePartitionColumn`: the partitioning column is neither written NOT NULL nor in the
    ///   primary key.
    /// - `KeyLacksPartitionColumn`: the primary key or a unique index lacks the partitioning column.
    /// - `TooMany`: there are 32 tables, 64 indexes or 256 procedures already, the table has more than
    ///   32 columns or rows of more than 8,192 bytes, or a VARCHAR's length isn't from 1 to 2,048.
    ///
    /// `NoMemory` is free. The body of a procedure isn't looked at, but for the tables that its
    /// statements name.
    pub fn define(&mut self, alloc: Global, ddl: &Ddl) -> Result<(), CatalogFault>
        ensures defined { OnOk result (self.new ≡ spec.defined self.old ddl.now) }
        ensures accepted { OnOk result (spec.fault_of self.old ddl.now ≡ None) }
        ensures refused { IfErr result (λ fault.
            (fault ≡ CatalogFault.NoMemory) ⊎ (spec.fault_of self.old ddl.now ≡ Some fault)) }
        ensures kept { OnErr result (self.new ≡ self.old) }
    {
        match ddl {
            Ddl::CreateTable(text) => create_table(alloc, &mut self.catalog, text),
            Ddl::CreateIndex(text) => create_index(alloc, &mut self.catalog, text),
            Ddl::PartitionTable(text) => self.partition_table(text),
            Ddl::CreateProcedure(text) => self.create_procedure(alloc, text),
        }
    }
}
