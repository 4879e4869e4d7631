//! The catalog.

ghost use Rattle.std.specs.Prelude.{◌≡◌, ◌⊎◌, Some, None, Ok, Err, length, slice_get, IfOk, IfErr, OnOk, OnErr};
ghost use Rattle.volt_catalog.specs.Catalog as catalog;
ghost use Rattle.volt_catalog.specs.Catalog.{IsCatalog, with_table, with_index, with_part};
ghost use Rattle.volt_catalog.specs.Rules as rules;

use crate::column::Column;
use crate::fault::CatalogFault;
use crate::limits::{MOST_INDEXES, MOST_TABLES, within_limits};
use crate::names::Names;
use crate::table::{IndexDef, Table, has_columns, have_names_of_their_own, lack_part};
use std::alloc::{AllocError, Global};
use std::marker::Model;
use volt_value::Text;

/// The tables and indexes that are defined, each in order of definition and numbered from 0. They
/// meet the rules.
#[derive(Drop)]
pub struct Catalog {
    alloc: Global,
    tables: Vec<Table>,
    indexes: Vec<IndexDef>,
    table_names: Names,
    index_names: Names,
}

impl Model for Catalog {
    ghost use Rattle.volt_catalog.specs.Rules.{Contents};

    ghost Value = { Contents };

    ghost use Rattle.volt_catalog.specs.Held.{contents_of, IsHeld};

    ghost view = { contents_of };

    ghost invariant = { IsHeld };
}

impl Catalog {
    /// A catalog without tables and indexes.
    pub fn new(alloc: Global) -> Catalog
        ensures { result ≡ catalog.empty_catalog }
    {
        Catalog {
            alloc,
            tables: Vec::new(alloc),
            indexes: Vec::new(alloc),
            table_names: Names::new(alloc),
            index_names: Names::new(alloc),
        }
    }

    /// The number of the table of a name. `None` exactly where there is none.
    pub fn table(&self, name: &Text) -> Option<u16>
        ensures { result ≡ catalog.table_of self.now name.now }
    {
        match self.table_names.number(name.as_str()) {
            Some(number) => Some(number as u16),
            None => None,
        }
    }

    /// The tables in order of definition.
    pub fn tables(&self) -> &[Table]
        ensures tables { result.now ≡ self.now.tables }
        ensures rules { IsCatalog self.now }
    {
        self.tables.as_slice()
    }

    /// The indexes in order of definition.
    pub fn indexes(&self) -> &[IndexDef]
        ensures indexes { result.now ≡ self.now.indexes }
        ensures rules { IsCatalog self.now }
    {
        self.indexes.as_slice()
    }

    /// Whether there is a table of a name.
    fn has_table(&self, name: &Text) -> bool
        ensures { result ≡ rules.has_table self.now name.now }
    {
        self.table(name).is_some()
    }

    /// Whether a table's name is taken, or two of its columns have one name.
    fn repeats_a_name(&self, t: &Table) -> Result<bool, AllocError>
        ensures { IfOk result (λ repeats. repeats ≡ rules.repeats_a_name self.now t.now) }
    {
        if self.has_table(&t.name) {
            return Ok(true);
        }
        Ok(!have_names_of_their_own(self.alloc, t.columns.as_slice())?)
    }

    /// Whether one more table, of these columns, is too much.
    fn passes_a_limit(&self, columns: &[Column]) -> bool
        ensures { result ≡ rules.passes_a_limit self.now columns.now }
    {
        if self.tables.len() >= MOST_TABLES {
            return true;
        }
        !within_limits(columns)
    }

    /// Why a table can't be added.
    fn fault_of_table(&self, t: &Table) -> Result<Option<CatalogFault>, AllocError>
        ensures { IfOk result (λ fault. fault ≡ rules.fault_of_table self.now t.now) }
    {
        Ok(if self.repeats_a_name(t)? {
            Some(CatalogFault::DuplicateName)
        } else if !has_columns(t.columns.as_slice(), t.key.as_slice()) {
            Some(CatalogFault::NoSuchName)
        } else if t.key.as_slice().is_empty() {
            Some(CatalogFault::NoPrimaryKey)
        } else if self.passes_a_limit(t.columns.as_slice()) {
            Some(CatalogFault::TooMany)
        } else {
            None
        })
    }

    /// Adds a table that isn't partitioned, behind the others, and answers its number.
    ///
    /// It is refused, and the catalog stays as it was, for the first of these: `DuplicateName` where
    /// there is a table of its name, or two of its columns have one name; `NoSuchName` where its key
    /// has the number of no column; `NoPrimaryKey` where its key is empty; `TooMany` where there are
    /// 32 tables, it has more than 32 columns, a VARCHAR's length isn't from 1 to 2,048, or a row
    /// counts more than 8,192 bytes, 9 for an integer and n + 5 for a VARCHAR(n). `NoMemory` is free.
    pub fn add_table(&mut self, t: Table) -> Result<u16, CatalogFault>
        requires { t.part ≡ None }
        ensures number { IfOk result (λ number. number ≡ length self.old.tables) }
        ensures added { OnOk result (self.new ≡ with_table self.old t) }
        ensures accepted { OnOk result (rules.fault_of_table self.old t ≡ None) }
        ensures refused { IfErr result (λ fault.
            (fault ≡ CatalogFault.NoMemory) ⊎ (rules.fault_of_table self.old t ≡ Some fault)) }
        ensures kept { OnErr result (self.new ≡ self.old) }
    {
        if let Some(fault) = self.fault_of_table(&t)? {
            return Err(fault);
        }
        let number = self.tables.len() as u16;
        self.tables.reserve(1)?;
        self.table_names.add(self.alloc, t.name.as_str())?;
        self.tables.push_reserved(t);
        Ok(number)
    }

    /// Whether there is an index of a name.
    fn has_index(&self, name: &Text) -> bool
        ensures { result ≡ rules.has_index self.now name.now }
    {
        self.index_names.number(name.as_str()).is_some()
    }

    /// Whether a table is there, and these are numbers of columns of it, one or more.
    fn is_table_with(&self, table: u16, numbers: &[u8]) -> bool
        ensures { result ≡ rules.is_table_with numbers.now (slice_get self.now.tables table) }
    {
        match self.tables.get(table as usize) {
            Some(table) => !numbers.is_empty() && has_columns(table.columns.as_slice(), numbers),
            None => false,
        }
    }

    /// The partitioning column of a table, where the table is there and has one.
    fn part_of(&self, table: u16) -> Option<u8>
        ensures { result ≡ rules.part_column_of (slice_get self.now.tables table) }
    {
        match self.tables.get(table as usize) {
            Some(table) => table.part,
            None => None,
        }
    }

    /// Why an index can't be added.
    fn fault_of_index(&self, i: &IndexDef) -> Option<CatalogFault>
        ensures { result ≡ rules.fault_of_index self.now i.now }
    {
        if self.has_index(&i.name) {
            Some(CatalogFault::DuplicateName)
        } else if !self.is_table_with(i.table, i.columns.as_slice()) {
            Some(CatalogFault::NoSuchName)
        } else if i.unique && lack_part(i.columns.as_slice(), self.part_of(i.table)) {
            Some(CatalogFault::KeyLacksPartitionColumn)
        } else if self.indexes.len() >= MOST_INDEXES {
            Some(CatalogFault::TooMany)
        } else {
            None
        }
    }

    /// Adds an index behind the others, and answers its number.
    ///
    /// It is refused, and the catalog stays as it was, for the first of these: `DuplicateName` where
    /// there is an index of its name; `NoSuchName` where its table isn't there, it has no column, or
    /// its table has none of one of its numbers; `KeyLacksPartitionColumn` where it is unique and without the partitioning
    /// column of its table, which is partitioned; `TooMany` where there are 64 indexes. `NoMemory`
    /// is free.
    pub fn add_index(&mut self, i: IndexDef) -> Result<u16, CatalogFault>
        ensures number { IfOk result (λ number. number ≡ length self.old.indexes) }
        ensures added { OnOk result (self.new ≡ with_index self.old i) }
        ensures accepted { OnOk result (rules.fault_of_index self.old i ≡ None) }
        ensures refused { IfErr result (λ fault.
            (fault ≡ CatalogFault.NoMemory) ⊎ (rules.fault_of_index self.old i ≡ Some fault)) }
        ensures kept { OnErr result (self.new ≡ self.old) }
    {
        if let Some(fault) = self.fault_of_index(&i) {
            return Err(fault);
        }
        let number = self.indexes.len() as u16;
        self.indexes.reserve(1)?;
        self.index_names.add(self.alloc, i.name.as_str())?;
        self.indexes.push_reserved(i);
        Ok(number)
    }

    /// Why a table can't be partitioned on a column.
    fn fault_of_partition(&self, table: u16, column: u8) -> Option<CatalogFault>
        ensures { result ≡ rules.fault_of_partition self.now table column }
    {
        match self.tables.get(table as usize) {
            Some(found) => found.fault_of_part(self.indexes.as_slice(), table, column),
            None => Some(CatalogFault::NoSuchName),
        }
    }

    /// Partitions a table on a column of it. Each is named by its number.
    ///
    /// It is refused, and the catalog stays as it was, for the first of these: `DuplicateName` where
    /// the table is partitioned already; `NoSuchName` where the table or its column isn't there;
    /// `NullablePartitionColumn` where the column is neither written NOT NULL nor in the primary
    /// key; `KeyLacksPartitionColumn` where the primary key or a unique index of the table is
    /// without it. It takes no memory, and never answers `NoMemory`.
    pub fn partition(&mut self, table: u16, column: u8) -> Result<(), CatalogFault>
        ensures partitioned { OnOk result (self.new ≡ with_part self.old table column) }
        ensures accepted { OnOk result (rules.fault_of_partition self.old table column ≡ None) }
        ensures refused { IfErr result (λ fault.
            rules.fault_of_partition self.old table column ≡ Some fault) }
        ensures kept { OnErr result (self.new ≡ self.old) }
    {
        if let Some(fault) = self.fault_of_partition(table, column) {
            return Err(fault);
        }
        self.tables[table as usize].part = Some(column);
        Ok(())
    }
}
