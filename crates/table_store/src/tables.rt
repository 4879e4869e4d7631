//! The tables.

ghost use Rattle.std.specs.Prelude.{◌≡◌, ◌⊎◌, ◌+◌, ◌<◌, ◌≤◌, [], ◌∷◌, ◌++◌, None, Some, Ok, true, false, is_some, length, take, IfOk, OnOk, OnErr, IfErr};
ghost use Rattle.row_codec.specs.declared.fault.RowFault.{RowFault};
ghost use Rattle.table_rows.specs.Order.{row_key};
ghost use Rattle.table_rows.specs.Table.{inserted, deleted, updated, row_fault, row_of_key, primary_key};
ghost use Rattle.table_rows.specs.Standing.{IsScanOf};
ghost use Rattle.table_store.specs.Scans.{AreScans};
ghost use Rattle.table_store.specs.Schemas.{empty_tables};
ghost use Rattle.table_store.specs.Steps.{table_at, with_table, changed, history};

use crate::schema::empty_table;
use crate::step::Step;
use cow_scan::CowScan;
use row_codec::RowFault;
use std::alloc::{AllocError, Global};
use std::marker::Model;
use table_rows::TableRows;
use undo_log::{Mark, Undo};
use volt_catalog::Catalog;
use volt_index::Key;
use volt_value::Value;

/// Tables, by their numbers from 0, and what undoes their changes. They are seen as the tables as they
/// stand, and as they stood before each change that can be undone, the oldest first.
#[derive(Drop)]
pub struct Tables {
    alloc: Global,
    tables: Vec<TableRows>,
    undo: Undo<Step>,
}

impl Model for Tables {
    ghost use Rattle.table_store.specs.Steps.{Store, past_of, AreUndoable};

    ghost Value = { Store };

    ghost view = { λ t. record { now = t.tables.items; past = past_of t.undo.steps t.tables.items } };

    ghost invariant = { λ t. AreUndoable t.undo.steps t.tables.items };
}

impl Tables {
    /// These tables, of which no change can be undone.
    pub fn of(alloc: Global, tables: Vec<TableRows>) -> Tables
        ensures { result ≡ record { now = tables.items; past = [] } }
    {
        Tables {
            alloc,
            tables,
            undo: Undo::new(alloc),
        }
    }

    /// The tables of a catalog, without rows, numbered as there.
    pub fn new(alloc: Global, catalog: &Catalog) -> Result<Tables, AllocError>
        ensures { IfOk result (λ tables. tables ≡ empty_tables catalog.now) }
    {
        let indexes = catalog.indexes();
        let mut tables = Vec::new(alloc);
        let mut left = catalog.tables();
        let mut number = 0u16;
        while let [table, rest @ ..] = left {
            tables.push(empty_table(alloc, number, table, indexes)?)?;
            number += 1;
            left = rest;
        }
        Ok(Tables::of(alloc, tables))
    }

    /// How many tables there are.
    pub fn len(&self) -> usize
        ensures { result ≡ length self.now.now }
    {
        self.tables.len()
    }

    /// The table of a number.
    pub fn table(&self, number: u16) -> &TableRows
        requires { number < length self.now.now }
        ensures { result.now ≡ table_at self.now.now number }
    {
        &self.tables[number as usize]
    }

    /// Puts a row into a table. A refusal is that of `TableRows::insert`, and leaves all as it was.
    pub fn insert(&mut self, number: u16, row: &[Value]) -> Result<(), RowFault>
        requires number { number < length self.old.now }
        requires count { length row.now ≡ length (table_at self.old.now number).schema.fields }
        ensures changed { OnOk result (self.new
            ≡ changed self.old (with_table self.old.now number (inserted (table_at self.old.now number) row.now))) }
        ensures accepted { OnOk result (row_fault (table_at self.old.now number) row.now ≡ None) }
        ensures refused { IfErr result (λ fault.
            (fault ≡ RowFault.NoMemory) ⊎ (row_fault (table_at self.old.now number) row.now ≡ Some fault)) }
        ensures kept { OnErr result (self.new ≡ self.old) }
    {
        let at = number as usize;
        let key = self.tables[at].key_of(row)?;
        self.undo.reserve(1)?;
        self.tables[at].insert(row)?;
        self.undo.note(Step::Inserted(number, key));
        Ok(())
    }

    /// Takes the row of a key out of a table, and answers whether there was one.
    pub fn delete(&mut self, number: u16, key: &Key) -> Result<bool, AllocError>
        requires { number < length self.old.now }
        ensures held { IfOk result (λ held. held ≡ is_some (row_of_key (table_at self.old.now number) key.now)) }
        ensures changed { result ≡ Ok true → self.new
            ≡ changed self.old (with_table self.old.now number (deleted (table_at self.old.now number) key.now)) }
        ensures same { result ≡ Ok false → self.new ≡ self.old }
        ensures kept { OnErr result (self.new ≡ self.old) }
    {
        self.undo.reserve(1)?;
        let Some(row) = self.tables[number as usize].take(key)? else {
            return Ok(false);
        };
        self.undo.note(Step::Deleted(number, row));
        Ok(true)
    }

    /// Puts a row in the place of the one that has its primary key, and answers whether there was one.
    /// A refusal is that of `TableRows::update`, and leaves all as it was.
    pub fn update(&mut self, number: u16, key: &Key, row: &[Value]) -> Result<bool, RowFault>
        requires number { number < length self.old.now }
        requires count { length row.now ≡ length (table_at self.old.now number).schema.fields }
        requires stays { key.now ≡ row_key (primary_key (table_at self.old.now number).schema) row.now }
        ensures held { IfOk result (λ held. held ≡ is_some (row_of_key (table_at self.old.now number) key.now)) }
        ensures changed { result ≡ Ok true → self.new
            ≡ changed self.old (with_table self.old.now number (updated (table_at self.old.now number) row.now)) }
        ensures same { result ≡ Ok false → self.new ≡ self.old }
        ensures accepted { result ≡ Ok true → row_fault (deleted (table_at self.old.now number) key.now) row.now ≡ None }
        ensures refused { IfErr result (λ fault. (fault ≡ RowFault.NoMemory)
            ⊎ (row_fault (deleted (table_at self.old.now number) key.now) row.now ≡ Some fault)) }
        ensures kept { OnErr result (self.new ≡ self.old) }
    {
        let at = number as usize;
        // The old row has the same key.
        let old_key = self.tables[at].key_of(row)?;
        self.undo.reserve(1)?;
        let Some(old) = self.tables[at].replace(key, row)? else {
            return Ok(false);
        };
        self.undo.note(Step::Updated(number, old_key, old));
        Ok(true)
    }

    /// The mark above all changes that can be undone. It takes no memory.
    pub fn begin_undo(&self) -> Mark
        ensures { result ≡ length self.now.past }
    {
        self.undo.mark()
    }

    /// Moves the rows of the table at a place to its first places.
    fn compact(&mut self, at: usize) -> Result<(), AllocError>
        requires { at < length self.old.now }
        ensures { self.new ≡ self.old }
    {
        let _blocks = self.tables[at].compact()?;
        Ok(())
    }

    /// Moves the rows of each table to its first places, n rows into n / 64 blocks, rounded up. The
    /// tables and the changes that can be undone are the same after it, also where it runs out of memory:
    /// what undoes a change finds its row by the key.
    pub fn compact_all(&mut self) -> Result<(), AllocError>
        ensures { self.new ≡ self.old }
    {
        for at in 0..self.tables.len() {
            self.compact(at)?;
        }
        Ok(())
    }

    /// A scan of the table at a place.
    fn share(&mut self, at: usize) -> Result<CowScan, AllocError>
        requires { at < length self.old.now }
        ensures scan { IfOk result (IsScanOf (table_at self.old.now at)) }
        ensures kept { self.new ≡ self.old }
    {
        self.tables[at].share()
    }

    /// A scan of each table, whose blocks have its rows as they stand, n rows at the first n places,
    /// whatever is changed later. After `compact_all` no row is copied. The tables are the same after
    /// it, also where it runs out of memory.
    pub fn share_blocks(&mut self) -> Result<Vec<CowScan>, AllocError>
        ensures scans { IfOk result (λ scans. AreScans self.old.now scans.items) }
        ensures kept { self.new ≡ self.old }
    {
        let mut scans = Vec::new(self.alloc);
        for at in 0..self.tables.len() {
            scans.push(self.share(at)?)?;
        }
        Ok(scans)
    }

    /// Undoes the newest change above a mark, and answers whether there was one. Out of memory, all
    /// stays as it was.
    fn undo_newest(&mut self, mark: Mark) -> Result<bool, AllocError>
        ensures undone { result ≡ Ok true → history self.old ≡ history self.new ++ self.old.now ∷ [] }
        ensures above { result ≡ Ok false → length self.old.past ≤ mark }
        ensures below { OnErr result (mark < length self.old.past) }
        ensures within { result ≡ Ok true → mark < length self.old.past }
        ensures same { result ≡ Ok false → self.new ≡ self.old }
        ensures kept { OnErr result (self.new ≡ self.old) }
    {
        let Some(step) = self.undo.roll_back(mark) else {
            return Ok(false);
        };
        match step.undo(&mut self.tables) {
            Ok(()) => Ok(true),
            Err(step) => {
                self.undo.note(step);
                Err(AllocError)
            }
        }
    }

    /// Gives back the tables, their rows and indexes, as they stood at a mark. Out of memory, they stand
    /// as they did before some change above it, and the call can be made again.
    pub fn roll_back(&mut self, mark: Mark) -> Result<(), AllocError>
        ensures rolled { history self.new ≡ take (length self.new.past + 1) (history self.old) }
        ensures done { OnOk result (length self.new.past ≤ mark) }
        ensures only { mark ≤ length self.old.past → mark ≤ length self.new.past }
    {
        while self.undo_newest(mark)? {}
        Ok(())
    }

    /// Forgets what undoes all changes. It is called for the outermost mark alone, below which there is
    /// none, and takes no memory.
    pub fn release(&mut self, mark: Mark)
        requires { mark ≡ 0 }
        ensures { self.new ≡ record self.old { past = [] } }
    {
        self.undo.release(mark);
    }
}
