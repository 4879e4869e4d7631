//! Checks a statement.

ghost use Rattle.std.specs.Prelude.{◌≡◌, ◌⊎◌, Some, is_some, Ok, Err, IfOk, IfErr};
ghost use Rattle.sql_resolve.specs.Named.{bound_in};
ghost use Rattle.sql_check.specs.Checked.{answered, checked, examined};
ghost use Rattle.sql_check.specs.Statements as spec;

use crate::examined::{Examined, finish};
use crate::select::examine_select;
use crate::writes::{delete, insert, update};
use sql_parse::{Delete, Insert, Stmt, Update};
use sql_plan::{Action, Prepared};
use sql_resolve::{Bound, CheckFault, NamedTable, Names, Notes, table_named};
use sqlite_items::Items;
use std::alloc::{AllocError, Global};
use volt_catalog::{Catalog, Table};
use volt_value::{Class, Text};

/// The columns of what a statement gives that changes a table.
fn modified_tuples(alloc: Global) -> Result<Items<(Text, Class)>, AllocError>
    ensures { IfOk result (λ columns. columns ≡ spec.modified_tuples) }
{
    let mut columns = Items::new(alloc);
    columns.push((Text::of(alloc, "modified_tuples")?, Class::Int))?;
    Ok(columns)
}

/// A statement that changes a table.
fn finish_change(
    alloc: Global,
    names: &Names<'_>,
    single: bool,
    table: &Table,
    notes: Notes,
    action: Action,
) -> Result<Option<Examined>, AllocError>
    ensures { IfOk result (λ found. found ≡ Some (spec.finished names.now.program single (is_some table.now.part) spec.modified_tuples notes action)) }
{
    let columns = modified_tuples(alloc)?;
    Ok(Some(finish(names, single, table.part.is_some(), columns, notes, action)))
}

fn examine_insert(
    alloc: Global,
    catalog: &Catalog,
    program: Option<&Bound>,
    statement: &Insert,
    single: bool,
) -> Result<Option<Examined>, AllocError>
    ensures { IfOk result (λ found. found ≡ spec.examined_insert catalog.now (bound_in program.entry) statement.now single) }
{
    let Some((number, table)) = table_named(catalog, &statement.table) else {
        return Ok(None);
    };
    let names = Names::none().in_program(program);
    let mut notes = Notes::new(alloc);
    let action = insert(alloc, &names, &mut notes, number, table, statement)?;
    finish_change(alloc, &names, single, table, notes, action)
}

fn examine_update(
    alloc: Global,
    catalog: &Catalog,
    program: Option<&Bound>,
    statement: &Update,
    single: bool,
) -> Result<Option<Examined>, AllocError>
    ensures { IfOk result (λ found. found ≡ spec.examined_update catalog.now (bound_in program.entry) statement.now single) }
{
    let Some((number, table)) = table_named(catalog, &statement.table) else {
        return Ok(None);
    };
    let named = NamedTable {
        name: &statement.table,
        table,
    };
    let names = Names::of(named, None).in_program(program);
    let mut notes = Notes::new(alloc);
    let action = update(alloc, &names, &mut notes, number, table, statement)?;
    finish_change(alloc, &names, single, table, notes, action)
}

fn examine_delete(
    alloc: Global,
    catalog: &Catalog,
    program: Option<&Bound>,
    statement: &Delete,
    single: bool,
) -> Result<Option<Examined>, AllocError>
    ensures { IfOk result (λ found. found ≡ spec.examined_delete catalog.now (bound_in program.entry) statement.now single) }
{
    let Some((number, table)) = table_named(catalog, &statement.table) else {
        return Ok(None);
    };
    let named = NamedTable {
        name: &statement.table,
        table,
    };
    let names = Names::of(named, None).in_program(program);
    let mut notes = Notes::new(alloc);
    let action = delete(alloc, &names, &mut notes, number, statement)?;
    finish_change(alloc, &names, single, table, notes, action)
}

/// A statement with its faults. It may stand in a program that has bound this before: there its
/// parameters are the places that take a value of the program, and a `?` is a fault.
///
/// `single` tells that it stands in a procedure that runs on one partition. `None` exactly where a
/// table that it names isn't there, or both tables of its FROM go by one name.
#[tactic(auto, unfolding(crate::specs::Checked::examined))]
pub fn examine(
    alloc: Global,
    catalog: &Catalog,
    program: Option<&Bound>,
    statement: &Stmt,
    single: bool,
) -> Result<Option<Examined>, AllocError>
    ensures { IfOk result (λ found. found ≡ examined catalog.now (bound_in program.entry) statement.now single) }
{
    match statement {
        Stmt::Insert(insert) => examine_insert(alloc, catalog, program, insert, single),
        Stmt::Update(update) => examine_update(alloc, catalog, program, update, single),
        Stmt::Delete(delete) => examine_delete(alloc, catalog, program, delete, single),
        Stmt::Select(select) => examine_select(alloc, catalog, program, select, single),
    }
}

/// The statement, where its tables are there and it has no fault.
#[tactic(auto, unfolding(crate::specs::Checked::answered))]
fn answer(found: Option<Examined>) -> Result<Prepared, CheckFault>
    ensures { result ≡ answered found }
{
    match found {
        Some(found) => found.accept(),
        None => Err(CheckFault::NoSuchName),
    }
}

/// Checks a statement against a catalog, and gives its plan.
///
/// `single` tells that it stands in a procedure that runs on one partition. Where the statement breaks
/// several rules, the answer is the fault of the least number. `NoMemory` is free.
pub fn prepare(
    alloc: Global,
    catalog: &Catalog,
    statement: &Stmt,
    single: bool,
) -> Result<Prepared, CheckFault>
    ensures accepted { IfOk result (λ prepared. checked catalog.now statement.now single ≡ Ok prepared) }
    ensures refused { IfErr result (λ fault. (fault ≡ CheckFault.NoMemory) ⊎ (checked catalog.now statement.now single ≡ Err fault)) }
{
    answer(examine(alloc, catalog, None, statement, single)?)
}
