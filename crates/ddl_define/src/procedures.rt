//! What later definitions must know of a procedure.

ghost use Rattle.std.specs.Prelude.{◌≡◌, ◌++◌, [], ◌∷◌, map, IfOk, OnOk};
ghost use Rattle.std.specs.List.{list_any};
ghost use Rattle.volt_catalog.specs.Names.{same_name};
ghost use Rattle.ddl_define.specs.Procedures as spec;

use crate::definitions::DefinedProcedure;
use ddl_parse::{ProcBody, ProcText, StepText};
use sql_parse::{SecondTable, Select, Stmt};
use sql_resolve::is_same;
use sqlite_items::Items;
use std::alloc::{AllocError, Global};
use volt_catalog::CatalogFault;
use volt_value::Text;

/// How many procedures there may be.
const MOST_PROCEDURES: usize = 256;

/// Notes a table that is named.
fn note(alloc: Global, tables: &mut Items<Text>, name: &Text) -> Result<(), AllocError>
    ensures { OnOk result (tables.new ≡ tables.old ++ name.now ∷ []) }
{
    tables.push(Text::of(alloc, name.as_str())?)
}

/// Notes the tables of a FROM.
fn note_from(alloc: Global, tables: &mut Items<Text>, select: &Select) -> Result<(), AllocError>
    ensures { OnOk result (tables.new ≡ tables.old ++ spec.tables_in (Stmt.Select select.now)) }
{
    note(alloc, tables, &select.first.table)?;
    match &select.second {
        None => Ok(()),
        Some(SecondTable::Listed(second)) => note(alloc, tables, &second.table),
        Some(SecondTable::Joined { table: second, .. }) => note(alloc, tables, &second.table),
    }
}

/// Notes the tables that a statement names.
fn note_tables(alloc: Global, tables: &mut Items<Text>, statement: &Stmt) -> Result<(), AllocError>
    ensures { OnOk result (tables.new ≡ tables.old ++ spec.tables_in statement.now) }
{
    match statement {
        Stmt::Insert(insert) => note(alloc, tables, &insert.table),
        Stmt::Update(update) => note(alloc, tables, &update.table),
        Stmt::Delete(delete) => note(alloc, tables, &delete.table),
        Stmt::Select(select) => note_from(alloc, tables, select),
    }
}

/// Notes the tables that the statements of a step name.
#[cycle(note_step)]
fn note_step(alloc: Global, tables: &mut Items<Text>, step: &StepText) -> Result<(), AllocError>
    ensures { OnOk result (tables.new ≡ tables.old ++ spec.tables_in_step step.now) }
{
    match step {
        StepText::Sql { statement, .. } => note_tables(alloc, tables, statement),
        StepText::If {
            steps,
            otherwise,
            ..
        } => {
            note_steps(alloc, tables, steps.as_slice())?;
            note_steps(alloc, tables, otherwise.as_slice())
        }
        StepText::For { steps, .. } => note_steps(alloc, tables, steps.as_slice()),
        _ => Ok(()),
    }
}

/// Notes the tables that the statements of steps name.
#[cycle(note_step)]
fn note_steps(alloc: Global, tables: &mut Items<Text>, steps: &[StepText]) -> Result<(), AllocError>
    ensures { OnOk result (tables.new ≡ tables.old ++ spec.all_tables (map spec.tables_in_step steps.now)) }
{
    for step in steps {
        note_step(alloc, tables, step)?;
    }
    Ok(())
}

/// What later definitions must know of a procedure.
pub(crate) fn procedure_from(alloc: Global, text: &ProcText) -> Result<DefinedProcedure, AllocError>
    ensures { IfOk result (λ procedure. procedure ≡ spec.procedure_from text.now) }
{
    let mut tables = Items::new(alloc);
    match &text.body {
        ProcBody::Statement(statement) => note_tables(alloc, &mut tables, statement)?,
        ProcBody::Program(program) => note_steps(alloc, &mut tables, program.steps.as_slice())?,
    }
    Ok(DefinedProcedure {
        name: Text::of(alloc, text.name.as_str())?,
        tables,
    })
}

/// Whether one of the procedures has a name.
fn is_procedure(procedures: &[DefinedProcedure], name: &Text) -> bool
    ensures { result ≡ spec.is_procedure procedures.now name.now }
{
    procedures
        .iter()
        .any(|procedure| is_same(name, &procedure.name))
}

/// Whether a name is that of one of the tables.
fn is_among(tables: &[Text], name: &Text) -> bool
    ensures { result ≡ list_any (same_name name.now) tables.now }
{
    tables.iter().any(|table| is_same(name, table))
}

/// Whether a statement of one of the procedures names a table.
pub(crate) fn is_in_use(procedures: &[DefinedProcedure], table: &Text) -> bool
    ensures { result ≡ spec.is_in_use procedures.now table.now }
{
    procedures
        .iter()
        .any(|procedure| is_among(procedure.tables.as_slice(), table))
}

/// Why a procedure can't be defined behind these.
pub(crate) fn fault_of_procedure(
    procedures: &[DefinedProcedure],
    text: &ProcText,
) -> Option<CatalogFault>
    ensures { result ≡ spec.fault_of_procedure procedures.now text.now }
{
    if is_procedure(procedures, &text.name) {
        Some(CatalogFault::DuplicateName)
    } else if procedures.len() >= MOST_PROCEDURES {
        Some(CatalogFault::TooMany)
    } else {
        None
    }
}
