//! What the refusal of a statement is about.

ghost use Rattle.std.specs.Prelude.{◌≡◌, IfOk, OnOk};
ghost use Rattle.sql_resolve.specs.Named.{bound_in};
ghost use Rattle.sql_complaints.specs.Complaints.{all_noted, first_of};
ghost use Rattle.sql_refusals.specs.Statements as spec;

use crate::select::{read_select, read_sources};
use crate::writes::{read_condition, read_insert, read_update};
use sql_check::{Examined, examine, find_sources, known_as, second_name};
use sql_complaints::{About, Complaint, Part, Search, copy};
use sql_parse::{Delete, Insert, Select, Stmt, Update};
use sql_resolve::{Bound, CheckFault, NamedTable, Names, table_named};
use std::alloc::{AllocError, Global};
use volt_catalog::{Catalog, Table};
use volt_value::Text;

/// The columns of a table that is changed.
fn names_of<'a>(name: &'a Text, table: &'a Table, program: Option<&'a Bound>) -> Names<'a>
    ensures { result ≡ spec.names_of name.now table.now (bound_in program.entry) }
{
    Names::of(NamedTable { name, table }, None).in_program(program)
}

/// A table that isn't there.
fn note_table(alloc: Global, search: &mut Search, name: &Text) -> Result<(), AllocError>
    ensures { OnOk result (search.new ≡ all_noted search.old (spec.no_table name.now)) }
{
    search.note(Part::Tables, About::NoTable(copy(alloc, name)?));
    Ok(())
}

fn insert(
    alloc: Global,
    catalog: &Catalog,
    program: Option<&Bound>,
    search: &mut Search,
    statement: &Insert,
) -> Result<(), AllocError>
    ensures { OnOk result (search.new ≡ all_noted search.old (spec.of_insert catalog.now (bound_in program.entry) statement.now)) }
{
    match table_named(catalog, &statement.table) {
        Some((_, table)) => {
            let names = Names::none().in_program(program);
            read_insert(alloc, &names, search, table, statement)
        }
        None => note_table(alloc, search, &statement.table),
    }
}

fn update(
    alloc: Global,
    catalog: &Catalog,
    program: Option<&Bound>,
    search: &mut Search,
    statement: &Update,
) -> Result<(), AllocError>
    ensures { OnOk result (search.new ≡ all_noted search.old (spec.of_update catalog.now (bound_in program.entry) statement.now)) }
{
    match table_named(catalog, &statement.table) {
        Some((_, table)) => {
            let names = names_of(&statement.table, table, program);
            read_update(alloc, &names, search, table, statement)
        }
        None => note_table(alloc, search, &statement.table),
    }
}

fn delete(
    alloc: Global,
    catalog: &Catalog,
    program: Option<&Bound>,
    search: &mut Search,
    statement: &Delete,
) -> Result<(), AllocError>
    ensures { OnOk result (search.new ≡ all_noted search.old (spec.of_delete catalog.now (bound_in program.entry) statement.now)) }
{
    match table_named(catalog, &statement.table) {
        Some((_, table)) => {
            let names = names_of(&statement.table, table, program);
            let filter = statement.filter.as_ref();
            read_condition(alloc, &names, search, Part::Where, filter)
        }
        None => note_table(alloc, search, &statement.table),
    }
}

#[tactic(auto, using(sql_complaints::proofs::SearchLemmas::all_noted_append))]
fn select(
    alloc: Global,
    catalog: &Catalog,
    program: Option<&Bound>,
    search: &mut Search,
    statement: &Select,
) -> Result<(), AllocError>
    ensures { OnOk result (search.new ≡ all_noted search.old (spec.of_select catalog.now (bound_in program.entry) statement.now)) }
{
    read_sources(alloc, catalog, search, statement)?;
    match find_sources(catalog, statement) {
        Some(from) => read_select(alloc, &from.names().in_program(program), search, statement),
        None => Ok(()),
    }
}

/// The first complaint of a fault in a statement.
#[tactic(auto, using(sql_complaints::proofs::SearchLemmas::found_first))]
fn first_complaint(
    alloc: Global,
    catalog: &Catalog,
    program: Option<&Bound>,
    statement: &Stmt,
    fault: CheckFault,
) -> Result<Option<Complaint>, AllocError>
    ensures { IfOk result (λ found. found ≡ first_of fault (spec.complaints_of catalog.now (bound_in program.entry) statement.now)) }
{
    let mut search = Search::of(fault);
    match statement {
        Stmt::Insert(statement) => insert(alloc, catalog, program, &mut search, statement)?,
        Stmt::Update(statement) => update(alloc, catalog, program, &mut search, statement)?,
        Stmt::Delete(statement) => delete(alloc, catalog, program, &mut search, statement)?,
        Stmt::Select(statement) => select(alloc, catalog, program, &mut search, statement)?,
    }
    Ok(search.found)
}

/// How many parameters and outputs a statement has.
fn counts_of(found: Option<Examined>) -> Option<Complaint>
    ensures { result ≡ spec.counts_of found }
{
    match found {
        Some(found) => Some(Complaint {
            part: Part::Whole,
            about: About::Many {
                params: found.prepared.params.len(),
                columns: found.prepared.columns.len(),
            },
        }),
        None => None,
    }
}

/// The tables that a statement joins.
fn joined_in(alloc: Global, statement: &Stmt) -> Result<Option<Complaint>, AllocError>
    ensures { IfOk result (λ found. found ≡ spec.joined_in statement.now) }
{
    let Stmt::Select(select) = statement else {
        return Ok(None);
    };
    let Some(second) = &select.second else {
        return Ok(None);
    };
    let first = copy(alloc, known_as(&select.first))?;
    let second = copy(alloc, known_as(second_name(second)))?;
    Ok(Some(Complaint {
        part: Part::On,
        about: About::Join { first, second },
    }))
}

/// What a refusal of a statement by a fault is about: the first thing in the text, part by part, that is
/// this fault. Of TooMany it is how many parameters and outputs the statement has, and of
/// NotDistributable the tables that it joins.
///
/// Ask it of the fault of a statement that was refused. `None` where the statement has nothing of this
/// fault, and of `NoMemory`.
pub fn about_refusal(
    alloc: Global,
    catalog: &Catalog,
    program: Option<&Bound>,
    statement: &Stmt,
    fault: CheckFault,
) -> Result<Option<Complaint>, AllocError>
    ensures { IfOk result (λ found. found ≡ spec.about_refusal catalog.now (bound_in program.entry) statement.now fault) }
{
    match fault {
        CheckFault::TooMany => {
            let found = examine(alloc, catalog, program, statement, true)?;
            Ok(counts_of(found))
        }
        CheckFault::NotDistributable => joined_in(alloc, statement),
        _ => first_complaint(alloc, catalog, program, statement, fault),
    }
}
