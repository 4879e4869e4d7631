//! Steps in which no other step stands.

ghost use Rattle.std.specs.Prelude.{◌≡◌, Some, IfOk};
ghost use Rattle.sql_resolve.specs.Expressions.{meaning_of};
ghost use Rattle.proc_lang.specs.Steps as spec;
ghost use Rattle.proc_lang.specs.Values.{names_of};

use crate::draft::Draft;
use crate::fault::ProcFault;
use crate::values::{is_truth, names_of, sort_in, value_of, values};
use ddl_parse::ReturnText;
use expr_parse::Expr;
use sql_check::{Examined, examine};
use sql_parse::Stmt;
use sql_plan::{ProgramStep, Returned};
use sql_resolve::Notes;
use sqlite_items::Items;
use std::alloc::{AllocError, Global};
use volt_catalog::Catalog;
use volt_value::{Class, Text};

/// How many statements a procedure may have.
pub(crate) const MOST_STATEMENTS: usize = 64;

/// How many values a RETURN may have.
const MOST_VALUES: usize = 255;

/// LET.
pub(crate) fn make_let(
    alloc: Global,
    draft: &mut Draft,
    variable: &Text,
    e: &Expr,
) -> Result<ProgramStep, AllocError>
    ensures { IfOk result (λ step. (draft.new, step) ≡ spec.let_made variable.now (meaning_of (names_of draft.old.bound) e.now) draft.old) }
{
    let (notes, made) = value_of(alloc, &draft.bound, e)?;
    let sort = sort_in(&draft.bound, e);
    draft.blame_if(is_truth(sort), ProcFault::BadType);
    draft.note(notes.fault);
    let number = draft.set_variable(alloc, variable, sort)?;
    Ok(ProgramStep::Let {
        variable: number,
        args: notes.args,
        value: made,
    })
}

/// The number of a statement. Behind those that there may be it is none.
fn statement_number(number: usize) -> u16
    ensures { result ≡ spec.statement_number number }
{
    if number < MOST_STATEMENTS {
        number as u16
    } else {
        0
    }
}

/// Keeps the rows of a statement as a result, where one is named.
fn keep(
    alloc: Global,
    draft: &mut Draft,
    name: &Option<Text>,
    heads: &[(Text, Class)],
) -> Result<Option<usize>, AllocError>
    ensures { IfOk result (λ made. (draft.new, made) ≡ spec.kept name.now heads.now draft.old) }
{
    match name {
        Some(name) => Ok(Some(draft.make_result(alloc, name, heads)?)),
        None => Ok(None),
    }
}

/// SQL, of a statement whose tables are there.
fn make_found(
    alloc: Global,
    catalog: &Catalog,
    single: bool,
    draft: &mut Draft,
    name: &Option<Text>,
    found: Examined,
) -> Result<ProgramStep, AllocError>
    ensures { IfOk result (λ step. (draft.new, step) ≡ spec.sql_found catalog.now single name.now (Some found) draft.old) }
{
    let number = statement_number(draft.statements.len());
    let made = keep(alloc, draft, name, found.prepared.columns.as_slice())?;
    draft.add_statement(catalog, single, found.fault, found.prepared)?;
    Ok(ProgramStep::Sql {
        statement: number,
        args: found.args,
        result: made,
    })
}

/// SQL.
pub(crate) fn make_sql(
    alloc: Global,
    catalog: &Catalog,
    single: bool,
    draft: &mut Draft,
    name: &Option<Text>,
    statement: &Stmt,
) -> Result<ProgramStep, AllocError>
    ensures { IfOk result (λ step. (draft.new, step) ≡ spec.sql_made catalog.now single name.now statement.now draft.old) }
{
    match examine(alloc, catalog, Some(&draft.bound), statement, single)? {
        Some(found) => make_found(alloc, catalog, single, draft, name, found),
        None => {
            draft.blame(ProcFault::no_such_name());
            Ok(ProgramStep::Sql {
                statement: 0,
                args: Items::new(alloc),
                result: None,
            })
        }
    }
}

/// ABORT.
pub(crate) fn make_abort(alloc: Global, message: &Text) -> Result<ProgramStep, AllocError>
    ensures { IfOk result (λ step. step ≡ ProgramStep.Abort message.now) }
{
    Ok(ProgramStep::Abort(Text::of(alloc, message.as_str())?))
}

/// The rows of a result, which are returned.
fn return_result(draft: &mut Draft, made: Option<usize>) -> Returned
    ensures { (draft.new, result) ≡ spec.result_returned made draft.old }
{
    match made {
        Some(number) => Returned::Result(number),
        None => {
            draft.blame(ProcFault::UnboundName);
            Returned::Nothing
        }
    }
}

/// The values of a RETURN.
fn return_values(
    alloc: Global,
    draft: &mut Draft,
    expressions: &[Expr],
) -> Result<Returned, AllocError>
    ensures { IfOk result (λ what. (draft.new, what) ≡ spec.values_returned expressions.now draft.old) }
{
    let mut notes = Notes::new(alloc);
    let names = names_of(&draft.bound);
    let made = values(alloc, &names, &mut notes, expressions)?;
    notes.limit(MOST_VALUES, expressions.len());
    draft.note(notes.fault);
    Ok(Returned::Values {
        args: notes.args,
        values: made,
    })
}

/// What a RETURN gives.
fn returned_of(
    alloc: Global,
    draft: &mut Draft,
    written: &ReturnText,
) -> Result<Returned, AllocError>
    ensures { IfOk result (λ what. (draft.new, what) ≡ spec.returned_of written.now draft.old) }
{
    match written {
        ReturnText::Nothing => Ok(Returned::Nothing),
        ReturnText::Result(name) => {
            let made = draft.bound.result_named(name);
            Ok(return_result(draft, made))
        }
        ReturnText::Values(expressions) => return_values(alloc, draft, expressions.as_slice()),
    }
}

/// RETURN.
pub(crate) fn make_return(
    alloc: Global,
    draft: &mut Draft,
    written: &ReturnText,
) -> Result<ProgramStep, AllocError>
    ensures { IfOk result (λ step. (draft.new, step) ≡ spec.return_made written.now draft.old) }
{
    Ok(ProgramStep::Return(returned_of(alloc, draft, written)?))
}
