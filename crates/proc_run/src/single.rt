//! Steps that have no inner ones, once they are counted.

ghost use Rattle.std.specs.Prelude.{◌≡◌, [], ◌∷◌, Ok, map, IfOk};
ghost use Rattle.sql_meaning.specs.Expressions.{scalar_of};
ghost use Rattle.sql_meaning.specs.Programs as program;
ghost use Rattle.proc_run.specs.Running as spec;

use crate::knowledge::Knowledge;
use crate::path::Path;
use crate::went::Went;
use expr_eval::{value, values};
use sql_plan::{Cause, ProgramValue, Returned, Row, Rows, RunFault, Scalar};
use sqlite_items::Items;
use std::alloc::{AllocError, Global};
use volt_value::{Text, Value};

/// Aborts with the fault of an expression.
fn aborted(fault: RunFault) -> Result<Went, AllocError>
    ensures { IfOk result (λ went. spec.IsAborted fault went) }
{
    match fault {
        RunFault::Fault(fault) => Ok(Went::Aborts(Cause::Fault(fault))),
        RunFault::NoMemory => Err(AllocError),
    }
}

/// LET.
pub(crate) fn do_let(
    alloc: Global,
    known: &mut Knowledge,
    variable: usize,
    places: &[ProgramValue],
    e: &Scalar,
) -> Result<Went, AllocError>
    ensures { IfOk result (λ went. (left : spec.Left) → spec.GoesSo went known.new left (λ go.
        program.or_abort (scalar_of e.now [] (program.arguments known.old places.now))
        (λ x. go (program.set_variable known.old variable x)))) }
{
    let args = known.arguments(alloc, places)?;
    match value(alloc, e, &[], args.as_slice()) {
        Ok(value) => {
            known.set_variable(variable, value);
            Ok(Went::On)
        }
        Err(fault) => aborted(fault),
    }
}

/// A statement. What is left of its step is to keep its rows.
pub(crate) fn do_sql(
    alloc: Global,
    known: &mut Knowledge,
    statement: u16,
    places: &[ProgramValue],
) -> Result<Went, AllocError>
    ensures { IfOk result (λ went. (left : spec.Left) → spec.GoesSo went known.new left (λ go.
        program.asked known.old statement (program.arguments known.old places.now)
        (λ later answer. program.or_abort answer (λ rows. left [] rows later go)))) }
{
    let args = known.arguments(alloc, places)?;
    if !known.count_statement() {
        return Ok(Went::Aborts(Cause::Statements));
    }
    Ok(Went::Asks {
        statement,
        args,
        path: Path::here(alloc),
    })
}

/// ABORT.
pub(crate) fn do_abort(alloc: Global, text: &Text) -> Result<Went, AllocError>
    ensures { IfOk result (λ went. went ≡ Went.Aborts (Cause.User text.now)) }
{
    Ok(Went::Aborts(Cause::User(Text::of(alloc, text.as_str())?)))
}

/// The one row of these values.
fn one_row(alloc: Global, row: Vec<Value>) -> Result<Rows, AllocError>
    ensures { IfOk result (λ rows. rows.rows ≡ row.items ∷ []) }
{
    let mut rows = Items::new(alloc);
    rows.push(Row::from_vec(row))?;
    Ok(Rows { rows })
}

/// RETURN of expressions.
fn return_values(
    alloc: Global,
    known: &Knowledge,
    places: &[ProgramValue],
    expressions: &[Scalar],
) -> Result<Went, AllocError>
    ensures { IfOk result (λ went. (left : spec.Left) → spec.GoesSo went known.now left (λ go.
        program.returns known.now (Returned.Values places.now expressions.now))) }
{
    let args = known.arguments(alloc, places)?;
    match values(alloc, expressions, &[], args.as_slice()) {
        Ok(row) => Ok(Went::Returns(one_row(alloc, row)?)),
        Err(fault) => aborted(fault),
    }
}

/// RETURN. The rows of a result are taken from what is known.
pub(crate) fn do_return(
    alloc: Global,
    known: &mut Knowledge,
    what: &Returned,
) -> Result<Went, AllocError>
    ensures { IfOk result (λ went. (left : spec.Left) → spec.GoesSo went known.new left (λ go. program.returns known.old what.now)) }
{
    match what {
        Returned::Nothing => Ok(Went::Returns(no_rows(alloc))),
        Returned::Result(number) => {
            let rows = known.take_result(*number);
            Ok(Went::Returns(rows.into_rows(alloc)?))
        }
        Returned::Values { args, values } => {
            return_values(alloc, known, args.as_slice(), values.as_slice())
        }
    }
}

pub(crate) fn no_rows(alloc: Global) -> Rows
    ensures { result.rows ≡ [] }
{
    Rows {
        rows: Items::new(alloc),
    }
}
