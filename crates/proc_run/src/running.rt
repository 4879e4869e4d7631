//! Steps from their beginning.

ghost use Rattle.std.specs.Prelude.{◌≡◌, [], map, drop, IfOk};
ghost use Rattle.sql_meaning.specs.Expressions.{holds};
ghost use Rattle.sql_meaning.specs.Programs as program;
ghost use Rattle.proc_run.specs.Running as spec;

use crate::knowledge::Knowledge;
use crate::row_at::RowAt;
use crate::shared::SharedRows;
use crate::single::{do_abort, do_let, do_return, do_sql};
use crate::turn::Turn;
use crate::went::Went;
use expr_eval::holds;
use sql_plan::{Cause, Cond, Fault, ProgramStep, ProgramValue};
use std::alloc::{AllocError, Global};

/// Whether the condition of an IF is true.
fn chosen(
    alloc: Global,
    known: &Knowledge,
    places: &[ProgramValue],
    condition: &Cond,
) -> Result<Result<bool, Fault>, AllocError>
    ensures { IfOk result (λ chosen. chosen ≡ holds condition.now [] (program.arguments known.now places.now)) }
{
    let args = known.arguments(alloc, places)?;
    Ok(holds(condition, &[], args.as_slice()))
}

/// The rounds of a FOR over rows, behind those that were taken.
#[cycle(steps)]
pub(crate) fn rounds(
    alloc: Global,
    known: &mut Knowledge,
    row: usize,
    steps: &[ProgramStep],
    over: &SharedRows,
    taken: usize,
) -> Result<Went, AllocError>
    ensures { IfOk result (λ went. spec.GoesSo went known.new (spec.left_in_rounds row steps.now)
        (program.for_each row (map program.does steps.now) (drop taken over.now) known.old)) }
{
    if steps.is_empty() {
        return Ok(Went::On);
    }
    for number in taken..over.len() {
        known.set_row(row, RowAt::of(over.share()?, number));
        let went = go_from(alloc, known, steps, 0)?;
        if !went.is_on() {
            let over = over.share()?;
            let taken = number + 1;
            let ended = went.behind(Turn::Round { over, taken })?;
            return Ok(ended);
        }
    }
    Ok(Went::On)
}

/// A step, once it is counted.
#[cycle(steps)]
fn do_step(alloc: Global, known: &mut Knowledge, step: &ProgramStep) -> Result<Went, AllocError>
    ensures { IfOk result (λ went. spec.OnceCounted known.old (λ before.
        spec.GoesSo went known.new (spec.left_in_step step.now) (program.does step.now before))) }
{
    match step {
        ProgramStep::Let {
            variable,
            args,
            value,
        } => do_let(alloc, known, *variable, args.as_slice(), value),
        ProgramStep::Sql {
            statement,
            args,
            ..
        } => do_sql(alloc, known, *statement, args.as_slice()),
        ProgramStep::If {
            args,
            condition,
            steps,
            otherwise,
        } => {
            match chosen(alloc, known, args.as_slice(), condition)? {
                Ok(true) => {
                    let went = go_from(alloc, known, steps.as_slice(), 0)?;
                    went.behind(Turn::Branch(true))
                }
                Ok(false) => {
                    let went = go_from(alloc, known, otherwise.as_slice(), 0)?;
                    went.behind(Turn::Branch(false))
                }
                Err(fault) => Ok(Went::Aborts(Cause::Fault(fault))),
            }
        }
        ProgramStep::For { row, result, steps } => {
            let over = known.result(*result)?;
            rounds(alloc, known, *row, steps.as_slice(), &over, 0)
        }
        ProgramStep::Abort(text) => do_abort(alloc, text),
        ProgramStep::Return(what) => do_return(alloc, known, what),
    }
}

/// A step. It is counted before all else.
#[cycle(steps)]
fn step(alloc: Global, known: &mut Knowledge, step: &ProgramStep) -> Result<Went, AllocError>
    ensures { IfOk result (λ went. spec.GoesSo went known.new (spec.left_in_step step.now) (program.does step.now known.old)) }
{
    if !known.count_step() {
        return Ok(Went::Aborts(Cause::Steps));
    }
    do_step(alloc, known, step)
}

/// Steps, one behind another, from the one of a number on.
#[cycle(steps)]
pub(crate) fn go_from(
    alloc: Global,
    known: &mut Knowledge,
    steps: &[ProgramStep],
    first: usize,
) -> Result<Went, AllocError>
    ensures { IfOk result (λ went. spec.GoesSo went known.new (spec.left_in steps.now)
        (program.all_of (map program.does (drop first steps.now)) known.old)) }
{
    for number in first..steps.len() {
        let went = step(alloc, known, &steps[number])?;
        if !went.is_on() {
            return went.behind(Turn::At(number));
        }
    }
    Ok(Went::On)
}
