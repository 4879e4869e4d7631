//! Steps from a statement on that has given its rows.

ghost use Rattle.std.specs.Prelude.{◌≡◌, [], ◌∷◌, IfOk};
ghost use Rattle.sql_meaning.specs.Programs as program;
ghost use Rattle.proc_run.specs.Running as spec;

use crate::knowledge::Knowledge;
use crate::path::Path;
use crate::running::{go_from, rounds};
use crate::shared::SharedRows;
use crate::turn::Turn;
use crate::went::Went;
use sql_plan::{ProgramStep, Rows};
use std::alloc::{AllocError, Global};

/// The rest of a branch of an IF.
#[cycle(resume)]
fn resume_branch(
    alloc: Global,
    known: &mut Knowledge,
    step: &ProgramStep,
    first: bool,
    path: Path,
    rows: Rows,
) -> Result<Went, AllocError>
    ensures { IfOk result (λ went. spec.GoesSo went known.new (spec.left_in_step step.now)
        (spec.resumed_step (Turn.Branch first ∷ path) step.now rows.rows known.old)) }
{
    let ProgramStep::If {
        steps,
        otherwise,
        ..
    } = step
    else {
        return Ok(Went::On);
    };
    let went = if first {
        resume(alloc, known, steps.as_slice(), path, rows)?
    } else {
        resume(alloc, known, otherwise.as_slice(), path, rows)?
    };
    went.behind(Turn::Branch(first))
}

/// The rest of a round of a FOR, and the rounds behind it.
#[cycle(resume)]
fn resume_round(
    alloc: Global,
    known: &mut Knowledge,
    step: &ProgramStep,
    over: SharedRows,
    taken: usize,
    path: Path,
    rows: Rows,
) -> Result<Went, AllocError>
    ensures { IfOk result (λ went. spec.GoesSo went known.new (spec.left_in_step step.now)
        (spec.resumed_step (Turn.Round over taken ∷ path) step.now rows.rows known.old)) }
{
    let ProgramStep::For { row, steps, .. } = step else {
        return Ok(Went::On);
    };
    let went = resume(alloc, known, steps.as_slice(), path, rows)?;
    if !went.is_on() {
        return went.behind(Turn::Round { over, taken });
    }
    rounds(alloc, known, *row, steps.as_slice(), &over, taken)
}

/// The end of a statement's step.
fn resume_statement(
    alloc: Global,
    known: &mut Knowledge,
    step: &ProgramStep,
    rows: Rows,
) -> Result<Went, AllocError>
    ensures { IfOk result (λ went. spec.GoesSo went known.new (spec.left_in_step step.now)
        (spec.resumed_step [] step.now rows.rows known.old)) }
{
    if let ProgramStep::Sql { result, .. } = step {
        known.keep(alloc, *result, rows)?;
    }
    Ok(Went::On)
}

/// The rest of a step.
#[cycle(resume)]
fn resume_step(
    alloc: Global,
    known: &mut Knowledge,
    step: &ProgramStep,
    path: Path,
    rows: Rows,
) -> Result<Went, AllocError>
    ensures { IfOk result (λ went. spec.GoesSo went known.new (spec.left_in_step step.now)
        (spec.resumed_step path step.now rows.rows known.old)) }
{
    let mut path = path;
    match path.take() {
        None => resume_statement(alloc, known, step, rows),
        Some(Turn::At(_)) => Ok(Went::On),
        Some(Turn::Branch(first)) => resume_branch(alloc, known, step, first, path, rows),
        Some(Turn::Round { over, taken }) => {
            resume_round(alloc, known, step, over, taken, path, rows)
        }
    }
}

/// The rest of the step of a number, and then the steps behind it.
#[cycle(resume)]
fn resume_at(
    alloc: Global,
    known: &mut Knowledge,
    steps: &[ProgramStep],
    number: usize,
    path: Path,
    rows: Rows,
) -> Result<Went, AllocError>
    ensures { IfOk result (λ went. spec.GoesSo went known.new (spec.left_in steps.now)
        (spec.resumed (Turn.At number ∷ path) steps.now rows.rows known.old)) }
{
    if number >= steps.len() {
        return Ok(Went::On);
    }
    let went = resume_step(alloc, known, &steps[number], path, rows)?;
    if !went.is_on() {
        return went.behind(Turn::At(number));
    }
    go_from(alloc, known, steps, number + 1)
}

/// The rest of steps.
#[cycle(resume)]
pub(crate) fn resume(
    alloc: Global,
    known: &mut Knowledge,
    steps: &[ProgramStep],
    path: Path,
    rows: Rows,
) -> Result<Went, AllocError>
    ensures { IfOk result (λ went. spec.GoesSo went known.new (spec.left_in steps.now)
        (spec.resumed path steps.now rows.rows known.old)) }
{
    let mut path = path;
    match path.take() {
        None => Ok(Went::On),
        Some(Turn::At(number)) => resume_at(alloc, known, steps, number, path, rows),
        Some(Turn::Branch(_)) => Ok(Went::On),
        Some(Turn::Round { .. }) => Ok(Went::On),
    }
}
