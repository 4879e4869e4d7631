//! Steps.

ghost use Rattle.std.specs.Prelude.{◌≡◌, map, IfOk};
ghost use Rattle.sql_resolve.specs.Expressions.{meaning_of};
ghost use Rattle.proc_lang.specs.Steps as spec;
ghost use Rattle.proc_lang.specs.Values.{names_of};

use crate::draft::Draft;
use crate::fault::ProcFault;
use crate::statements::{make_abort, make_let, make_return, make_sql};
use crate::values::{condition_of, may_be_truth, sort_in};
use ddl_parse::StepText;
use expr_parse::Expr;
use sql_plan::{Cond, ProgramStep, ProgramValue};
use sqlite_items::Items;
use std::alloc::{AllocError, Global};
use volt_catalog::Catalog;
use volt_value::Text;

/// An IF up to the end of its first branch.
#[derive(Drop)]
pub struct Branch {
    pub chosen: Chosen,
    pub steps: Items<ProgramStep>,
}

/// The condition of an IF, and the values of the program that it takes.
#[derive(Drop)]
pub struct Chosen {
    pub args: Items<ProgramValue>,
    pub condition: Cond,
}

/// The condition of an IF.
fn make_condition(alloc: Global, draft: &mut Draft, e: &Expr) -> Result<Chosen, AllocError>
    ensures { IfOk result (λ made. (draft.new, made) ≡ spec.condition_made (meaning_of (names_of draft.old.bound) e.now) draft.old) }
{
    let (notes, condition) = condition_of(alloc, &draft.bound, e)?;
    let is_condition = may_be_truth(sort_in(&draft.bound, e));
    draft.blame_if(!is_condition, ProcFault::BadType);
    draft.note(notes.fault);
    Ok(Chosen {
        args: notes.args,
        condition,
    })
}

/// IF up to the end of its first branch.
#[cycle(step)]
fn make_branch(
    alloc: Global,
    catalog: &Catalog,
    single: bool,
    draft: &mut Draft,
    chosen: Chosen,
    steps_text: &[StepText],
) -> Result<Branch, AllocError>
    ensures { IfOk result (λ branch. (draft.new, branch) ≡ spec.branch_made chosen (map (spec.made catalog.now single) steps_text.now) draft.old) }
{
    let first = steps(alloc, catalog, single, draft, steps_text)?;
    Ok(Branch {
        chosen,
        steps: first,
    })
}

/// The rest of an IF.
#[cycle(step)]
fn make_otherwise(
    alloc: Global,
    catalog: &Catalog,
    single: bool,
    draft: &mut Draft,
    branch: Branch,
    steps_text: &[StepText],
) -> Result<ProgramStep, AllocError>
    ensures { IfOk result (λ step. (draft.new, step) ≡ spec.otherwise_made branch (map (spec.made catalog.now single) steps_text.now) draft.old) }
{
    let second = steps(alloc, catalog, single, draft, steps_text)?;
    Ok(ProgramStep::If {
        args: branch.chosen.args,
        condition: branch.chosen.condition,
        steps: branch.steps,
        otherwise: second,
    })
}

/// FOR.
#[cycle(step)]
fn make_for(
    alloc: Global,
    catalog: &Catalog,
    single: bool,
    draft: &mut Draft,
    row: &Text,
    name: &Text,
    steps_text: &[StepText],
) -> Result<ProgramStep, AllocError>
    ensures { IfOk result (λ step. (draft.new, step) ≡ spec.for_made row.now name.now (map (spec.made catalog.now single) steps_text.now) draft.old) }
{
    let over = draft.bound.result_named(name);
    let number = draft.bound.rows.len();
    draft.enter(alloc, row, over)?;
    let inner = steps(alloc, catalog, single, draft, steps_text)?;
    draft.leave();
    Ok(ProgramStep::For {
        row: number,
        result: over.unwrap_or(0),
        steps: inner,
    })
}

/// A step.
#[cycle(step)]
fn step(
    alloc: Global,
    catalog: &Catalog,
    single: bool,
    draft: &mut Draft,
    text: &StepText,
) -> Result<ProgramStep, AllocError>
    ensures { IfOk result (λ step. (draft.new, step) ≡ spec.made catalog.now single text.now draft.old) }
{
    match text {
        StepText::Let { variable, value } => make_let(alloc, draft, variable, value),
        StepText::Sql {
            result: name,
            statement,
        } => make_sql(alloc, catalog, single, draft, name, statement),
        StepText::If {
            condition,
            steps: inner,
            otherwise,
        } => {
            let chosen = make_condition(alloc, draft, condition)?;
            let branch = make_branch(alloc, catalog, single, draft, chosen, inner.as_slice())?;
            make_otherwise(alloc, catalog, single, draft, branch, otherwise.as_slice())
        }
        StepText::For {
            row,
            result: name,
            steps: inner,
        } => make_for(alloc, catalog, single, draft, row, name, inner.as_slice()),
        StepText::Abort(message) => make_abort(alloc, message),
        StepText::Return(written) => make_return(alloc, draft, written),
    }
}

/// Steps, one behind another.
#[cycle(step)]
pub(crate) fn steps(
    alloc: Global,
    catalog: &Catalog,
    single: bool,
    draft: &mut Draft,
    texts: &[StepText],
) -> Result<Items<ProgramStep>, AllocError>
    ensures { IfOk result (λ steps. (draft.new, steps) ≡ spec.all_made (map (spec.made catalog.now single) texts.now) draft.old) }
{
    let mut made = Items::new(alloc);
    for text in texts {
        made.push(step(alloc, catalog, single, draft, text)?)?;
    }
    Ok(made)
}
