//! What a procedure does.

ghost use Rattle.std.specs.Prelude.{◌≡◌, ◌∷◌, [], Some, None, map, length, IfOk};
ghost use Rattle.proc_lang.specs.Bodies as spec;
ghost use Rattle.sql_plan.specs.declared.program.ProgramStep.TheVariants as step;
ghost use Rattle.sql_plan.specs.declared.program.Returned.TheVariants as returned;

use crate::draft::{Draft, writes_replicated};
use crate::fault::{ProcFault, with_check, worse_if};
use crate::parameters::{fault_of, heads_of, kinds_for, kinds_of};
use crate::statements::MOST_STATEMENTS;
use crate::steps::steps;
use ddl_parse::{ProcBody, ProgramText};
use sql_check::{Examined, examine};
use sql_plan::{Prepared, Program, ProgramStep, ProgramValue, Returned};
use sqlite_items::Items;
use std::alloc::{AllocError, Global};
use volt_catalog::{Catalog, ParamTypes};
use volt_value::{Class, Text};

/// What a procedure does, with its faults.
#[derive(Drop)]
pub struct Body {
    /// The types of its parameters.
    pub params: ParamTypes,
    /// What it does where there is no fault.
    pub program: Program,
    /// The fault of the least number.
    pub fault: Option<ProcFault>,
}

/// The classes of columns or variables.
fn classes_of(alloc: Global, heads: &[(Text, Class)]) -> Result<Items<Class>, AllocError>
    ensures { IfOk result (λ classes. classes ≡ spec.classes_of heads.now) }
{
    let mut classes = Items::new(alloc);
    for head in heads {
        classes.push(head.1)?;
    }
    Ok(classes)
}

/// The classes of the columns of results.
fn result_classes(
    alloc: Global,
    results: &[(Text, Items<(Text, Class)>)],
) -> Result<Items<Items<Class>>, AllocError>
    ensures { IfOk result (λ classes. classes ≡ map (λ made. spec.classes_of made.1) results.now) }
{
    let mut classes = Items::new(alloc);
    for made in results {
        classes.push(classes_of(alloc, made.1.as_slice())?)?;
    }
    Ok(classes)
}

/// The program whose text has come to its end.
fn program_of(alloc: Global, draft: Draft, steps: Items<ProgramStep>) -> Result<Program, AllocError>
    ensures { IfOk result (λ program. program ≡ spec.program_of draft steps) }
{
    let variables = classes_of(alloc, draft.bound.variables.as_slice())?;
    let results = result_classes(alloc, draft.bound.results.as_slice())?;
    Ok(Program {
        variables,
        results,
        rows: draft.rows,
        statements: draft.statements,
        steps,
    })
}

/// A program.
fn body_of_program(
    alloc: Global,
    catalog: &Catalog,
    single: bool,
    text: &ProgramText,
) -> Result<Body, AllocError>
    ensures { IfOk result (λ body. body ≡ spec.body_of_program catalog.now single text.now) }
{
    let parameters = text.parameters.as_slice();
    let params = kinds_of(alloc, parameters)?;
    let mut draft = Draft::start(alloc, heads_of(alloc, parameters)?, fault_of(parameters));
    let made = steps(alloc, catalog, single, &mut draft, text.steps.as_slice())?;
    let too_many = draft.statements.len() > MOST_STATEMENTS;
    draft.blame_if(too_many, ProcFault::too_many());
    let fault = draft.fault;
    Ok(Body {
        params,
        program: program_of(alloc, draft, made)?,
        fault,
    })
}

/// The first variables, so many.
#[tactic(auto, using(crate::proofs::ListLemmas::variables_more))]
fn variables_to(alloc: Global, count: usize) -> Result<Items<ProgramValue>, AllocError>
    ensures { IfOk result (λ variables. variables ≡ spec.variables_to count) }
{
    let mut variables = Items::new(alloc);
    for number in 0..count {
        variables.push(ProgramValue::Variable(number))?;
    }
    Ok(variables)
}

/// The steps of a plain statement with so many parameters.
fn plain_steps(alloc: Global, count: usize) -> Result<Items<ProgramStep>, AllocError>
    ensures { IfOk result (λ steps. steps ≡ spec.plain_steps count) }
{
    let args = variables_to(alloc, count)?;
    let mut steps = Items::new(alloc);
    steps.push(ProgramStep::Sql {
        statement: 0,
        args,
        result: Some(0),
    })?;
    steps.push(ProgramStep::Return(Returned::Result(0)))?;
    Ok(steps)
}

/// One thing alone.
fn one<T: Drop>(alloc: Global, item: T) -> Result<Items<T>, AllocError>
    ensures { IfOk result (λ items. items ≡ item ∷ []) }
{
    let mut items = Items::new(alloc);
    items.push(item)?;
    Ok(items)
}

/// A plain statement.
fn plain(alloc: Global, statement: Prepared) -> Result<Program, AllocError>
    ensures { IfOk result (λ program. program ≡ spec.plain statement) }
{
    let variables = Items::from_slice(alloc, statement.params.as_slice())?;
    let classes = classes_of(alloc, statement.columns.as_slice())?;
    let steps = plain_steps(alloc, variables.len())?;
    Ok(Program {
        variables,
        results: one(alloc, classes)?,
        rows: 0,
        statements: one(alloc, statement)?,
        steps,
    })
}

/// A plain statement whose tables are there.
fn body_of_statement(
    alloc: Global,
    catalog: &Catalog,
    single: bool,
    found: Examined,
) -> Result<Body, AllocError>
    ensures { IfOk result (λ body. body ≡ spec.body_of_statement catalog.now single found) }
{
    let params = kinds_for(alloc, found.prepared.params.as_slice())?;
    let replicated = single && writes_replicated(catalog, found.prepared.written());
    let fault = with_check(found.fault, None);
    Ok(Body {
        params,
        program: plain(alloc, found.prepared)?,
        fault: worse_if(replicated, ProcFault::WritesReplicated, fault),
    })
}

/// What a procedure does, with its faults: `None` where a plain statement names a table that isn't
/// there.
pub(crate) fn body_of(
    alloc: Global,
    catalog: &Catalog,
    single: bool,
    text: &ProcBody,
) -> Result<Option<Body>, AllocError>
    ensures { IfOk result (λ body. body ≡ spec.body_of catalog.now single text.now) }
{
    match text {
        ProcBody::Program(program) => Ok(Some(body_of_program(alloc, catalog, single, program)?)),
        ProcBody::Statement(statement) => match examine(alloc, catalog, None, statement, single)? {
            Some(found) => Ok(Some(body_of_statement(alloc, catalog, single, found)?)),
            None => Ok(None),
        },
    }
}
