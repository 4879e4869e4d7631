//! Compiles a procedure.

ghost use Rattle.std.specs.Prelude.{◌≡◌, ◌⊎◌, is_some, Ok, Err, IfOk, IfErr};
ghost use Rattle.proc_lang.specs.Compiled as spec;
ghost use Rattle.proc_lang.specs.Partition.{partition_of};

use crate::body::{Body, body_of};
use crate::fault::ProcFault;
use crate::partition::partition_of;
use ddl_parse::ProcText;
use sql_plan::Program;
use std::alloc::{AllocError, Global};
use volt_catalog::{Catalog, ProcDef};
use volt_value::Text;

/// The head of a procedure and what it does, where there is no fault.
fn accepted(
    alloc: Global,
    text: &ProcText,
    body: Body,
    part: Option<(u16, u8, u8)>,
) -> Result<Result<(ProcDef, Program), ProcFault>, AllocError>
    ensures { IfOk result (λ answer. answer ≡ spec.accepted body.fault (spec.def_of text.now body.params part, body.program)) }
{
    if let Some(fault) = body.fault {
        return Ok(Err(fault));
    }
    let def = ProcDef {
        name: Text::of(alloc, text.name.as_str())?,
        params: body.params,
        part,
    };
    Ok(Ok((def, body.program)))
}

/// A procedure of which it is known what it does.
fn answered(
    alloc: Global,
    catalog: &Catalog,
    text: &ProcText,
    body: Body,
) -> Result<Result<(ProcDef, Program), ProcFault>, AllocError>
    ensures { IfOk result (λ answer. answer ≡ spec.answered text.now body (partition_of catalog.now body.params text.now.partition)) }
{
    match partition_of(catalog, body.params.as_slice(), &text.partition) {
        Ok(part) => accepted(alloc, text, body, part),
        Err(fault) => Ok(Err(fault.or_worse(body.fault))),
    }
}

/// What a procedure is compiled to, or why it is refused.
#[tactic(auto, unfolding(crate::specs::Compiled::compiled))]
fn compiled(
    alloc: Global,
    catalog: &Catalog,
    text: &ProcText,
) -> Result<Result<(ProcDef, Program), ProcFault>, AllocError>
    ensures { IfOk result (λ answer. answer ≡ spec.compiled catalog.now text.now) }
{
    match body_of(alloc, catalog, text.partition.is_some(), &text.body)? {
        Some(body) => answered(alloc, catalog, text, body),
        None => Ok(Err(ProcFault::no_such_name())),
    }
}

/// Compiles a procedure against a catalog: how it is called, and what it does.
///
/// Where the procedure breaks several rules, the answer is the fault of the least number. `NoMemory` is
/// free. It recurses as deep as steps and expressions nest in the text.
pub fn compile(
    alloc: Global,
    catalog: &Catalog,
    text: &ProcText,
) -> Result<(ProcDef, Program), ProcFault>
    ensures accepted { IfOk result (λ answer. spec.compiled catalog.now text.now ≡ Ok answer) }
    ensures refused { IfErr result (λ fault. (fault ≡ ProcFault.NoMemory) ⊎ (spec.compiled catalog.now text.now ≡ Err fault)) }
{
    compiled(alloc, catalog, text)?
}
