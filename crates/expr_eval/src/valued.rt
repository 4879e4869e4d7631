//! Values of expressions, with texts of their own.

ghost use Rattle.std.specs.Prelude.{◌≡◌, map, OnOk, List, Result, ◌∷◌};
ghost use Rattle.volt_value.specs.declared.value.Value.{Value};
ghost use Rattle.sql_plan.specs.declared.fault.Fault.{Fault};
ghost use Rattle.sql_meaning.specs.Judged as judged;
ghost use Rattle.sql_meaning.specs.Expressions.{scalar_of};
ghost use Rattle.expr_eval.specs.Shown.{shown_in};
ghost use Rattle.expr_eval.specs.Collected.{with_more};

use crate::collector::Collector;
use crate::scalars::scalar;
use crate::seen::Seen;
use sql_plan::{Fault, RunFault, Scalar};
use std::alloc::{AllocError, Global};
use volt_value::Value;

/// What an expression gives over a row and arguments. `NoMemory` is free.
pub fn value(alloc: Global, e: &Scalar, row: &[Value], args: &[Value]) -> Result<Value, RunFault>
    ensures { judged.Means result (λ x. x) (scalar_of e.now row.now args.now) }
{
    match scalar(e, row, args) {
        Ok(seen) => Ok(seen.owned(alloc)?),
        Err(fault) => Err(RunFault::Fault(fault)),
    }
}

/// Notes a value. Its text is copied only where there was no fault before.
fn note_value(
    alloc: Global,
    met: &mut Collector<Value>,
    value: Result<Seen<'_>, Fault>,
) -> Result<(), AllocError>
    ensures { OnOk result ((rs : List (Result Value Fault)) → with_more met.new rs ≡ with_more met.old (shown_in value.entry ∷ rs)) }
{
    match value {
        Ok(seen) => met.note(Ok(seen.owned(alloc)?)),
        Err(fault) => met.note(Err(fault)),
    }
}

/// What expressions give over a row and arguments: all their values, or the least of their faults.
/// `NoMemory` is free.
pub fn values(
    alloc: Global,
    expressions: &[Scalar],
    row: &[Value],
    args: &[Value],
) -> Result<Vec<Value>, RunFault>
    ensures { judged.Means result (λ values. values.items)
        (judged.collected (map (λ e. scalar_of e row.now args.now) expressions.now)) }
{
    let mut met = Collector::new(alloc);
    for e in expressions {
        note_value(alloc, &mut met, scalar(e, row, args))?;
    }
    met.finish()
}
