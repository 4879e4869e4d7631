//! Expressions that give a value.

ghost use Rattle.std.specs.Prelude.{◌≡◌, map};
ghost use Rattle.sql_meaning.specs.Expressions as spec;
ghost use Rattle.expr_eval.specs.Shown.{shown, shown_in, meant};

use crate::arithmetic::{calculated, negated};
use crate::seen::Seen;
use expr_parse::Arithmetic;
use sql_plan::{Fault, Scalar};
use volt_value::Value;

/// A value, and then each operation with its right operand.
#[cycle(scalar)]
fn chain<'a>(
    first: Seen<'a>,
    rest: &'a [(Arithmetic, Scalar)],
    row: &'a [Value],
    args: &'a [Value],
) -> Result<Seen<'a>, Fault>
    ensures { shown_in result ≡ spec.chain (shown first.entry) (map meant rest.now) row.now args.now }
{
    let mut so_far = first;
    for (operation, operand) in rest {
        let right = scalar(operand, row, args)?;
        so_far = calculated(*operation, so_far, right)?;
    }
    Ok(so_far)
}

/// What an expression gives over a row and arguments, or the first fault that its evaluation reaches.
/// What isn't there is NULL.
#[cycle(scalar)]
pub fn scalar<'a>(e: &'a Scalar, row: &'a [Value], args: &'a [Value]) -> Result<Seen<'a>, Fault>
    ensures { shown_in result ≡ spec.scalar_of e.now row.now args.now }
{
    match e {
        Scalar::Literal(value) => Ok(Seen::of(value)),
        Scalar::Column(place) => Ok(Seen::at(row, *place)),
        Scalar::Param(place) => Ok(Seen::at(args, *place)),
        Scalar::Negate(operand) => negated(scalar(operand.get(), row, args)?),
        Scalar::Chain { first, rest } => {
            let first = scalar(first.get(), row, args)?;
            chain(first, rest.as_slice(), row, args)
        }
    }
}
