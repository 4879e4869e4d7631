//! Conditions.

ghost use Rattle.std.specs.Prelude.{◌≡◌, map, [], ◌∷◌};
ghost use Rattle.sql_meaning.specs.Expressions as spec;
ghost use Rattle.expr_eval.specs.Shown.{shown};

use crate::comparing::{compared, is_null};
use crate::scalars::scalar;
use crate::seen::Seen;
use crate::truth::{conjunction, disjunction, is_false, is_true, opposite};
use expr_parse::Comparison;
use sql_plan::{Cond, Fault, Scalar};
use volt_value::Value;

/// A value compared with what an expression gives.
fn comparing(
    comparison: Comparison,
    left: Seen<'_>,
    right: &Scalar,
    row: &[Value],
    args: &[Value],
) -> Result<Option<bool>, Fault>
    ensures { result ≡ spec.comparing comparison (shown left.entry) right.now row.now args.now }
{
    Ok(compared(comparison, left, scalar(right, row, args)?))
}

/// The high bound isn't evaluated where the value is below the low one.
fn between(
    value: Seen<'_>,
    low: &Scalar,
    high: &Scalar,
    row: &[Value],
    args: &[Value],
) -> Result<Option<bool>, Fault>
    ensures { result ≡ spec.all_true (spec.comparing Comparison.GreaterOrEqual (shown value.entry) low.now
        ∷ spec.comparing Comparison.LessOrEqual (shown value.entry) high.now ∷ []) row.now args.now }
{
    let is_above = comparing(Comparison::GreaterOrEqual, value, low, row, args)?;
    if is_false(is_above) {
        return Ok(Some(false));
    }
    let is_below = comparing(Comparison::LessOrEqual, value, high, row, args)?;
    Ok(conjunction(is_above, is_below))
}

/// Once a value is equal, no further item is evaluated.
#[tactic(auto, using(crate::proofs::TruthLemmas::or_else_more))]
fn is_among(
    value: Seen<'_>,
    items: &[Scalar],
    row: &[Value],
    args: &[Value],
) -> Result<Option<bool>, Fault>
    ensures { result ≡ spec.some_true (map (spec.comparing Comparison.Equal (shown value.entry)) items.now) row.now args.now }
{
    let mut so_far = Some(false);
    for item in items {
        if is_true(so_far) {
            return Ok(so_far);
        }
        so_far = disjunction(
            so_far,
            comparing(Comparison::Equal, value, item, row, args)?,
        );
    }
    Ok(so_far)
}

/// Once one is false, no further one is evaluated.
#[cycle(condition)]
#[tactic(auto, using(crate::proofs::TruthLemmas::and_then_more))]
fn all_true(conditions: &[Cond], row: &[Value], args: &[Value]) -> Result<Option<bool>, Fault>
    ensures { result ≡ spec.all_true (map spec.cond_of conditions.now) row.now args.now }
{
    let mut so_far = Some(true);
    for next in conditions {
        if is_false(so_far) {
            return Ok(so_far);
        }
        so_far = conjunction(so_far, condition(next, row, args)?);
    }
    Ok(so_far)
}

/// Once one is true, no further one is evaluated.
#[cycle(condition)]
#[tactic(auto, using(crate::proofs::TruthLemmas::or_else_more))]
fn some_true(conditions: &[Cond], row: &[Value], args: &[Value]) -> Result<Option<bool>, Fault>
    ensures { result ≡ spec.some_true (map spec.cond_of conditions.now) row.now args.now }
{
    let mut so_far = Some(false);
    for next in conditions {
        if is_true(so_far) {
            return Ok(so_far);
        }
        so_far = disjunction(so_far, condition(next, row, args)?);
    }
    Ok(so_far)
}

/// Whether a condition is true over a row and arguments, false, or unknown, which is `None`; or the
/// first fault that its evaluation reaches.
#[cycle(condition)]
pub fn condition(e: &Cond, row: &[Value], args: &[Value]) -> Result<Option<bool>, Fault>
    ensures { result ≡ spec.cond_of e.now row.now args.now }
{
    match e {
        Cond::Unknown => Ok(None),
        Cond::Compare(comparison, left, right) => {
            let left = scalar(left, row, args)?;
            comparing(*comparison, left, right, row, args)
        }
        Cond::IsNull(value) => Ok(Some(is_null(scalar(value, row, args)?))),
        Cond::Between { value, low, high } => {
            let value = scalar(value, row, args)?;
            between(value, low, high, row, args)
        }
        Cond::In { value, items } => {
            let value = scalar(value, row, args)?;
            is_among(value, items.as_slice(), row, args)
        }
        Cond::Not(inner) => Ok(opposite(condition(inner.get(), row, args)?)),
        Cond::And(conditions) => all_true(conditions.as_slice(), row, args),
        Cond::Or(conditions) => some_true(conditions.as_slice(), row, args),
    }
}

/// Whether a condition is true: of unknown it isn't.
pub fn holds(e: &Cond, row: &[Value], args: &[Value]) -> Result<bool, Fault>
    ensures { result ≡ spec.holds e.now row.now args.now }
{
    Ok(is_true(condition(e, row, args)?))
}
