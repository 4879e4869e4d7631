//! Arithmetic.

ghost use Rattle.std.specs.Prelude.{◌≡◌};
ghost use Rattle.sql_meaning.specs.Values as spec;
ghost use Rattle.expr_eval.specs.Shown.{shown, shown_in, exactly};

use crate::seen::Seen;
use expr_parse::Arithmetic;
use sql_plan::Fault;

/// The exact result of an operation, `None` where i64 doesn't hold it. The least i64 is no value.
fn in_range<'a>(exact: Option<i64>) -> Result<Seen<'a>, Fault>
    ensures { shown_in result ≡ exactly exact }
{
    match exact {
        Some(n) if n != i64::MIN => Ok(Seen::Int(n)),
        _ => Err(Fault::Overflow),
    }
}

#[tactic(auto, using(crate::proofs::Ranges::is_exactly))]
fn sum<'a>(a: i64, b: i64) -> Result<Seen<'a>, Fault>
    ensures { shown_in result ≡ spec.of_numbers Arithmetic.Add a b }
{
    in_range(a.checked_add(b))
}

#[tactic(auto, using(crate::proofs::Ranges::is_exactly))]
fn difference<'a>(a: i64, b: i64) -> Result<Seen<'a>, Fault>
    ensures { shown_in result ≡ spec.of_numbers Arithmetic.Subtract a b }
{
    in_range(a.checked_sub(b))
}

#[tactic(auto, using(crate::proofs::Ranges::is_exactly))]
fn product<'a>(a: i64, b: i64) -> Result<Seen<'a>, Fault>
    ensures { shown_in result ≡ spec.of_numbers Arithmetic.Multiply a b }
{
    in_range(a.checked_mul(b))
}

/// Truncated toward zero.
#[tactic(auto, using(crate::proofs::Ranges::is_exactly))]
fn quotient<'a>(a: i64, b: i64) -> Result<Seen<'a>, Fault>
    ensures { shown_in result ≡ spec.of_numbers Arithmetic.Divide a b }
{
    if b == 0 {
        return Err(Fault::DivideByZero);
    }
    in_range(a.checked_div(b))
}

fn of_numbers<'a>(operation: Arithmetic, a: i64, b: i64) -> Result<Seen<'a>, Fault>
    ensures { shown_in result ≡ spec.of_numbers operation a b }
{
    match operation {
        Arithmetic::Add => sum(a, b),
        Arithmetic::Subtract => difference(a, b),
        Arithmetic::Multiply => product(a, b),
        Arithmetic::Divide => quotient(a, b),
    }
}

/// An operation. With NULL it gives NULL.
pub(crate) fn calculated<'a>(
    operation: Arithmetic,
    left: Seen<'_>,
    right: Seen<'_>,
) -> Result<Seen<'a>, Fault>
    ensures { shown_in result ≡ spec.operation operation (shown left.entry) (shown right.entry) }
{
    match (left, right) {
        (Seen::Int(a), Seen::Int(b)) => of_numbers(operation, a, b),
        _ => Ok(Seen::Null),
    }
}

/// Unary minus. Of NULL it is NULL.
#[tactic(auto, using(crate::proofs::Ranges::is_exactly))]
pub(crate) fn negated<'a>(operand: Seen<'_>) -> Result<Seen<'a>, Fault>
    ensures { shown_in result ≡ spec.negation (shown operand.entry) }
{
    match operand {
        Seen::Int(n) => in_range(n.checked_neg()),
        _ => Ok(Seen::Null),
    }
}
