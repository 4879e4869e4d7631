//! Comparisons.

ghost use Rattle.std.specs.Prelude.{◌≡◌};
ghost use Rattle.volt_value.specs.Order.{value_cmp};
ghost use Rattle.sql_meaning.specs.Values as spec;
ghost use Rattle.expr_eval.specs.Shown.{shown};

use crate::seen::Seen;
use expr_parse::Comparison;
use std::cmp::Ordering;

/// How two values compare. NULL is below the numbers, and these are below the texts.
fn order(left: Seen<'_>, right: Seen<'_>) -> Ordering
    ensures { result ≡ value_cmp (shown left.entry) (shown right.entry) }
{
    match (left, right) {
        (Seen::Null, Seen::Null) => Ordering::Equal,
        (Seen::Null, _) => Ordering::Less,
        (Seen::Int(a), Seen::Int(b)) => a.cmp(&b),
        (Seen::Int(_), Seen::Text(_)) => Ordering::Less,
        (Seen::Text(a), Seen::Text(b)) => a.cmp(b),
        _ => Ordering::Greater,
    }
}

fn is_as_compared(comparison: Comparison, order: Ordering) -> bool
    ensures { result ≡ spec.is_as_compared comparison order }
{
    match comparison {
        Comparison::Equal => order.is_eq(),
        Comparison::NotEqual => order.is_ne(),
        Comparison::Less => order.is_lt(),
        Comparison::LessOrEqual => order.is_le(),
        Comparison::Greater => order.is_gt(),
        Comparison::GreaterOrEqual => order.is_ge(),
    }
}

/// A comparison. With NULL it is unknown.
pub(crate) fn compared(comparison: Comparison, left: Seen<'_>, right: Seen<'_>) -> Option<bool>
    ensures { result ≡ spec.comparison comparison (shown left.entry) (shown right.entry) }
{
    match (left, right) {
        (Seen::Null, _) | (_, Seen::Null) => None,
        _ => Some(is_as_compared(comparison, order(left, right))),
    }
}

pub(crate) fn is_null(value: Seen<'_>) -> bool
    ensures { result ≡ spec.is_null (shown value.entry) }
{
    match value {
        Seen::Null => true,
        _ => false,
    }
}
