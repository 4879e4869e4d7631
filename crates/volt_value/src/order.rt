//! The order of values.

ghost use Rattle.std.specs.Prelude.{◌≡◌, Some, refl};
ghost use Rattle.std.specs.Cmp.{IsTotalOrder, partial_order_from_total, partial_equiv_from_equiv};
ghost use Rattle.std.specs.Ordering.{eq_by_cmp};
ghost use Rattle.std.proofs.lemmas.Cmp.{eq_by_cmp_equiv};
ghost use Rattle.volt_value.specs.declared.value.Value.{Value};
ghost use Rattle.volt_value.specs.Order.{value_cmp};
ghost use Rattle.volt_value.specs.OrderLaws.{value_total};

use crate::value::Value;
use std::cmp::Ordering;

/// How two values compare. NULL is below the numbers, and these are below the texts, which go by
/// their bytes. Only equal values compare as equal.
pub fn compare(a: &Value, b: &Value) -> Ordering
    ensures { result ≡ value_cmp a.now b.now }
{
    match (a, b) {
        (Value::Null, Value::Null) => Ordering::Equal,
        (Value::Null, _) => Ordering::Less,
        (Value::Int(a), Value::Int(b)) => a.cmp(b),
        (Value::Int(_), Value::Text(_)) => Ordering::Less,
        (Value::Text(a), Value::Text(b)) => a.cmp(b),
        _ => Ordering::Greater,
    }
}

/// The order of values is total, and only a value itself compares as equal to it.
pub fn order_is_total()
    ensures total { IsTotalOrder value_cmp }
    ensures same { (a : Value) → value_cmp a a ≡ Ordering.Equal }
    ensures equal { (a b : Value) → value_cmp a b ≡ Ordering.Equal → a ≡ b }
{}

impl PartialEq for Value {
    ghost eq = { eq_by_cmp value_cmp };

    ghost laws = { partial_equiv_from_equiv (eq_by_cmp_equiv value_total) };

    fn eq(&self, other: &Value) -> bool {
        compare(self, other) == Ordering::Equal
    }
}

impl Eq for Value {
    ghost laws = { eq_by_cmp_equiv value_total };
}

impl PartialOrd for Value {
    ghost partial_cmp = { λ a b. Some (value_cmp a b) };

    ghost laws = { partial_order_from_total value_total };

    fn partial_cmp(&self, other: &Value) -> Option<Ordering> {
        Some(compare(self, other))
    }
}

impl Ord for Value {
    ghost cmp = { value_cmp };

    ghost total = { value_total };

    ghost matches_partial_cmp = { λ a b. refl };

    ghost matches_eq = { λ a b. refl };

    fn cmp(&self, other: &Value) -> Ordering {
        compare(self, other)
    }
}
