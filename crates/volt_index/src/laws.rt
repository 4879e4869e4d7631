//! What the spellings of keys are.

ghost use Rattle.std.specs.Prelude.{◌≡◌, List, ◌++◌, length, take};
ghost use Rattle.std.specs.Ordering.{nat_cmp};
ghost use Rattle.std.specs.Cmp.Lexicographic.{slice_cmp};
ghost use Rattle.volt_value.specs.declared.value.Value.{Value};
ghost use Rattle.volt_value.specs.Order.{value_cmp};
ghost use Rattle.volt_index.specs.Keys.{key_bytes, end_bytes, AreHeld, before_end};

/// The order of spellings, byte by byte with a prefix first, is the order of the lists of values,
/// value by value with a prefix first. The spelling of a prefix of a list is a prefix of the list's.
/// The end of some values comes after exactly the lists whose first values are not above them.
pub fn keys_are_in_order()
    ensures order { (a b : List Value) → AreHeld a → AreHeld b
        → slice_cmp nat_cmp (key_bytes a) (key_bytes b) ≡ slice_cmp value_cmp a b }
    ensures same { (a b : List Value) → AreHeld a → AreHeld b → key_bytes a ≡ key_bytes b → a ≡ b }
    ensures prefix { (a b : List Value) → key_bytes (a ++ b) ≡ key_bytes a ++ key_bytes b }
    ensures ends { (a b : List Value) → AreHeld a → AreHeld b
        → slice_cmp nat_cmp (key_bytes b) (end_bytes a) ≡ before_end (slice_cmp value_cmp (take (length a) b) a) }
{
    volt_value::order_is_total();
}
