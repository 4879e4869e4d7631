//! Values as bytes. Numbers are written with their high byte first.

ghost use Rattle.std.specs.Prelude.{◌≡◌, ℕ, ◌<◌, ◌^◌, List, ◌∷◌, ◌++◌, length, OnOk, OnErr};
ghost use Rattle.std.specs.Int.{w32, w64, to_be_bytes, cast_unsigned};
ghost use Rattle.volt_value.specs.declared.value.Value.{Value};
ghost use Rattle.volt_value.specs.Values.{HasSpelling, IsValue};
ghost use Rattle.volt_value.specs.Spelling.{value_bytes};

use crate::value::Value;
use std::alloc::AllocError;

fn put_integer(into: &mut Vec<u8>, n: i64) -> Result<(), AllocError>
    ensures spelled { OnOk result (into.new.items
        ≡ into.old.items ++ 1 ∷ to_be_bytes w64 (cast_unsigned w64 n)) }
    ensures kept { OnErr result (into.new.items ≡ into.old.items) }
{
    let [a, b, c, d, e, f, g, h] = n.to_be_bytes();
    into.extend_from_slice(&[1, a, b, c, d, e, f, g, h])
}

// The kind and the length of a text.
fn put_length(into: &mut Vec<u8>, len: usize) -> Result<(), AllocError>
    requires { len < 2 ^ 32 }
    ensures spelled { OnOk result (into.new.items ≡ into.old.items ++ 2 ∷ to_be_bytes w32 len) }
    ensures kept { OnErr result (into.new.items ≡ into.old.items) }
{
    let [a, b, c, d] = (len as u32).to_be_bytes();
    into.extend_from_slice(&[2, a, b, c, d])
}

fn put_text(into: &mut Vec<u8>, text: &str) -> Result<(), AllocError>
    requires { length text.now < 2 ^ 32 }
    ensures spelled { OnOk result (into.new.items
        ≡ into.old.items ++ 2 ∷ (to_be_bytes w32 (length text.now) ++ text.now)) }
    ensures kept { OnErr result (into.new.items ≡ into.old.items) }
{
    let start = into.len();
    put_length(into, text.len())?;
    let put = into.extend_from_slice(text.as_bytes());
    if put.is_err() {
        into.truncate(start);
    }
    put
}

/// Writes a value's one spelling at the end: a byte for its kind, then an integer's eight bytes in
/// two's complement, or a text's length in four bytes and its bytes. Those hold a length below 2^32.
/// Without memory nothing is written.
pub fn encode(v: &Value, into: &mut Vec<u8>) -> Result<(), AllocError>
    requires { HasSpelling v.now }
    ensures spelled { OnOk result (into.new.items ≡ into.old.items ++ value_bytes v.now) }
    ensures value { OnOk result (IsValue v.now) }
    ensures kept { OnErr result (into.new.items ≡ into.old.items) }
{
    match v {
        Value::Null => into.extend_from_slice(&[0]),
        Value::Int(n) => put_integer(into, *n),
        Value::Text(text) => put_text(into, text.as_str()),
    }
}

/// No spelling of a value begins another's: bytes begin with the spelling of one value at most.
pub fn one_spelling()
    ensures { (a b : Value) (x y : List ℕ) → IsValue a → IsValue b
        → value_bytes a ++ x ≡ value_bytes b ++ y → (a ≡ b) × (x ≡ y) }
{}
