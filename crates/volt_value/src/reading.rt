//! Reads a value from the beginning of bytes. Numbers have their high byte first.

ghost use Rattle.std.specs.Prelude.{◌≡◌, ℕ, ◌++◌, List, Some, length, option_map, IfOk, IfSome, IfNone};
ghost use Rattle.volt_value.specs.declared.value.Value.{Value};
ghost use Rattle.volt_value.specs.Values.{IsValue};
ghost use Rattle.volt_value.specs.Spelling.{value_bytes, BeginsWith, BeginsWithNone};
ghost use Rattle.volt_value.specs.Reading.{integer_at, if_utf8, text_at, value_at};

use crate::text::Text;
use crate::value::Value;
use std::alloc::{AllocError, Global};

#[tactic(auto, unfolding(crate::specs::Reading::integer_at))]
fn read_integer(bytes: &[u8]) -> Option<i64>
    ensures { result ≡ integer_at bytes.now }
{
    if bytes.len() < 8 {
        return None;
    }
    let n = i64::from_be_bytes([
        bytes[0], bytes[1], bytes[2], bytes[3], bytes[4], bytes[5], bytes[6], bytes[7],
    ]);
    if n == i64::MIN { None } else { Some(n) }
}

#[tactic(auto, using(crate::proofs::Fields::utf8_tests))]
fn utf8_text(bytes: &[u8]) -> Option<&str>
    ensures { option_map (λ text. text.now) result ≡ if_utf8 bytes.now }
{
    str::from_utf8(bytes).ok()
}

#[tactic(auto, unfolding(crate::specs::Reading::text_at))]
fn read_text(bytes: &[u8]) -> Option<&str>
    ensures { option_map (λ text. text.now) result ≡ text_at bytes.now }
{
    if bytes.len() < 4 {
        return None;
    }
    let (prefix, rest) = bytes.split_at(4);
    let len = u32::from_be_bytes([prefix[0], prefix[1], prefix[2], prefix[3]]) as usize;
    if rest.len() < len {
        return None;
    }
    utf8_text(&rest[..len])
}

#[tactic(auto, unfolding(crate::specs::Reading::value_at))]
fn read_value(alloc: Global, bytes: &[u8]) -> Result<Option<(Value, usize)>, AllocError>
    ensures { IfOk result (λ read. read ≡ value_at bytes.now) }
{
    match bytes {
        [0, ..] => Ok(Some((Value::Null, 1))),
        [1, rest @ ..] => Ok(read_integer(rest).map(|n| (Value::Int(n), 9))),
        [2, rest @ ..] => match read_text(rest) {
            Some(text) => Ok(Some((Value::Text(Text::of(alloc, text)?), 5 + text.len()))),
            None => Ok(None),
        },
        _ => Ok(None),
    }
}

/// The value whose spelling the bytes begin with, and how many bytes that has. More bytes may
/// follow it. `None` where they begin with no value's spelling. Only a text takes memory.
pub fn decode(alloc: Global, b: &[u8]) -> Result<Option<(Value, usize)>, AllocError>
    ensures exact { IfOk result (λ read. read ≡ value_at b.now) }
    ensures found { IfOk result (λ read. IfSome read (λ found. BeginsWith b.now found.0 found.1)) }
    ensures none { IfOk result (λ read. IfNone read (BeginsWithNone b.now)) }
    // What was written is read again, whatever follows it.
    ensures again { (value : Value) (rest : List ℕ) → IsValue value
        → b.now ≡ value_bytes value ++ rest
        → IfOk result (λ read. read ≡ Some (value, length (value_bytes value))) }
{
    read_value(alloc, b)
}
