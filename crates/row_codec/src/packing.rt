//! The bytes of one value in a packed row.

ghost use Rattle.std.specs.Prelude.{◌≡◌, ◌≤◌, ◌++◌, ◌-◌, Ok, length, replicate, negsuc, IfOk, OnOk, OnErr};
ghost use Rattle.std.specs.Int.{w16, to_be_bytes};
ghost use Rattle.volt_value.specs.declared.value.Value.TheVariants.{Text};
ghost use Rattle.volt_value.specs.declared.column.ColType.TheVariants.{Tiny, Small, Integer, Big, Varchar};
ghost use Rattle.volt_value.specs.Columns.{value_fits};
ghost use Rattle.row_codec.specs.Cells.{cell_bytes, integer_of, null_length, IsSound};

use std::alloc::AllocError;
use volt_value::{ColType, Value};

/// The length that stands for NULL.
pub(crate) const NULL_LENGTH: u16 = 65535;

fn tiny(value: &Value) -> i8
    requires { value_fits value.now Tiny ≡ Ok tt }
    ensures { result ≡ integer_of (negsuc 127) value.now }
{
    match value {
        Value::Int(n) => *n as i8,
        _ => i8::MIN,
    }
}

fn small(value: &Value) -> i16
    requires { value_fits value.now Small ≡ Ok tt }
    ensures { result ≡ integer_of (negsuc 32767) value.now }
{
    match value {
        Value::Int(n) => *n as i16,
        _ => i16::MIN,
    }
}

fn integer(value: &Value) -> i32
    requires { value_fits value.now Integer ≡ Ok tt }
    ensures { result ≡ integer_of (negsuc 2147483647) value.now }
{
    match value {
        Value::Int(n) => *n as i32,
        _ => i32::MIN,
    }
}

fn big(value: &Value) -> i64
    ensures { result ≡ integer_of (negsuc 9223372036854775807) value.now }
{
    match value {
        Value::Int(n) => *n,
        _ => i64::MIN,
    }
}

/// Puts up to 64 zeros behind bytes.
#[tactic(auto, using(std::proofs::lemmas::Grind::common_steps))]
fn put_few_zeros(into: &mut Vec<u8>, count: usize) -> Result<(), AllocError>
    requires { count ≤ 64 }
    ensures { OnOk result (into.new.items ≡ into.old.items ++ replicate count 0) }
{
    into.extend_from_slice(&[0; 64][..count])
}

/// Puts zeros behind bytes, many at once.
#[tactic(auto, using(crate::proofs::Zeros::zeros_more))]
fn put_zeros(into: &mut Vec<u8>, count: usize) -> Result<(), AllocError>
    ensures { OnOk result (into.new.items ≡ into.old.items ++ replicate count 0) }
{
    for _block in 0..count / 64 {
        put_few_zeros(into, 64)?;
    }
    put_few_zeros(into, count % 64)
}

/// Puts a text's bytes behind others.
fn put_text(into: &mut Vec<u8>, most: u16, text: &str) -> Result<(), AllocError>
    requires { length text.now ≤ most }
    ensures { OnOk result (into.new.items ≡ into.old.items ++ cell_bytes (Varchar most) (Text text.now)) }
{
    let [a, b] = (text.len() as u16).to_be_bytes();
    into.extend_from_slice(&[a, b])?;
    into.extend_from_slice(text.as_bytes())?;
    put_zeros(into, most as usize - text.len())
}

/// Puts the bytes of a value that fits its column behind others.
pub(crate) fn put(into: &mut Vec<u8>, kind: ColType, value: &Value) -> Result<(), AllocError>
    requires { value_fits value.now kind ≡ Ok tt }
    ensures packed { OnOk result (into.new.items ≡ into.old.items ++ cell_bytes kind value.now) }
    ensures sound { OnOk result (IsSound value.now) }
{
    match (kind, value) {
        (ColType::Tiny, value) => into.extend_from_slice(&tiny(value).to_be_bytes()),
        (ColType::Small, value) => into.extend_from_slice(&small(value).to_be_bytes()),
        (ColType::Integer, value) => into.extend_from_slice(&integer(value).to_be_bytes()),
        (ColType::Big, value) => into.extend_from_slice(&big(value).to_be_bytes()),
        (ColType::Varchar(most), Value::Text(text)) => put_text(into, most, text.as_str()),
        (ColType::Varchar(most), _) => {
            into.extend_from_slice(&NULL_LENGTH.to_be_bytes())?;
            put_zeros(into, most as usize)
        }
    }
}
