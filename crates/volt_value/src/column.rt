//! Types of columns and of parameters, and which values fit them.

ghost use Rattle.std.specs.Prelude.{◌≡◌};
ghost use Rattle.volt_value.specs.Columns as column;

use crate::value::Value;

/// The type of a column or of a parameter.
#[derive(Clone, Copy, Debug, PartialEq, Eq)]
pub enum ColType {
    /// TINYINT, from -127 to 127.
    Tiny,
    /// SMALLINT, from -32,767 to 32,767.
    Small,
    /// INTEGER, from -2,147,483,647 to 2,147,483,647.
    Integer,
    /// BIGINT, from -(2^63 - 1) to 2^63 - 1.
    Big,
    /// VARCHAR, a text of at most so many bytes.
    Varchar(u16),
}

/// What can be compared with one another: integers, or texts. NULL has no class.
#[derive(Clone, Copy, Debug, PartialEq, Eq)]
pub enum Class {
    Int,
    Text,
}

/// Why a value doesn't fit a type.
#[derive(Clone, Copy, Debug, PartialEq, Eq)]
pub enum Misfit {
    /// The integer is beyond the type's range, or it is the least i64, which no type takes.
    OutOfRange,
    /// The text has more bytes than the type allows.
    TooLong,
    /// The value is an integer and the type one of texts, or the other way round.
    WrongClass,
}

impl ColType {
    /// The class of the type's values.
    pub fn class(self) -> Class
        ensures { result ≡ column.class_of self }
    {
        match self {
            ColType::Varchar(_) => Class::Text,
            _ => Class::Int,
        }
    }

    /// The greatest integer of the type, where it holds integers.
    fn greatest(self) -> Option<u64>
        ensures { result ≡ column.greatest_of self }
    {
        match self {
            ColType::Tiny => Some(127),
            ColType::Small => Some(32767),
            ColType::Integer => Some(2147483647),
            ColType::Big => Some(9223372036854775807),
            ColType::Varchar(_) => None,
        }
    }
}

/// Whether a type holding integers up to this one, in either sign, takes an integer.
fn integer_fits(n: i64, greatest: Option<u64>) -> Result<(), Misfit>
    ensures { result ≡ column.integer_fits n greatest }
{
    match greatest {
        Some(greatest) if n.unsigned_abs() <= greatest => Ok(()),
        Some(_) => Err(Misfit::OutOfRange),
        None => Err(Misfit::WrongClass),
    }
}

/// Whether a value fits a type. NULL fits every type. An integer fits a type of integers whose
/// range it is in, and a text one of texts of its length or more.
pub fn fits(v: &Value, t: ColType) -> Result<(), Misfit>
    ensures { result ≡ column.value_fits v.now t }
{
    match (v, t) {
        (Value::Null, _) => Ok(()),
        (Value::Int(n), _) if *n == i64::MIN => Err(Misfit::OutOfRange),
        (Value::Int(n), _) => integer_fits(*n, t.greatest()),
        (Value::Text(text), ColType::Varchar(most)) if text.as_str().len() <= most as usize => Ok(
            (),
        ),
        (Value::Text(_), ColType::Varchar(_)) => Err(Misfit::TooLong),
        (Value::Text(_), _) => Err(Misfit::WrongClass),
    }
}
