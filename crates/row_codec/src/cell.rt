//! One value of a packed row.

ghost use Rattle.std.specs.Prelude.{◌≡◌, ◌≤◌, ◌++◌, ◌-◌, None, length, replicate, ℤ, IfOk, OnOk, OnErr};
ghost use Rattle.std.specs.Int.{w16, to_be_bytes};
ghost use Rattle.volt_value.specs.Columns.{value_fits};
ghost use Rattle.row_codec.specs.Seen.{seen};
ghost use Rattle.row_codec.specs.Cells.{cell_width, cell_bytes, cell_value, integer_of, value_of, text_of, IsSound};
ghost use Rattle.row_codec.specs.Faults.{value_fault};

use crate::fault::RowFault;
use crate::field::Field;
use std::alloc::{AllocError, Global};
use volt_value::{ColType, Misfit, Text, Value, fits};

/// A value that is borrowed from a packed row.
#[derive(Clone, Copy, Debug)]
pub enum Cell<'a> {
    /// No value.
    Null,
    /// An integer.
    Int(i64),
    /// A text.
    Text(&'a str),
}

impl<'a> Cell<'a> {
    /// A copy that owns its text.
    pub fn to_value(self, alloc: Global) -> Result<Value, AllocError>
        ensures { IfOk result (λ value. value ≡ seen self.entry) }
    {
        match self {
            Cell::Null => Ok(Value::Null),
            Cell::Int(n) => Ok(Value::Int(n)),
            Cell::Text(text) => Ok(Value::Text(Text::of(alloc, text)?)),
        }
    }
}

/// How many bytes a value of a type has in a packed row: 1, 2, 4 or 8 of an integer, and of a text two
/// more than its type's length.
pub(crate) fn width_of(kind: ColType) -> u32
    ensures { result ≡ cell_width kind }
{
    match kind {
        ColType::Tiny => 1,
        ColType::Small => 2,
        ColType::Integer => 4,
        ColType::Big => 8,
        ColType::Varchar(most) => u32::from(most) + 2,
    }
}

/// The fault of a value in a column.
pub fn fault_of(field: Field, value: &Value) -> Option<RowFault>
    ensures { result ≡ value_fault field value.now }
{
    match value {
        Value::Null if field.not_null => Some(RowFault::NullInColumn),
        Value::Null => None,
        value => match fits(value, field.kind) {
            Ok(()) => None,
            Err(Misfit::TooLong) => Some(RowFault::TooLong),
            Err(Misfit::OutOfRange | Misfit::WrongClass) => Some(RowFault::OutOfRange),
        },
    }
}
