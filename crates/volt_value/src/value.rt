//! Values.

ghost use Rattle.std.specs.Prelude.{◌≡◌, IfOk};

use crate::text::Text;
use std::alloc::{AllocError, Global};

/// A value of a column or of a parameter.
#[derive(Debug, Drop)]
pub enum Value {
    /// No value.
    Null,
    /// An integer. The least i64 is none, since it stands for NULL in the tables.
    Int(i64),
    /// A text.
    Text(Text),
}

impl Value {
    /// A copy.
    pub fn copy(&self, alloc: Global) -> Result<Value, AllocError>
        ensures { IfOk result (λ copy. copy ≡ self.now) }
    {
        match self {
            Value::Null => Ok(Value::Null),
            Value::Int(n) => Ok(Value::Int(*n)),
            Value::Text(text) => Ok(Value::Text(Text::of(alloc, text.as_str())?)),
        }
    }
}
