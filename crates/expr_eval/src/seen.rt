//! Values that are borrowed.

ghost use Rattle.std.specs.Prelude.{◌≡◌, IfOk};
ghost use Rattle.sql_meaning.specs.Values.{at};
ghost use Rattle.expr_eval.specs.Shown.{shown};

use std::alloc::{AllocError, Global};
use volt_value::{Text, Value};

/// A value that was read or calculated. A text stays where it is.
#[derive(Clone, Copy, Debug)]
pub enum Seen<'a> {
    Null,
    Int(i64),
    Text(&'a Text),
}

impl<'a> Seen<'a> {
    /// A value as it is seen.
    pub fn of(value: &'a Value) -> Seen<'a>
        ensures { shown result ≡ value.now }
    {
        match value {
            Value::Null => Seen::Null,
            Value::Int(n) => Seen::Int(*n),
            Value::Text(text) => Seen::Text(text),
        }
    }

    /// The value at a place, as it is seen: NULL where there is none.
    pub fn at(values: &'a [Value], place: usize) -> Seen<'a>
        ensures { shown result ≡ at values.now place }
    {
        match values.get(place) {
            Some(value) => Seen::of(value),
            None => Seen::Null,
        }
    }

    /// The value, with a copy of its text.
    pub fn owned(self, alloc: Global) -> Result<Value, AllocError>
        ensures { IfOk result (λ value. value ≡ shown self.entry) }
    {
        match self {
            Seen::Null => Ok(Value::Null),
            Seen::Int(n) => Ok(Value::Int(n)),
            Seen::Text(text) => Ok(Value::Text(Text::of(alloc, text.as_str())?)),
        }
    }
}
