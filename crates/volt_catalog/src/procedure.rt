//! What a procedure's definition says of how it is called.

ghost use Rattle.std.specs.Prelude.{◌≡◌};

use std::marker::Model;
use volt_value::{ColType, Text};

/// The head of a procedure. The catalog holds none: what a procedure does stands elsewhere.
#[derive(Debug, Drop)]
pub struct ProcDef {
    /// The name as it was written. Names are compared without ASCII case.
    pub name: Text,
    /// The types of its parameters.
    pub params: ParamTypes,
    /// Of a procedure that runs on one partition: a table, its partitioning column, and the number
    /// of the parameter whose value there chooses the partition. All are counted from 0.
    pub part: Option<(u16, u8, u8)>,
}

/// Types of parameters in their order, seen as that list.
#[derive(Debug, Drop)]
pub struct ParamTypes {
    held: Vec<ColType>,
}

impl Model for ParamTypes {
    ghost use Rattle.std.specs.Prelude.{List};
    ghost use Rattle.volt_value.specs.declared.column.ColType.{ColType};

    ghost Value = { List ColType };

    ghost view = { λ p. p.held.items };
}

impl ParamTypes {
    /// The types of a vector, which is not copied.
    pub fn from_vec(held: Vec<ColType>) -> ParamTypes
        ensures { result ≡ held.items }
    {
        ParamTypes { held }
    }

    /// The types as a vector. They are not copied.
    pub fn into_vec(self) -> Vec<ColType>
        ensures { result.items ≡ self }
    {
        self.held
    }

    /// The types.
    pub fn as_slice(&self) -> &[ColType]
        ensures { result.now ≡ self.now }
    {
        self.held.as_slice()
    }
}
