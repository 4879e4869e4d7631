//! Columns as a packed row sees them.

use volt_value::ColType;

/// What a column of a table takes.
#[derive(Clone, Copy, Debug, PartialEq, Eq)]
pub struct Field {
    /// The type of its values.
    pub kind: ColType,
    /// Whether it takes no NULL.
    pub not_null: bool,
}
