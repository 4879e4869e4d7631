//! Rows.

ghost use Rattle.std.specs.Prelude.{◌≡◌, Some, refl, IfOk};
ghost use Rattle.std.specs.Cmp.{IsTotalOrder, partial_order_from_total, partial_equiv_from_equiv};
ghost use Rattle.std.specs.Ordering.{eq_by_cmp};
ghost use Rattle.std.proofs.lemmas.Cmp.{eq_by_cmp_equiv};
ghost use Rattle.sql_plan.specs.Rows.{row_cmp, row_total};

use sqlite_items::Items;
use std::alloc::{AllocError, Global};
use std::cmp::Ordering;
use std::marker::Model;
use volt_value::Value;

/// The values of a row in the order of its columns, seen as that list. Rows are ordered by their
/// first values, then by their second ones, and so on; where one ends, it comes first.
#[derive(Debug, Drop)]
pub struct Row {
    held: Vec<Value>,
}

impl Model for Row {
    ghost use Rattle.std.specs.Prelude.{List};
    ghost use Rattle.volt_value.specs.declared.value.Value.{Value as Cell};

    ghost Value = { List Cell };

    ghost view = { λ r. r.held.items };
}

/// Copies of values.
fn copies(alloc: Global, values: &[Value]) -> Result<Vec<Value>, AllocError>
    ensures { IfOk result (λ copies. copies.items ≡ values.now) }
{
    let mut copies = Vec::with_capacity(alloc, values.len())?;
    for value in values {
        copies.push(value.copy(alloc)?)?;
    }
    Ok(copies)
}

impl Row {
    /// A row of copies of these values.
    pub fn of(alloc: Global, values: &[Value]) -> Result<Row, AllocError>
        ensures { IfOk result (λ row. row ≡ values.now) }
    {
        Ok(Row {
            held: copies(alloc, values)?,
        })
    }

    /// The row of a vector, which is not copied.
    pub fn from_vec(held: Vec<Value>) -> Row
        ensures { result ≡ held.items }
    {
        Row { held }
    }

    /// The values as a vector. They are not copied.
    pub fn into_vec(self) -> Vec<Value>
        ensures { result.items ≡ self }
    {
        self.held
    }

    /// The values.
    pub fn as_slice(&self) -> &[Value]
        ensures { result.now ≡ self.now }
    {
        self.held.as_slice()
    }
}

impl PartialEq for Row {
    ghost eq = { eq_by_cmp row_cmp };

    ghost laws = { partial_equiv_from_equiv (eq_by_cmp_equiv row_total) };

    fn eq(&self, other: &Row) -> bool {
        self.cmp(other) == Ordering::Equal
    }
}

impl Eq for Row {
    ghost laws = { eq_by_cmp_equiv row_total };
}

impl PartialOrd for Row {
    ghost partial_cmp = { λ a b. Some (row_cmp a b) };

    ghost laws = { partial_order_from_total row_total };

    fn partial_cmp(&self, other: &Row) -> Option<Ordering> {
        Some(self.cmp(other))
    }
}

impl Ord for Row {
    ghost cmp = { row_cmp };

    ghost total = { row_total };

    ghost matches_partial_cmp = { λ a b. refl };

    ghost matches_eq = { λ a b. refl };

    fn cmp(&self, other: &Row) -> Ordering {
        self.as_slice().cmp(other.as_slice())
    }
}

/// The rows of a result.
#[derive(Debug, Drop)]
pub struct Rows {
    pub rows: Items<Row>,
}
