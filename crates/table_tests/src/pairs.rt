//! Tables of pairs, and their columns, that the tests of this crate share.

ghost use Rattle.std.specs.Prelude.{◌≡◌, IfOk};

use row_codec::{Field, RowLayout};
use std::alloc::{AllocError, Global};
use table_rows::{Rows, TableRows};
use volt_catalog::ColumnNos;
use volt_value::{ColType, Value};

/// A column of a type, and whether it takes NULL.
pub(crate) fn field(kind: ColType, not_null: bool) -> Field
    ensures { result ≡ record { kind = kind; not_null = not_null } }
{
    Field { kind, not_null }
}

/// The numbers of columns.
pub(crate) fn columns(alloc: Global, numbers: &[u8]) -> Result<ColumnNos, AllocError>
    ensures { IfOk result (λ columns. columns ≡ numbers.now) }
{
    Ok(ColumnNos::from_vec(Vec::from_slice(alloc, numbers)?))
}

/// Pairs of integers, in which no two have the same first or the same second.
pub(crate) fn pairs(alloc: Global) -> Result<TableRows, AllocError> {
    let fields = [field(ColType::Big, true), field(ColType::Big, false)];
    let layout = RowLayout::new(alloc, Vec::from_slice(alloc, &fields)?)?;
    let mut keys = Vec::new(alloc);
    keys.push(columns(alloc, &[0])?)?;
    keys.push(columns(alloc, &[1])?)?;
    TableRows::new(alloc, layout, keys)
}

/// The digits of pairs, in their order.
pub(crate) fn digits(alloc: Global, rows: Rows<'_>) -> Result<i64, AllocError> {
    let mut digits = 0i64;
    for row in rows {
        if let [Value::Int(a), Value::Int(b)] = row.values(alloc)?.as_slice() {
            digits = digits.saturating_mul(10).saturating_add(*a);
            digits = digits.saturating_mul(10).saturating_add(*b);
        }
    }
    Ok(digits)
}
