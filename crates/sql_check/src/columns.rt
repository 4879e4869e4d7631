//! Columns by their numbers.

ghost use Rattle.std.specs.Prelude.{◌≡◌, IfOk};
ghost use Rattle.sql_check.specs.Columns as spec;

use sql_plan::Scalar;
use sql_resolve::number_of;
use sqlite_items::Items;
use std::alloc::{AllocError, Global};
use volt_catalog::Column;
use volt_value::Text;

fn is_among(numbers: &[usize], number: usize) -> bool
    ensures { result ≡ spec.is_among numbers.now number }
{
    numbers.iter().any(|other| *other == number)
}

/// The number of the column of a name, where it isn't one of those that were named before.
pub fn place_of(columns: &[Column], earlier: &[usize], name: &Text) -> Option<usize>
    ensures { result ≡ spec.place_of columns.now earlier.now name.now }
{
    match number_of(columns, name) {
        Some(number) if !is_among(earlier, number) => Some(number),
        _ => None,
    }
}

/// So many columns, each as it is.
#[tactic(auto, using(crate::proofs::RangeLemmas::columns_more))]
pub(crate) fn all_columns(alloc: Global, count: usize) -> Result<Items<Scalar>, AllocError>
    ensures { IfOk result (λ columns. columns ≡ spec.columns_to count) }
{
    let mut columns = Items::new(alloc);
    for number in 0..count {
        columns.push(Scalar::Column(number))?;
    }
    Ok(columns)
}

/// The numbers of so many columns.
#[tactic(auto, using(crate::proofs::RangeLemmas::numbers_more))]
pub(crate) fn all_numbers(alloc: Global, count: usize) -> Result<Items<usize>, AllocError>
    ensures { IfOk result (λ numbers. numbers ≡ spec.numbers_to count) }
{
    let mut numbers = Items::new(alloc);
    for number in 0..count {
        numbers.push(number)?;
    }
    Ok(numbers)
}
