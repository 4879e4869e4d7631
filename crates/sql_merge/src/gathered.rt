//! What aggregates gathered on several partitions, put together.

ghost use Rattle.std.specs.Prelude.{◌≡◌, ◌+◌, map, pos, IfOk};
ghost use Rattle.sql_meaning.specs.Groups as meaning;
ghost use Rattle.sql_meaning.specs.Judged.{Means, collected};
ghost use Rattle.sql_meaning.specs.Parts as joining;
ghost use Rattle.sql_meaning.specs.Values as values;
ghost use Rattle.sql_merge.specs.Seen.{seen};

use sql_plan::{Aggregated, Fault, Gathered, RunFault};
use sqlite_items::Items;
use std::alloc::{AllocError, Global};
use std::cmp::Ordering;
use volt_value::Value;

/// The number that was counted.
fn number_of(gathered: &Gathered) -> u64
    ensures { result ≡ joining.number_of gathered.now }
{
    match gathered {
        Gathered::Count(n) => *n,
        _ => 0,
    }
}

/// The sum.
fn sum_in(gathered: &Gathered) -> Option<i128>
    ensures { result ≡ joining.sum_in gathered.now }
{
    match gathered {
        Gathered::Sum(sum) => *sum,
        _ => None,
    }
}

/// The least or the greatest value.
fn value_in(gathered: &Gathered) -> Option<&Value>
    ensures { seen result ≡ joining.value_in gathered.now }
{
    match gathered {
        Gathered::Min(x) => Some(x),
        Gathered::Max(x) => Some(x),
        _ => None,
    }
}

/// Two numbers of rows. Where there are more rows than a number counts, memory was wanting.
fn count_of_two(a: u64, b: u64) -> Result<u64, AllocError>
    ensures { IfOk result (λ sum. sum ≡ a + b) }
{
    a.checked_add(b).ok_or(AllocError)
}

/// The exact sum of two numbers, where there are two. Beyond 128 bits memory was wanting: no tables
/// have so many rows.
fn sum_of_two(a: Option<i128>, b: Option<i128>) -> Result<Option<i128>, AllocError>
    ensures { IfOk result (λ sum. sum ≡ meaning.sum_of_two a b) }
{
    match (a, b) {
        (None, _) => Ok(b),
        (Some(_), None) => Ok(a),
        (Some(a), Some(b)) => match a.checked_add(b) {
            Some(sum) => Ok(Some(sum)),
            None => Err(AllocError),
        },
    }
}

/// The lesser of two values: where one is NULL the other.
fn min_of_two<'a>(a: Option<&'a Value>, b: Option<&'a Value>) -> Option<&'a Value>
    ensures { seen result ≡ meaning.min_of_two (seen a.entry) (seen b.entry) }
{
    match (a, b) {
        (None, _) => b,
        (Some(Value::Null), _) => b,
        (Some(_), None) => a,
        (Some(_), Some(Value::Null)) => a,
        (Some(x), Some(y)) => { if y.cmp(x) == Ordering::Less { b } else { a } }
    }
}

/// The greater of two values: where one is NULL the other.
fn max_of_two<'a>(a: Option<&'a Value>, b: Option<&'a Value>) -> Option<&'a Value>
    ensures { seen result ≡ meaning.max_of_two (seen a.entry) (seen b.entry) }
{
    match (a, b) {
        (None, _) => b,
        (Some(_), None) => a,
        (Some(x), Some(y)) => { if x.cmp(y) == Ordering::Less { b } else { a } }
    }
}

/// A copy of a value: NULL where it is missing.
fn copied(alloc: Global, value: Option<&Value>) -> Result<Value, AllocError>
    ensures { IfOk result (λ copy. copy ≡ seen value.entry) }
{
    match value {
        Some(value) => value.copy(alloc),
        None => Ok(Value::Null),
    }
}

/// What an aggregate gathered of some rows and of others.
fn joined(
    alloc: Global,
    aggregate: &Aggregated,
    a: &Gathered,
    b: &Gathered,
) -> Result<Gathered, AllocError>
    ensures { IfOk result (λ both. both ≡ joining.joined aggregate.now a.now b.now) }
{
    match aggregate {
        Aggregated::CountRows => Ok(Gathered::Count(count_of_two(number_of(a), number_of(b))?)),
        Aggregated::Count(_) => Ok(Gathered::Count(count_of_two(number_of(a), number_of(b))?)),
        Aggregated::Sum(_) => Ok(Gathered::Sum(sum_of_two(sum_in(a), sum_in(b))?)),
        Aggregated::Min(_) => {
            let least = min_of_two(value_in(a), value_in(b));
            Ok(Gathered::Min(copied(alloc, least)?))
        }
        Aggregated::Max(_) => {
            let greatest = max_of_two(value_in(a), value_in(b));
            Ok(Gathered::Max(copied(alloc, greatest)?))
        }
    }
}

/// What each aggregate gathered of some rows and of others.
pub(crate) fn all_joined(
    alloc: Global,
    aggregates: &[Aggregated],
    a: &[Gathered],
    b: &[Gathered],
) -> Result<Items<Gathered>, AllocError>
    ensures { IfOk result (λ all. all ≡ joining.all_joined aggregates.now a.now b.now) }
{
    let mut all = Items::new(alloc);
    let count = aggregates.len().min(a.len()).min(b.len());
    for place in 0..count {
        all.push(joined(alloc, &aggregates[place], &a[place], &b[place])?)?;
    }
    Ok(all)
}

/// A copy of what was gathered.
fn copy(alloc: Global, gathered: &Gathered) -> Result<Gathered, AllocError>
    ensures { IfOk result (λ copy. copy ≡ gathered.now) }
{
    match gathered {
        Gathered::Count(n) => Ok(Gathered::Count(*n)),
        Gathered::Sum(sum) => Ok(Gathered::Sum(*sum)),
        Gathered::Min(x) => Ok(Gathered::Min(x.copy(alloc)?)),
        Gathered::Max(x) => Ok(Gathered::Max(x.copy(alloc)?)),
    }
}

/// A copy of all that was gathered.
pub(crate) fn copies(alloc: Global, gathered: &[Gathered]) -> Result<Items<Gathered>, AllocError>
    ensures { IfOk result (λ copies. copies ≡ gathered.now) }
{
    let mut copies = Items::new(alloc);
    for one in gathered {
        copies.push(copy(alloc, one)?)?;
    }
    Ok(copies)
}

/// A number of rows as a value. Where it is beyond BIGINT, memory was wanting: no tables have so many
/// rows.
pub(crate) fn number_value(n: u64) -> Result<i64, AllocError>
    ensures { IfOk result (λ value. value ≡ pos n) }
{
    i64::try_from(n).map_err(|_| AllocError)
}

/// A sum as a value, which is in the range of BIGINT or a fault.
fn in_range(sum: i128) -> Result<Value, RunFault>
    ensures { Means result (λ value. value) (values.in_range sum) }
{
    if sum < -9223372036854775807 || 9223372036854775807 < sum {
        return Err(RunFault::Fault(Fault::Overflow));
    }
    Ok(Value::Int(sum as i64))
}

/// The value of what was gathered.
fn value_of(alloc: Global, gathered: &Gathered) -> Result<Value, RunFault>
    ensures { Means result (λ value. value) (meaning.value_of gathered.now) }
{
    match gathered {
        Gathered::Count(n) => Ok(Value::Int(number_value(*n)?)),
        Gathered::Sum(None) => Ok(Value::Null),
        Gathered::Sum(Some(sum)) => in_range(*sum),
        Gathered::Min(x) => Ok(x.copy(alloc)?),
        Gathered::Max(x) => Ok(x.copy(alloc)?),
    }
}

/// The values of all that was gathered of a group.
pub(crate) fn values_of(alloc: Global, gathered: &[Gathered]) -> Result<Vec<Value>, RunFault>
    ensures { Means result (λ values. values.items) (collected (map meaning.value_of gathered.now)) }
{
    let mut values = Vec::with_capacity(alloc, gathered.len())?;
    for one in gathered {
        values.push(value_of(alloc, one)?)?;
    }
    Ok(values)
}
