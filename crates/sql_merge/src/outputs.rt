//! The rows that are made of groups.

ghost use Rattle.std.specs.Prelude.{◌≡◌, map, IfOk};
ghost use Rattle.sql_meaning.specs.Judged.{Means, collected};
ghost use Rattle.sql_meaning.specs.Selects as meaning;
ghost use Rattle.sql_meaning.specs.Values.{at};
ghost use Rattle.sql_merge.specs.Seen.{pair_of};

use crate::gathered::values_of;
use crate::groups::JoinedGroup;
use sql_plan::{Directed, GroupOutput, KeyedRow, Order, OrderBy, Row, RowKey, RunFault};
use std::alloc::{AllocError, Global};
use volt_value::Value;

/// A copy of the value at a place: NULL where there is none.
fn value_at(alloc: Global, values: &[Value], place: usize) -> Result<Value, AllocError>
    ensures { IfOk result (λ value. value ≡ at values.now place) }
{
    match values.get(place) {
        Some(value) => value.copy(alloc),
        None => Ok(Value::Null),
    }
}

/// An output of a group.
fn output_of(
    alloc: Global,
    key: &[Value],
    aggregated: &[Value],
    output: GroupOutput,
) -> Result<Value, AllocError>
    ensures { IfOk result (λ value. value ≡ meaning.output_of key.now aggregated.now output) }
{
    match output {
        GroupOutput::Column(place) => value_at(alloc, key, place),
        GroupOutput::Aggregate(place) => value_at(alloc, aggregated, place),
    }
}

/// The outputs of a group.
fn outputs_of(
    alloc: Global,
    key: &[Value],
    aggregated: &[Value],
    outputs: &[GroupOutput],
) -> Result<Vec<Value>, AllocError>
    ensures { IfOk result (λ values. values.items ≡ map (meaning.output_of key.now aggregated.now) outputs.now) }
{
    let mut values = Vec::with_capacity(alloc, outputs.len())?;
    for output in outputs {
        values.push(output_of(alloc, key, aggregated, *output)?)?;
    }
    Ok(values)
}

/// One of the values that a row is put in order by.
fn ordered_by(
    alloc: Global,
    outputs: &[Value],
    columns: &[Value],
    order: Order,
) -> Result<Directed, AllocError>
    ensures { IfOk result (λ by. by ≡ meaning.directed order.descending (meaning.ordered_by outputs.now columns.now order.by)) }
{
    let value = match order.by {
        OrderBy::Output(place) => value_at(alloc, outputs, place)?,
        OrderBy::Column(place) => value_at(alloc, columns, place)?,
    };
    if order.descending {
        Ok(Directed::Descending(value))
    } else {
        Ok(Directed::Ascending(value))
    }
}

/// What a row is put in order by.
fn key_of(
    alloc: Global,
    outputs: &[Value],
    columns: &[Value],
    order: &[Order],
) -> Result<Vec<Directed>, AllocError>
    ensures { IfOk result (λ key. key.items ≡ map (λ o. meaning.directed o.descending (meaning.ordered_by outputs.now columns.now o.by)) order.now) }
{
    let mut key = Vec::with_capacity(alloc, order.len())?;
    for one in order {
        key.push(ordered_by(alloc, outputs, columns, *one)?)?;
    }
    Ok(key)
}

/// A row of these outputs, with what it is put in order by.
fn keyed(
    alloc: Global,
    order: &[Order],
    columns: &[Value],
    outputs: Vec<Value>,
) -> Result<KeyedRow, AllocError>
    ensures { IfOk result (λ row. pair_of row ≡ meaning.keyed order.now columns.now outputs.items) }
{
    let key = key_of(alloc, outputs.as_slice(), columns, order)?;
    Ok(KeyedRow {
        key: RowKey::from_vec(key),
        row: Row::from_vec(outputs),
    })
}

/// The row of a group, with what it is put in order by.
fn group_row(
    alloc: Global,
    outputs: &[GroupOutput],
    order: &[Order],
    group: &JoinedGroup<'_>,
) -> Result<KeyedRow, RunFault>
    ensures { Means result pair_of (meaning.group_row outputs.now order.now group.now) }
{
    let key = group.key.as_slice();
    let aggregated = values_of(alloc, group.gathered.as_slice())?;
    let values = outputs_of(alloc, key, aggregated.as_slice(), outputs)?;
    Ok(keyed(alloc, order, key, values)?)
}

/// The rows of groups, with what they are put in order by.
pub(crate) fn group_rows(
    alloc: Global,
    outputs: &[GroupOutput],
    order: &[Order],
    groups: &[JoinedGroup<'_>],
) -> Result<Vec<KeyedRow>, RunFault>
    ensures { Means result (λ rows. map pair_of rows.items) (collected (map (meaning.group_row outputs.now order.now) groups.now)) }
{
    let mut rows = Vec::with_capacity(alloc, groups.len())?;
    for group in groups {
        rows.push(group_row(alloc, outputs, order, group)?)?;
    }
    Ok(rows)
}
