//! Puts the parts of a statement together.

ghost use Rattle.std.specs.Prelude.{◌≡◌, [], IfOk};
ghost use Rattle.std.specs.List.{sum_by};
ghost use Rattle.sql_meaning.specs.Changes.{counted};
ghost use Rattle.sql_meaning.specs.Judged.{Means};
ghost use Rattle.sql_meaning.specs.Parts as joining;
ghost use Rattle.sql_meaning.specs.Selects as meaning;

use crate::gathered::number_value;
use crate::groups::{JoinedGroup, joined_groups};
use crate::outputs::group_rows;
use crate::rows::{are_few, merged_rows, ordered_rows};
use sql_plan::{
    Action, Aggregated, Fault, GroupOutput, Order, Partial, Prepared, Row, Rows, RunFault, Scope,
    Shape,
};
use sqlite_items::Items;
use std::alloc::{AllocError, Global};
use volt_value::Value;

/// How many rows a part counts.
fn count_in(part: &Partial) -> u64
    ensures { result ≡ joining.count_in part.now }
{
    match part {
        Partial::Count(n) => *n,
        _ => 0,
    }
}

/// How many rows all parts count. Where there are more than a number counts, memory was wanting.
fn total(parts: &[Partial]) -> Result<u64, AllocError>
    ensures { IfOk result (λ n. n ≡ sum_by joining.count_in parts.now) }
{
    let mut sum = 0u64;
    for part in parts {
        sum = sum.checked_add(count_in(part)).ok_or(AllocError)?;
    }
    Ok(sum)
}

/// The row of a statement that changes a table.
fn count_row(alloc: Global, count: u64) -> Result<Rows, AllocError>
    ensures { IfOk result (λ rows. rows.rows ≡ counted count) }
{
    let mut values = Vec::new(alloc);
    values.push(Value::Int(number_value(count)?))?;
    let mut rows = Items::new(alloc);
    rows.push(Row::from_vec(values))?;
    Ok(Rows { rows })
}

/// The value of LIMIT in a part.
fn limit_in(part: &Partial) -> Option<u64>
    ensures { result ≡ joining.limit_in part.now }
{
    match part {
        Partial::Rows { limit, .. } => *limit,
        Partial::Groups { limit, .. } => *limit,
        Partial::Count(_) => None,
    }
}

/// The value of LIMIT, which is the same in all parts.
fn first_limit(parts: &[Partial]) -> Option<u64>
    ensures { result ≡ joining.first_limit parts.now }
{
    match parts.first() {
        Some(part) => limit_in(part),
        None => None,
    }
}

/// The parts that count.
fn parts_that_count(scope: Scope, parts: &[Partial]) -> &[Partial]
    ensures { result.now ≡ joining.parts_that_count scope parts.now }
{
    match scope {
        Scope::Replicated => &parts[..parts.len().min(1)],
        _ => parts,
    }
}

/// All aggregates as outputs, in their order.
fn aggregates_in_order(
    alloc: Global,
    aggregates: &[Aggregated],
) -> Result<Vec<GroupOutput>, AllocError>
    ensures { IfOk result (λ outputs. outputs.items ≡ meaning.aggregates_in_order aggregates.now) }
{
    let mut outputs = Vec::with_capacity(alloc, aggregates.len())?;
    for place in 0..aggregates.len() {
        outputs.push(GroupOutput::Aggregate(place))?;
    }
    Ok(outputs)
}

/// The rows of groups: their sums are judged, then their number; then come order and LIMIT.
fn finished_groups(
    alloc: Global,
    outputs: &[GroupOutput],
    order: &[Order],
    limit: Option<u64>,
    groups: &[JoinedGroup<'_>],
) -> Result<Rows, RunFault>
    ensures { Means result (λ rows. rows.rows) (meaning.finished_groups outputs.now order.now limit groups.now) }
{
    let rows = group_rows(alloc, outputs, order, groups)?;
    if !are_few(rows.len()) {
        return Err(RunFault::Fault(Fault::TooManyRows));
    }
    Ok(ordered_rows(alloc, limit, rows.as_slice())?)
}

/// The rows of a SELECT with GROUP BY.
fn merged_groups(
    alloc: Global,
    aggregates: &[Aggregated],
    outputs: &[GroupOutput],
    order: &[Order],
    parts: &[Partial],
) -> Result<Rows, RunFault>
    ensures { Means result (λ rows. rows.rows) (meaning.finished_groups outputs.now order.now (joining.first_limit parts.now) (joining.joined_groups aggregates.now parts.now)) }
{
    let groups = joined_groups(alloc, aggregates, parts)?;
    finished_groups(alloc, outputs, order, first_limit(parts), groups.as_slice())
}

/// The row of a SELECT with aggregates, without GROUP BY.
fn merged_total(
    alloc: Global,
    aggregates: &[Aggregated],
    parts: &[Partial],
) -> Result<Rows, RunFault>
    ensures { Means result (λ rows. rows.rows) (meaning.finished_groups (meaning.aggregates_in_order aggregates.now) [] (joining.first_limit parts.now) (joining.joined_groups aggregates.now parts.now)) }
{
    let outputs = aggregates_in_order(alloc, aggregates)?;
    let order = Vec::new(alloc);
    merged_groups(
        alloc,
        aggregates,
        outputs.as_slice(),
        order.as_slice(),
        parts,
    )
}

/// The rows of a SELECT.
fn merged_by(alloc: Global, shape: &Shape, parts: &[Partial]) -> Result<Rows, RunFault>
    ensures { Means result (λ rows. rows.rows) (joining.merged_by shape.now parts.now) }
{
    match shape {
        Shape::Rows { .. } => merged_rows(alloc, first_limit(parts), parts),
        Shape::Total(aggregates) => merged_total(alloc, aggregates.as_slice(), parts),
        Shape::Groups {
            aggregates,
            outputs,
            order,
            ..
        } => merged_groups(
            alloc,
            aggregates.as_slice(),
            outputs.as_slice(),
            order.as_slice(),
            parts,
        ),
    }
}

/// The rows of a statement: one with a count, or those of a SELECT.
fn merged_action(alloc: Global, action: &Action, parts: &[Partial]) -> Result<Rows, RunFault>
    ensures { Means result (λ rows. rows.rows) (joining.merged_action action.now parts.now) }
{
    match action {
        Action::Select(select) => merged_by(alloc, &select.shape, parts),
        _ => Ok(count_row(alloc, total(parts)?)?),
    }
}

/// Puts together what a statement gave on each partition, in the order of the partitions, or on the
/// one partition where it ran: its rows, or its fault.
///
/// Counts are added. Rows come in the order of their keys, under one LIMIT. Groups with one key become
/// one, of which the sums are exact before their range is judged. `Overflow` comes exactly where a sum
/// over all parts is out of range, and else `TooManyRows` exactly where there are more than 10,000
/// groups, or without groups more than 10,000 rows behind LIMIT. `NoMemory` is free. It comes too where
/// a count is beyond BIGINT or a sum beyond 128 bits, for which no tables have rows enough.
pub fn merge(alloc: Global, statement: &Prepared, parts: &[Partial]) -> Result<Rows, RunFault>
    ensures { Means result (λ rows. rows.rows) (joining.merged statement.now parts.now) }
{
    let parts = parts_that_count(statement.scope, parts);
    merged_action(alloc, &statement.action, parts)
}
