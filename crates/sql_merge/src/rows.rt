//! Rows of all parts, in order.

ghost use Rattle.std.specs.Prelude.{◌≡◌, ◌++◌, nat_le, map, IfOk, OnOk};
ghost use Rattle.std.specs.List.{flat_map};
ghost use Rattle.sql_plan.specs.Keys.{key_cmp};
ghost use Rattle.sql_meaning.specs.Judged.{Means};
ghost use Rattle.sql_meaning.specs.Maps.{put_all, latest as later};
ghost use Rattle.sql_meaning.specs.Parts as joining;
ghost use Rattle.sql_meaning.specs.Selects as meaning;
ghost use Rattle.sql_merge.specs.Seen.{pair_of};

use crate::entries::{Entry, in_order, last_of_each};
use sql_plan::{Fault, KeyedRow, Partial, Row, RowKey, Rows, RunFault};
use sqlite_items::Items;
use std::alloc::{AllocError, Global};

/// Not more rows than a result may have.
pub(crate) fn are_few(count: usize) -> bool
    ensures { result ≡ nat_le count meaning.most_rows }
{
    count <= 10_000
}

/// Adds rows to others.
fn add_rows<'a>(
    entries: &mut Vec<Entry<'a, RowKey, Row>>,
    rows: &'a [KeyedRow],
) -> Result<(), AllocError>
    ensures { OnOk result (entries.new.items ≡ entries.old.items ++ map pair_of rows.now) }
{
    entries.reserve(rows.len())?;
    for row in rows {
        entries.push(Entry {
            key: &row.key,
            value: &row.row,
        })?;
    }
    Ok(())
}

/// Adds the rows of a part.
fn add_part<'a>(
    entries: &mut Vec<Entry<'a, RowKey, Row>>,
    part: &'a Partial,
) -> Result<(), AllocError>
    ensures { OnOk result (entries.new.items ≡ entries.old.items ++ joining.rows_in part.now) }
{
    match part {
        Partial::Rows { rows, .. } => add_rows(entries, rows.as_slice()),
        _ => Ok(()),
    }
}

/// The rows of all parts, one behind another.
fn all_rows<'a>(
    alloc: Global,
    parts: &'a [Partial],
) -> Result<Vec<Entry<'a, RowKey, Row>>, AllocError>
    ensures { IfOk result (λ rows. rows.items ≡ flat_map joining.rows_in parts.now) }
{
    let mut entries = Vec::new(alloc);
    for part in parts {
        add_part(&mut entries, part)?;
    }
    Ok(entries)
}

/// The first entries, where LIMIT is written.
fn within<'a>(
    limit: Option<u64>,
    entries: Vec<Entry<'a, RowKey, Row>>,
) -> Vec<Entry<'a, RowKey, Row>>
    ensures { map (λ e. e.1) result.items ≡ meaning.within limit (map (λ e. e.1) entries.entry.items) }
{
    let mut entries = entries;
    if let Some(most) = limit {
        if most < entries.len() as u64 {
            entries.truncate(most as usize);
        }
    }
    entries
}

/// The entries in order, and of these the first ones.
fn first_in_order<'a>(
    alloc: Global,
    limit: Option<u64>,
    entries: Vec<Entry<'a, RowKey, Row>>,
) -> Result<Vec<Entry<'a, RowKey, Row>>, AllocError>
    ensures { IfOk result (λ rows. map (λ e. e.1) rows.items ≡ meaning.within limit (meaning.in_order entries.entry.items)) }
{
    let sorted = in_order(entries)?;
    Ok(within(limit, last_of_each(alloc, sorted.as_slice())?))
}

/// Copies of the rows of entries.
fn rows_of(alloc: Global, entries: &[Entry<'_, RowKey, Row>]) -> Result<Rows, AllocError>
    ensures { IfOk result (λ rows. rows.rows ≡ map (λ e. e.1) entries.now) }
{
    let mut rows = Items::new(alloc);
    for entry in entries {
        rows.push(Row::of(alloc, entry.value.as_slice())?)?;
    }
    Ok(Rows { rows })
}

/// The rows of entries, if they aren't too many.
fn few_rows(alloc: Global, entries: &[Entry<'_, RowKey, Row>]) -> Result<Rows, RunFault>
    ensures { Means result (λ rows. rows.rows) (meaning.if_few (map (λ e. e.1) entries.now)) }
{
    if !are_few(entries.len()) {
        return Err(RunFault::Fault(Fault::TooManyRows));
    }
    Ok(rows_of(alloc, entries)?)
}

/// The rows of all parts in order, the first ones of LIMIT, and not too many of these.
pub(crate) fn merged_rows(
    alloc: Global,
    limit: Option<u64>,
    parts: &[Partial],
) -> Result<Rows, RunFault>
    ensures { Means result (λ rows. rows.rows) (meaning.finished_rows limit (flat_map joining.rows_in parts.now)) }
{
    let entries = first_in_order(alloc, limit, all_rows(alloc, parts)?)?;
    few_rows(alloc, entries.as_slice())
}

/// Rows in order, and of these the first ones of LIMIT.
pub(crate) fn ordered_rows(
    alloc: Global,
    limit: Option<u64>,
    rows: &[KeyedRow],
) -> Result<Rows, AllocError>
    ensures { IfOk result (λ ordered. ordered.rows ≡ meaning.within limit (meaning.in_order (map pair_of rows.now))) }
{
    let mut entries = Vec::new(alloc);
    add_rows(&mut entries, rows)?;
    let entries = first_in_order(alloc, limit, entries)?;
    rows_of(alloc, entries.as_slice())
}
