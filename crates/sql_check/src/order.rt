//! ORDER BY and LIMIT.

ghost use Rattle.std.specs.Prelude.{◌≡◌, ◌+◌, ◌≤◌, ◌^◌, ◌++◌, [], map, position, IfOk, OnOk};
ghost use Rattle.std.specs.List.{range_with_len};
ghost use Rattle.volt_catalog.specs.Names.{same_name};
ghost use Rattle.sql_check.specs.Selects as spec;

use sql_parse::{ColumnName, Limit, SortKey};
use sql_plan::{Order, OrderBy, RowLimit};
use sql_resolve::{CheckFault, FoundColumn, Names, Notes, is_same, question, taken};
use sqlite_items::Items;
use std::alloc::{AllocError, Global};
use volt_value::{Class, Text};

/// The place of the first output of a name.
fn head_named(heads: &[(Text, Class)], name: &Text) -> Option<usize>
    ensures { result ≡ position (λ head. same_name name.now head.0) heads.now }
{
    heads.iter().position(|head| is_same(name, &head.0))
}

/// The place of the first output of a name, which is written without a table.
fn output_named(heads: &[(Text, Class)], name: &ColumnName) -> Option<usize>
    ensures { result ≡ spec.output_named heads.now name.now name.now.table }
{
    match &name.table {
        Some(_) => None,
        None => head_named(heads, &name.column),
    }
}

fn column_by(column: Option<FoundColumn>) -> Option<OrderBy>
    ensures { result ≡ spec.column_by column }
{
    match column {
        Some(column) => Some(OrderBy::Column(column.number)),
        None => None,
    }
}

/// What a name in ORDER BY stands for.
pub fn order_by(
    names: &Names<'_>,
    heads: &[(Text, Class)],
    grouped: bool,
    name: &ColumnName,
) -> Option<OrderBy>
    ensures { result ≡ spec.order_by names.now heads.now grouped name.now }
{
    match output_named(heads, name) {
        Some(place) => Some(OrderBy::Output(place)),
        None => {
            if grouped {
                None
            } else {
                column_by(names.column(name))
            }
        }
    }
}

/// What rows are put in order by, behind what decides before.
fn order_one(
    notes: &mut Notes,
    order: &mut Items<Order>,
    descending: bool,
    by: Option<OrderBy>,
) -> Result<(), AllocError>
    ensures { OnOk result ((notes.new, order.new) ≡ spec.order_one order.old descending by notes.old) }
{
    match by {
        Some(by) => order.push(Order { by, descending })?,
        None => notes.blame(CheckFault::NoSuchName),
    }
    Ok(())
}

/// ORDER BY.
pub(crate) fn ordered(
    alloc: Global,
    names: &Names<'_>,
    notes: &mut Notes,
    heads: &[(Text, Class)],
    grouped: bool,
    keys: &[SortKey],
) -> Result<Items<Order>, AllocError>
    ensures { IfOk result (λ order. (notes.new, order) ≡ spec.ordered names.now heads.now grouped keys.now [] notes.old) }
{
    let mut order = Items::new(alloc);
    for key in keys {
        let by = order_by(names, heads, grouped, &key.column);
        order_one(notes, &mut order, key.descending, by)?;
    }
    Ok(order)
}

/// The columns of a primary key behind what decides before, of a table behind so many columns.
pub(crate) fn with_key(
    order: Items<Order>,
    before: usize,
    key: &[u8],
) -> Result<Items<Order>, AllocError>
    requires { before ≤ 2 ^ 60 }
    ensures { IfOk result (λ all. all ≡ order ++ map (λ n. spec.ascending (before + n)) key.now) }
{
    let mut order = order;
    for number in key {
        order.push(Order {
            by: OrderBy::Column(before + *number as usize),
            descending: false,
        })?;
    }
    Ok(order)
}

/// So many columns, ascending.
#[tactic(auto, using(crate::proofs::RangeLemmas::ascending_more))]
fn ascending(alloc: Global, count: usize) -> Result<Items<Order>, AllocError>
    ensures { IfOk result (λ all. all ≡ map spec.ascending (range_with_len 0 count)) }
{
    let mut order = Items::new(alloc);
    for number in 0..count {
        order.push(Order {
            by: OrderBy::Column(number),
            descending: false,
        })?;
    }
    Ok(order)
}

/// The columns of GROUP BY behind what decides before.
pub(crate) fn with_groups(
    alloc: Global,
    order: Items<Order>,
    count: usize,
) -> Result<Items<Order>, AllocError>
    ensures { IfOk result (λ all. all ≡ order ++ map spec.ascending (range_with_len 0 count)) }
{
    let mut order = order;
    order.append(ascending(alloc, count)?)?;
    Ok(order)
}

/// The parameter of a number as a limit.
fn limit_at(number: Option<usize>) -> Option<RowLimit>
    ensures { result ≡ spec.limit_at number }
{
    match number {
        Some(number) => Some(RowLimit::Param(number)),
        None => None,
    }
}

/// LIMIT.
pub(crate) fn limited_to(
    names: &Names<'_>,
    notes: &mut Notes,
    limit: &Option<Limit>,
) -> Result<Option<RowLimit>, AllocError>
    ensures { IfOk result (λ x. (notes.new, x) ≡ spec.limited_to names.now limit.now notes.old) }
{
    match limit {
        None => Ok(None),
        Some(Limit::Number(n)) => Ok(Some(RowLimit::Number(*n))),
        Some(Limit::Parameter) => Ok(limit_at(question(names, notes, Class::Int)?)),
        Some(Limit::Variable(name)) => Ok(limit_at(taken(
            notes,
            names.variable(name),
            Class::Int,
        )?)),
    }
}
