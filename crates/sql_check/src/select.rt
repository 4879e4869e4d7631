//! SELECT.

ghost use Rattle.std.specs.Prelude.{◌≡◌, ◌≤◌, ◌^◌, option_map, IfOk};
ghost use Rattle.sql_check.specs.From as sources;
ghost use Rattle.sql_check.specs.SelectStatement as spec;
ghost use Rattle.sql_resolve.specs.Named.{bound_in};
ghost use Rattle.sql_check.specs.Writes.{filtered};

use crate::columns::all_columns;
use crate::distribution::tell_parts;
use crate::examined::{Examined, finish};
use crate::from::{Source, Sources, find_sources, on_of};
use crate::groups::{Grouping, group_columns, group_outputs};
use crate::order::{limited_to, ordered, with_groups, with_key};
use crate::outputs::{all_heads, have_aggregate, heads_of_outputs, row_outputs};
use crate::writes::filtered;
use sql_parse::{Expr, Output, Outputs, Select, SortKey};
use sql_plan::{Action, Cond, JoinPlan, Order, Scalar, SelectPlan, Shape};
use sql_resolve::{Bound, CheckFault, Names, Notes, condition};
use sqlite_items::Items;
use std::alloc::{AllocError, Global};
use volt_catalog::Catalog;
use volt_value::{Class, Text};

/// Rows in the order of ORDER BY, and then in that of the primary keys.
fn rows_of(
    alloc: Global,
    names: &Names<'_>,
    notes: &mut Notes,
    heads: &[(Text, Class)],
    keys: &[SortKey],
    outputs: Items<Scalar>,
) -> Result<Shape, AllocError>
    ensures { IfOk result (λ shape. (notes.new, shape) ≡ spec.rows_of names.now heads.now keys.now outputs notes.old) }
{
    let order = ordered(alloc, names, notes, heads, false, keys)?;
    let order = with_key(order, 0, names.left_key())?;
    let order = with_key(order, names.left_width(), names.right_key())?;
    Ok(Shape::Rows { outputs, order })
}

/// Groups in the order of ORDER BY, and then in that of their columns: one without GROUP BY.
fn groups_of(
    alloc: Global,
    by: Items<usize>,
    grouping: Grouping,
    order: Items<Order>,
) -> Result<Shape, AllocError>
    ensures { IfOk result (λ shape. shape ≡ spec.groups_of by grouping order) }
{
    let count = by.len();
    if count == 0 {
        return Ok(Shape::Total(grouping.aggregates));
    }
    Ok(Shape::Groups {
        by,
        aggregates: grouping.aggregates,
        outputs: grouping.outputs,
        order: with_groups(alloc, order, count)?,
    })
}

fn grouped_of(
    alloc: Global,
    names: &Names<'_>,
    notes: &mut Notes,
    heads: &[(Text, Class)],
    select: &Select,
    outputs: &[Output],
) -> Result<Shape, AllocError>
    ensures { IfOk result (λ shape. (notes.new, shape) ≡ spec.grouped_of names.now heads.now select.now outputs.now notes.old) }
{
    let by = group_columns(alloc, names, notes, select.groups.as_slice())?;
    let grouping = group_outputs(alloc, names, notes, by.as_slice(), outputs)?;
    let order = ordered(alloc, names, notes, heads, true, select.order.as_slice())?;
    groups_of(alloc, by, grouping, order)
}

/// What a SELECT makes of the rows that it keeps, of outputs that are listed.
fn listed_shape(
    alloc: Global,
    names: &Names<'_>,
    notes: &mut Notes,
    heads: &[(Text, Class)],
    select: &Select,
    outputs: &[Output],
) -> Result<Shape, AllocError>
    ensures { IfOk result (λ shape. (notes.new, shape) ≡ spec.listed_shape names.now heads.now select.now outputs.now (spec.has_groups select.now outputs.now) notes.old) }
{
    if select.groups.len() != 0 || have_aggregate(outputs) {
        grouped_of(alloc, names, notes, heads, select, outputs)
    } else {
        let values = row_outputs(alloc, names, notes, outputs)?;
        rows_of(alloc, names, notes, heads, select.order.as_slice(), values)
    }
}

/// What a SELECT makes of the rows that it keeps.
fn shape_of(
    alloc: Global,
    names: &Names<'_>,
    notes: &mut Notes,
    heads: &[(Text, Class)],
    select: &Select,
) -> Result<Shape, AllocError>
    ensures { IfOk result (λ shape. (notes.new, shape) ≡ spec.shape_of names.now heads.now select.now select.now.outputs notes.old) }
{
    match &select.outputs {
        Outputs::All => {
            if select.groups.len() != 0 {
                notes.blame(CheckFault::NoSuchName);
            }
            let values = all_columns(
                alloc,
                names.left_columns().len() + names.right_columns().len(),
            )?;
            rows_of(alloc, names, notes, heads, select.order.as_slice(), values)
        }
        Outputs::Listed(outputs) => {
            listed_shape(alloc, names, notes, heads, select, outputs.as_slice())
        }
    }
}

/// The names and the classes of the outputs.
pub fn heads_given(
    alloc: Global,
    names: &Names<'_>,
    outputs: &Outputs,
) -> Result<Items<(Text, Class)>, AllocError>
    ensures { IfOk result (λ heads. heads ≡ spec.heads_given names.now outputs.now) }
{
    match outputs {
        Outputs::All => all_heads(alloc, names.left_columns(), names.right_columns()),
        Outputs::Listed(outputs) => heads_of_outputs(alloc, names, outputs.as_slice()),
    }
}

/// Notes a join of tables on these partitioning columns that each partition can't make by itself. The
/// columns of the second table stand behind so many others.
fn distribute_by(
    notes: &mut Notes,
    left: Option<u8>,
    right: Option<u8>,
    before: usize,
    on: &Cond,
    filter: &Cond,
)
    requires { before ≤ 2 ^ 60 }
    ensures { notes.new ≡ spec.distributed_by left right before on.now filter.now notes.old }
{
    match (left, right) {
        (Some(left), Some(right)) => {
            if !tell_parts(left as usize, before + right as usize, on, filter) {
                notes.blame(CheckFault::NotDistributable);
            }
        }
        _ => {}
    }
}

/// Notes a join of two partitioned tables that each partition can't make by itself.
fn distribute(notes: &mut Notes, from: &Sources<'_>, on: &Cond, filter: &Cond)
    ensures { notes.new ≡ spec.distributed (sources.seen_sources from.now) on.now filter.now notes.old }
{
    let table = from.left.named.table;
    let before = table.columns.as_slice().len();
    distribute_by(notes, table.part, from.right_part(), before, on, filter);
}

fn join_of(right: Option<Source<'_>>, on: Cond) -> Option<JoinPlan>
    ensures { result ≡ spec.join_of (sources.seen_right right.entry) on }
{
    match right {
        Some(source) => Some(JoinPlan {
            table: source.number,
            on,
        }),
        None => None,
    }
}

/// ON, which is true where it isn't written.
fn on_condition(
    alloc: Global,
    names: &Names<'_>,
    notes: &mut Notes,
    select: &Select,
) -> Result<Cond, AllocError>
    ensures { IfOk result (λ on. (notes.new, on) ≡ filtered names.now (sources.on_of select.now.second) notes.old) }
{
    match on_of(&select.second) {
        Some(e) => condition(alloc, names, notes, e),
        None => Ok(Cond::And(Items::new(alloc))),
    }
}

fn selected(
    alloc: Global,
    notes: &mut Notes,
    from: &Sources<'_>,
    names: &Names<'_>,
    heads: &[(Text, Class)],
    select: &Select,
) -> Result<Action, AllocError>
    ensures { IfOk result (λ action. (notes.new, action) ≡ spec.selected names.now (sources.seen_sources from.now) heads.now select.now notes.old) }
{
    let shape = shape_of(alloc, names, notes, heads, select)?;
    let on = on_condition(alloc, names, notes, select)?;
    let filter = filtered(alloc, names, notes, &select.filter)?;
    let limit = limited_to(names, notes, &select.limit)?;
    distribute(notes, from, &on, &filter);
    Ok(Action::Select(SelectPlan {
        left: from.left.number,
        right: join_of(from.right, on),
        filter,
        shape,
        limit,
    }))
}

pub(crate) fn examine_select(
    alloc: Global,
    catalog: &Catalog,
    program: Option<&Bound>,
    select: &Select,
    single: bool,
) -> Result<Option<Examined>, AllocError>
    ensures { IfOk result (λ found. found ≡ spec.examined_select catalog.now (bound_in program.entry) select.now single) }
{
    let Some(from) = find_sources(catalog, select) else {
        return Ok(None);
    };
    let names = from.names().in_program(program);
    let mut notes = Notes::new(alloc);
    let heads = heads_given(alloc, &names, &select.outputs)?;
    let action = selected(alloc, &mut notes, &from, &names, heads.as_slice(), select)?;
    let partitioned = from.names_partitioned();
    Ok(Some(finish(&names, single, partitioned, heads, notes, action)))
}
