//! What is wrong in a SELECT.

ghost use Rattle.std.specs.Prelude.{◌≡◌, option_map, IfOk, OnOk};
ghost use Rattle.sql_check.specs.SelectStatement as shapes;
ghost use Rattle.sql_check.specs.Selects as selects;
ghost use Rattle.sql_complaints.specs.Complaints.{all_noted};
ghost use Rattle.sql_refusals.specs.Selects as spec;

use crate::writes::read_condition;
use sql_check::{
    column_written, group_place, have_aggregate, heads_given, known_as, on_of, order_by,
    second_name,
};
use sql_complaints::{
    About, Part, Search, Wanted, copy, copy_name, read, read_column, read_name, read_own,
    read_question,
};
use sql_parse::{
    Aggregate, ColumnName, Expr, Limit, Output, OutputValue, Outputs, Select, SortKey, TableName,
};
use sql_plan::OrderBy;
use sql_resolve::{Given, Names, Sort, is_same, table_named};
use sqlite_items::Items;
use std::alloc::{AllocError, Global};
use volt_catalog::Catalog;
use volt_value::{Class, Text};

/// An output that is this column, where it has this place in GROUP BY.
fn read_grouped(
    alloc: Global,
    names: &Names<'_>,
    search: &mut Search,
    name: &ColumnName,
    place: Option<usize>,
) -> Result<(), AllocError>
    ensures { OnOk result (search.new ≡ all_noted search.old (spec.if_grouped names.now name.now place)) }
{
    if place.is_none() {
        let copied = copy_name(alloc, name)?;
        match names.column(name) {
            Some(_) => search.note(Part::Outputs, About::NotGrouped(copied)),
            None => search.note(Part::Outputs, About::NoColumn(copied)),
        }
    }
    Ok(())
}

/// An output that is an expression, beside groups.
#[tactic(auto, using(sql_complaints::proofs::SearchLemmas::all_noted_append))]
fn read_grouped_expr(
    alloc: Global,
    names: &Names<'_>,
    search: &mut Search,
    by: &[usize],
    e: &Expr,
) -> Result<(), AllocError>
    ensures { OnOk result (search.new ≡ all_noted search.old (spec.grouped_expr names.now by.now e.now (selects.column_written e.now))) }
{
    match column_written(e) {
        Some(name) => read_grouped(
            alloc,
            names,
            search,
            name,
            group_place(by, names.column(name)),
        ),
        None => {
            search.note(Part::Outputs, About::NoAggregate);
            read(alloc, names, search, Part::Outputs, e, Wanted::Alone)
        }
    }
}

/// An aggregate of what an expression gives.
#[tactic(auto, using(sql_complaints::proofs::SearchLemmas::all_noted_append))]
fn read_aggregate(
    alloc: Global,
    names: &Names<'_>,
    search: &mut Search,
    kind: Aggregate,
    e: &Expr,
) -> Result<(), AllocError>
    ensures { OnOk result (search.new ≡ all_noted search.old (spec.aggregate names.now kind e.now)) }
{
    match kind {
        Aggregate::Sum => {
            read_own(names, search, Part::Outputs, e, Wanted::Alone);
            read(
                alloc,
                names,
                search,
                Part::Outputs,
                e,
                Wanted::Value(Class::Int),
            )
        }
        _ => read(alloc, names, search, Part::Outputs, e, Wanted::Alone),
    }
}

/// An output.
fn read_output(
    alloc: Global,
    names: &Names<'_>,
    search: &mut Search,
    grouped: bool,
    by: &[usize],
    value: &OutputValue,
) -> Result<(), AllocError>
    ensures { OnOk result (search.new ≡ all_noted search.old (spec.output names.now grouped by.now value.now)) }
{
    match value {
        OutputValue::Expr(e) => {
            if grouped {
                read_grouped_expr(alloc, names, search, by, e)
            } else {
                read(alloc, names, search, Part::Outputs, e, Wanted::Alone)
            }
        }
        OutputValue::CountRows => Ok(()),
        OutputValue::Aggregate(kind, e) => read_aggregate(alloc, names, search, *kind, e),
    }
}

/// The numbers of the columns of GROUP BY.
fn grouped_by(
    alloc: Global,
    names: &Names<'_>,
    columns: &[ColumnName],
) -> Result<Items<usize>, AllocError>
    ensures { IfOk result (λ by. by ≡ spec.grouped_by names.now columns.now) }
{
    let mut by = Items::new(alloc);
    for name in columns {
        if let Some(column) = names.column(name) {
            by.push(column.number)?;
        }
    }
    Ok(by)
}

/// Outputs.
fn read_listed(
    alloc: Global,
    names: &Names<'_>,
    search: &mut Search,
    grouped: bool,
    by: &[usize],
    outputs: &[Output],
) -> Result<(), AllocError>
    ensures { OnOk result (search.new ≡ all_noted search.old (spec.listed names.now grouped by.now outputs.now)) }
{
    for output in outputs {
        read_output(alloc, names, search, grouped, by, &output.value)?;
    }
    Ok(())
}

/// Whether a SELECT of these outputs has groups.
fn has_groups(select: &Select, outputs: &[Output]) -> bool
    ensures { result ≡ shapes.has_groups select.now outputs.now }
{
    select.groups.len() != 0 || have_aggregate(outputs)
}

/// The outputs of a SELECT that lists them.
fn read_outputs_of(
    alloc: Global,
    names: &Names<'_>,
    search: &mut Search,
    select: &Select,
    outputs: &[Output],
) -> Result<(), AllocError>
    ensures { OnOk result (search.new ≡ all_noted search.old (spec.listed names.now (shapes.has_groups select.now outputs.now) (spec.grouped_by names.now select.now.groups) outputs.now)) }
{
    let by = grouped_by(alloc, names, select.groups.as_slice())?;
    let grouped = has_groups(select, outputs);
    read_listed(alloc, names, search, grouped, by.as_slice(), outputs)
}

/// The outputs of a SELECT.
fn read_outputs(
    alloc: Global,
    names: &Names<'_>,
    search: &mut Search,
    select: &Select,
) -> Result<(), AllocError>
    ensures { OnOk result (search.new ≡ all_noted search.old (spec.outputs names.now select.now select.now.outputs)) }
{
    match &select.outputs {
        Outputs::All => {
            if select.groups.len() != 0 {
                search.note(Part::Outputs, About::AllGrouped);
            }
            Ok(())
        }
        Outputs::Listed(outputs) => {
            read_outputs_of(alloc, names, search, select, outputs.as_slice())
        }
    }
}

/// GROUP BY.
fn read_groups(
    alloc: Global,
    names: &Names<'_>,
    search: &mut Search,
    columns: &[ColumnName],
) -> Result<(), AllocError>
    ensures { OnOk result (search.new ≡ all_noted search.old (spec.groups names.now columns.now)) }
{
    for name in columns {
        read_column(alloc, search, Part::GroupBy, name, names.column(name))?;
    }
    Ok(())
}

/// Whether ORDER BY may name outputs alone.
fn orders_outputs(select: &Select) -> bool
    ensures { result ≡ spec.orders_outputs select.now select.now.outputs }
{
    match &select.outputs {
        Outputs::All => false,
        Outputs::Listed(outputs) => has_groups(select, outputs.as_slice()),
    }
}

/// A name in ORDER BY that stands for this.
fn read_order(
    alloc: Global,
    search: &mut Search,
    name: &ColumnName,
    by: Option<OrderBy>,
) -> Result<(), AllocError>
    ensures { OnOk result (search.new ≡ all_noted search.old (spec.if_ordered name.now by)) }
{
    if by.is_none() {
        search.note(Part::OrderBy, About::NoOrder(copy_name(alloc, name)?));
    }
    Ok(())
}

/// ORDER BY.
fn read_orders(
    alloc: Global,
    names: &Names<'_>,
    search: &mut Search,
    heads: &[(Text, Class)],
    grouped: bool,
    keys: &[SortKey],
) -> Result<(), AllocError>
    ensures { OnOk result (search.new ≡ all_noted search.old (spec.orders names.now heads.now grouped keys.now)) }
{
    for key in keys {
        let by = order_by(names, heads, grouped, &key.column);
        read_order(alloc, search, &key.column, by)?;
    }
    Ok(())
}

/// `:name`, where an integer is wanted.
#[tactic(auto, using(sql_complaints::proofs::SearchLemmas::all_noted_append))]
fn read_variable(
    alloc: Global,
    names: &Names<'_>,
    search: &mut Search,
    part: Part,
    name: &Text,
) -> Result<(), AllocError>
    ensures { OnOk result (search.new ≡ all_noted search.old (spec.variable part names.now name.now)) }
{
    let value = names.variable(name);
    if let Given::Value(_, class) = value {
        search.fit(part, Wanted::Value(Class::Int), Sort::Value(class));
    }
    read_name(alloc, search, part, name, value)
}

/// LIMIT.
fn read_limit(
    alloc: Global,
    names: &Names<'_>,
    search: &mut Search,
    limit: &Option<Limit>,
) -> Result<(), AllocError>
    ensures { OnOk result (search.new ≡ all_noted search.old (spec.limit names.now limit.now)) }
{
    match limit {
        Some(Limit::Parameter) => {
            read_question(names, search, Part::Limit);
            Ok(())
        }
        Some(Limit::Variable(name)) => read_variable(alloc, names, search, Part::Limit, name),
        _ => Ok(()),
    }
}

/// A SELECT from tables with these columns.
#[tactic(auto, using(sql_complaints::proofs::SearchLemmas::all_noted_append))]
pub(crate) fn read_select(
    alloc: Global,
    names: &Names<'_>,
    search: &mut Search,
    select: &Select,
) -> Result<(), AllocError>
    ensures { OnOk result (search.new ≡ all_noted search.old (spec.select names.now select.now)) }
{
    read_outputs(alloc, names, search, select)?;
    read_condition(alloc, names, search, Part::On, on_of(&select.second))?;
    read_condition(alloc, names, search, Part::Where, select.filter.as_ref())?;
    read_groups(alloc, names, search, select.groups.as_slice())?;
    let heads = heads_given(alloc, names, &select.outputs)?;
    let grouped = orders_outputs(select);
    read_orders(
        alloc,
        names,
        search,
        heads.as_slice(),
        grouped,
        select.order.as_slice(),
    )?;
    read_limit(alloc, names, search, &select.limit)
}

/// A table of a FROM.
fn read_table(
    alloc: Global,
    catalog: &Catalog,
    search: &mut Search,
    name: &Text,
) -> Result<(), AllocError>
    ensures { OnOk result (search.new ≡ all_noted search.old (spec.if_there catalog.now name.now)) }
{
    if table_named(catalog, name).is_none() {
        search.note(Part::Tables, About::NoTable(copy(alloc, name)?));
    }
    Ok(())
}

/// Whether the tables of a FROM go by different names.
fn read_both(
    alloc: Global,
    search: &mut Search,
    first: &TableName,
    second: &TableName,
) -> Result<(), AllocError>
    ensures { OnOk result (search.new ≡ all_noted search.old (spec.if_apart first.now second.now)) }
{
    let name = known_as(second);
    if is_same(known_as(first), name) {
        search.note(Part::Tables, About::SameName(copy(alloc, name)?));
    }
    Ok(())
}

/// The tables of a FROM.
#[tactic(auto, using(sql_complaints::proofs::SearchLemmas::all_noted_append))]
pub(crate) fn read_sources(
    alloc: Global,
    catalog: &Catalog,
    search: &mut Search,
    select: &Select,
) -> Result<(), AllocError>
    ensures { OnOk result (search.new ≡ all_noted search.old (spec.sources catalog.now select.now.first select.now.second)) }
{
    read_table(alloc, catalog, search, &select.first.table)?;
    match &select.second {
        None => Ok(()),
        Some(second) => {
            let second = second_name(second);
            read_table(alloc, catalog, search, &second.table)?;
            read_both(alloc, search, &select.first, second)
        }
    }
}
