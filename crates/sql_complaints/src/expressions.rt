//! What is wrong in an expression.

ghost use Rattle.std.specs.Prelude.{◌≡◌, flat_map, is_some, OnOk, IfOk};
ghost use Rattle.sql_complaints.specs.Complaints.{all_noted};
ghost use Rattle.sql_complaints.specs.Expressions as spec;

use crate::complaints::{About, Part, Search, Wanted};
use expr_parse::{ColumnName, Expr};
use sql_resolve::{
    FoundColumn, Given, Names, Sort, common_among, common_of_three, common_of_two, sort_of,
};
use std::alloc::{AllocError, Global};
use volt_value::{Class, Text};

/// A copy of a text.
pub fn copy(alloc: Global, text: &Text) -> Result<Text, AllocError>
    ensures { IfOk result (λ made. made ≡ text.now) }
{
    Text::of(alloc, text.as_str())
}

/// A copy of the name of a column.
pub fn copy_name(alloc: Global, name: &ColumnName) -> Result<ColumnName, AllocError>
    ensures { IfOk result (λ made. made ≡ name.now) }
{
    let table = match &name.table {
        Some(table) => Some(copy(alloc, table)?),
        None => None,
    };
    Ok(ColumnName {
        table,
        column: copy(alloc, &name.column)?,
    })
}

/// A name that stands for this column.
pub fn read_column(
    alloc: Global,
    search: &mut Search,
    part: Part,
    name: &ColumnName,
    found: Option<FoundColumn>,
) -> Result<(), AllocError>
    ensures { OnOk result (search.new ≡ all_noted search.old (spec.if_found part name.now found)) }
{
    if found.is_none() {
        search.note(part, About::NoColumn(copy_name(alloc, name)?));
    }
    Ok(())
}

/// A name of a program that has no columns.
pub fn read_name(
    alloc: Global,
    search: &mut Search,
    part: Part,
    name: &Text,
    value: Given,
) -> Result<(), AllocError>
    ensures { OnOk result (search.new ≡ all_noted search.old (spec.if_given part (About.Unbound name.now) (About.Unbound name.now) value)) }
{
    match value {
        Given::Value(_, _) => {}
        _ => search.note(part, About::Unbound(copy(alloc, name)?)),
    }
    Ok(())
}

/// A column of what a name of a program stands for.
fn read_field(
    alloc: Global,
    search: &mut Search,
    part: Part,
    name: &Text,
    column: &Text,
    value: Given,
) -> Result<(), AllocError>
    ensures { OnOk result (search.new ≡ all_noted search.old (spec.if_given part (About.Unbound name.now) (About.NoField name.now column.now) value)) }
{
    match value {
        Given::Value(_, _) => {}
        Given::Unbound => search.note(part, About::Unbound(copy(alloc, name)?)),
        Given::NoColumn => {
            let name = copy(alloc, name)?;
            let column = copy(alloc, column)?;
            search.note(part, About::NoField { name, column });
        }
    }
    Ok(())
}

/// A `?`, which stands for nothing in a program.
pub fn read_question(names: &Names<'_>, search: &mut Search, part: Part)
    ensures { search.new ≡ all_noted search.old (spec.question part (is_some names.now.program)).inner }
{
    if names.has_program() {
        search.note(part, About::Question);
    }
}

/// An expression by itself, where something is wanted.
pub fn read_own(names: &Names<'_>, search: &mut Search, part: Part, e: &Expr, wanted: Wanted)
    ensures { search.new ≡ all_noted search.old ((spec.read part names.now e.now).own wanted) }
{
    match e {
        Expr::Parenthesized(inner) => read_own(names, search, part, inner.get(), wanted),
        Expr::Parameter if names.has_program() => {
            if wanted == Wanted::Alone {
                search.fit(part, wanted, Sort::Open);
            }
        }
        _ => search.fit(part, wanted, sort_of(names, e)),
    }
}

/// A name or a `?`.
fn read_leaf(
    alloc: Global,
    names: &Names<'_>,
    search: &mut Search,
    part: Part,
    e: &Expr,
) -> Result<(), AllocError>
    ensures { OnOk result (search.new ≡ all_noted search.old (spec.read part names.now e.now).leaf) }
{
    match e {
        Expr::Parameter => {
            read_question(names, search, part);
            Ok(())
        }
        Expr::Column(name) => read_column(alloc, search, part, name, names.column(name)),
        Expr::Variable(name) => read_name(alloc, search, part, name, names.variable(name)),
        Expr::Rows(name) => read_name(alloc, search, part, name, names.rows(name)),
        Expr::RowColumn { row, column } => {
            let value = names.row_column(row, column);
            read_field(alloc, search, part, row, column, value)
        }
        Expr::First {
            result: made,
            column,
        } => {
            let value = names.first(made, column);
            read_field(alloc, search, part, made, column, value)
        }
        _ => Ok(()),
    }
}

/// Expressions, where values of one class are wanted.
#[cycle(read)]
fn read_all(
    alloc: Global,
    names: &Names<'_>,
    search: &mut Search,
    part: Part,
    items: &[Expr],
    class: Class,
) -> Result<(), AllocError>
    ensures { OnOk result (search.new ≡ all_noted search.old (flat_map (spec.complaints part names.now (Wanted.Value class)) items.now)) }
{
    for item in items {
        read(alloc, names, search, part, item, Wanted::Value(class))?;
    }
    Ok(())
}

/// A comparison.
#[cycle(read)]
fn read_test(
    alloc: Global,
    names: &Names<'_>,
    search: &mut Search,
    part: Part,
    e: &Expr,
) -> Result<(), AllocError>
    ensures { OnOk result (search.new ≡ all_noted search.old (spec.read part names.now e.now).test) }
{
    match e {
        Expr::Compare(_, a, b) => {
            let wanted = Wanted::Value(common_of_two(names, a.get(), b.get()));
            read(alloc, names, search, part, a.get(), wanted)?;
            read(alloc, names, search, part, b.get(), wanted)
        }
        Expr::Between {
            value,
            low,
            high,
            ..
        } => {
            let class = common_of_three(names, value.get(), low.get(), high.get());
            read(
                alloc,
                names,
                search,
                part,
                value.get(),
                Wanted::Value(class),
            )?;
            read(alloc, names, search, part, low.get(), Wanted::Value(class))?;
            read(alloc, names, search, part, high.get(), Wanted::Value(class))
        }
        Expr::In { value, items, .. } => {
            let class = common_among(names, value.get(), items.as_slice());
            read(
                alloc,
                names,
                search,
                part,
                value.get(),
                Wanted::Value(class),
            )?;
            read_all(alloc, names, search, part, items.as_slice(), class)
        }
        _ => Ok(()),
    }
}

/// What stands in an expression.
#[cycle(read)]
#[tactic(auto, using(crate::proofs::SearchLemmas::all_noted_append))]
fn read_inner(
    alloc: Global,
    names: &Names<'_>,
    search: &mut Search,
    part: Part,
    e: &Expr,
) -> Result<(), AllocError>
    ensures { OnOk result (search.new ≡ all_noted search.old (spec.read part names.now e.now).inner) }
{
    let integer = Wanted::Value(Class::Int);
    match e {
        Expr::Parenthesized(x) => read_inner(alloc, names, search, part, x.get()),
        Expr::Negate(x) => read(alloc, names, search, part, x.get(), integer),
        Expr::Not(x) => read(alloc, names, search, part, x.get(), Wanted::Truth),
        Expr::IsNull { value, .. } => {
            read(alloc, names, search, part, value.get(), Wanted::Alone)
        }
        Expr::Calculate(_, a, b) => {
            read(alloc, names, search, part, a.get(), integer)?;
            read(alloc, names, search, part, b.get(), integer)
        }
        Expr::And(a, b) => {
            read(alloc, names, search, part, a.get(), Wanted::Truth)?;
            read(alloc, names, search, part, b.get(), Wanted::Truth)
        }
        Expr::Or(a, b) => {
            read(alloc, names, search, part, a.get(), Wanted::Truth)?;
            read(alloc, names, search, part, b.get(), Wanted::Truth)
        }
        Expr::Compare(_, _, _) | Expr::Between { .. } | Expr::In { .. } => {
            read_test(alloc, names, search, part, e)
        }
        _ => read_leaf(alloc, names, search, part, e),
    }
}

/// An expression, where something is wanted.
#[cycle(read)]
#[tactic(auto, using(crate::proofs::SearchLemmas::all_noted_append))]
pub fn read(
    alloc: Global,
    names: &Names<'_>,
    search: &mut Search,
    part: Part,
    e: &Expr,
    wanted: Wanted,
) -> Result<(), AllocError>
    ensures { OnOk result (search.new ≡ all_noted search.old (spec.complaints part names.now wanted e.now)) }
{
    read_own(names, search, part, e, wanted);
    read_inner(alloc, names, search, part, e)
}
