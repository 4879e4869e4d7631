//! The outputs of a SELECT, their names and their classes.

ghost use Rattle.std.specs.Prelude.{◌≡◌, ◌++◌, codes, decimal, option_map, IfOk};
ghost use Rattle.std.specs.List.{list_any};
ghost use Rattle.sql_check.specs.Selects as spec;

use sql_parse::{Aggregate, ColumnName, Expr, Output, OutputValue};
use sql_plan::Scalar;
use sql_resolve::{Names, Notes, alone, sort_of};
use sqlite_items::Items;
use std::alloc::{AllocError, Global};
use volt_catalog::Column;
use volt_value::{Class, Text};

/// The column that an expression is, in parentheses or not.
pub fn column_written(e: &Expr) -> Option<&ColumnName>
    ensures { option_map (λ name. name.now) result ≡ spec.column_written e.now }
{
    match e {
        Expr::Column(name) => Some(name),
        Expr::Parenthesized(inner) => column_written(inner.get()),
        _ => None,
    }
}

/// A name for an output that has none.
fn placed_name(alloc: Global, place: usize) -> Result<Text, AllocError>
    ensures { IfOk result (λ name. name ≡ codes "C" ++ decimal place) }
{
    let name = format!(in alloc; "C{place}")?;
    Text::of(alloc, name.as_str())
}

fn value_column(value: &OutputValue) -> Option<&ColumnName>
    ensures { option_map (λ name. name.now) result ≡ spec.value_column value.now }
{
    match value {
        OutputValue::Expr(e) => column_written(e),
        _ => None,
    }
}

/// The name of an output: as it is written, or that of its column, or by its place.
fn name_of(alloc: Global, place: usize, output: &Output) -> Result<Text, AllocError>
    ensures { IfOk result (λ name. name ≡ spec.name_of place output.now) }
{
    if let Some(name) = &output.name {
        return Text::of(alloc, name.as_str());
    }
    match value_column(&output.value) {
        Some(name) => Text::of(alloc, name.column.as_str()),
        None => placed_name(alloc, place),
    }
}

/// The class of an output.
fn class_given(names: &Names<'_>, value: &OutputValue) -> Class
    ensures { result ≡ spec.class_given names.now value.now }
{
    match value {
        OutputValue::Expr(e) => sort_of(names, e).own_class(),
        OutputValue::Aggregate(Aggregate::Min | Aggregate::Max, e) => sort_of(names, e).own_class(),
        _ => Class::Int,
    }
}

/// The names and the classes of outputs.
pub(crate) fn heads_of_outputs(
    alloc: Global,
    names: &Names<'_>,
    outputs: &[Output],
) -> Result<Items<(Text, Class)>, AllocError>
    ensures { IfOk result (λ heads. heads ≡ spec.heads_from names.now 1 outputs.now) }
{
    let mut heads = Items::new(alloc);
    for place in 0..outputs.len() {
        let output = &outputs[place];
        let name = name_of(alloc, place + 1, output)?;
        heads.push((name, class_given(names, &output.value)))?;
    }
    Ok(heads)
}

/// Adds the names and the classes of columns.
fn add_heads(
    alloc: Global,
    columns: &[Column],
    heads: Items<(Text, Class)>,
) -> Result<Items<(Text, Class)>, AllocError>
    ensures { IfOk result (λ all. all ≡ heads ++ spec.heads_of_columns columns.now) }
{
    let mut heads = heads;
    for column in columns {
        let name = Text::of(alloc, column.name.as_str())?;
        heads.push((name, column.kind.class()))?;
    }
    Ok(heads)
}

/// The names and the classes of all columns of the tables.
pub(crate) fn all_heads(
    alloc: Global,
    left: &[Column],
    right: &[Column],
) -> Result<Items<(Text, Class)>, AllocError>
    ensures { IfOk result (λ heads. heads ≡ spec.heads_of_columns left.now ++ spec.heads_of_columns right.now) }
{
    let heads = add_heads(alloc, left, Items::new(alloc))?;
    add_heads(alloc, right, heads)
}

/// An output of a SELECT without groups. An aggregate is none.
fn row_output(
    alloc: Global,
    names: &Names<'_>,
    notes: &mut Notes,
    value: &OutputValue,
) -> Result<Scalar, AllocError>
    ensures { IfOk result (λ x. (notes.new, x) ≡ spec.row_output names.now value.now notes.old) }
{
    match value {
        OutputValue::Expr(e) => alone(alloc, names, notes, e),
        _ => Ok(Scalar::Column(0)),
    }
}

/// The outputs of a SELECT without groups.
pub(crate) fn row_outputs(
    alloc: Global,
    names: &Names<'_>,
    notes: &mut Notes,
    outputs: &[Output],
) -> Result<Items<Scalar>, AllocError>
    ensures { IfOk result (λ xs. (notes.new, xs) ≡ spec.row_outputs names.now outputs.now notes.old) }
{
    let mut values = Items::new(alloc);
    for output in outputs {
        values.push(row_output(alloc, names, notes, &output.value)?)?;
    }
    Ok(values)
}

fn is_aggregate(value: &OutputValue) -> bool
    ensures { result ≡ spec.is_aggregate value.now }
{
    match value {
        OutputValue::Expr(_) => false,
        _ => true,
    }
}

/// Whether an output is an aggregate.
pub fn have_aggregate(outputs: &[Output]) -> bool
    ensures { result ≡ list_any (λ output. spec.is_aggregate output.value) outputs.now }
{
    outputs.iter().any(|output| is_aggregate(&output.value))
}
