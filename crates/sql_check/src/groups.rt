//! GROUP BY, and the outputs of a SELECT with groups.

ghost use Rattle.std.specs.Prelude.{◌≡◌, ◌==◌, [], position, IfOk, OnOk};
ghost use Rattle.sql_resolve.specs.Names.{column_of};
ghost use Rattle.sql_check.specs.Selects as spec;

use crate::outputs::column_written;
use sql_parse::{Aggregate, ColumnName, Expr, Output, OutputValue};
use sql_plan::{Aggregated, GroupOutput};
use sql_resolve::{CheckFault, FoundColumn, Names, Notes, alone, scalar, sort_of};
use sqlite_items::Items;
use std::alloc::{AllocError, Global};
use volt_value::Class;

/// The outputs of a SELECT with groups so far, and what they make of each group.
#[derive(Debug, Drop)]
pub struct Grouping {
    pub aggregates: Items<Aggregated>,
    pub outputs: Items<GroupOutput>,
}

/// A column of GROUP BY behind others.
fn group_one(
    notes: &mut Notes,
    by: &mut Items<usize>,
    column: Option<FoundColumn>,
) -> Result<(), AllocError>
    ensures { OnOk result ((notes.new, by.new) ≡ spec.group_one by.old column notes.old) }
{
    match column {
        Some(column) => by.push(column.number)?,
        None => notes.blame(CheckFault::NoSuchName),
    }
    Ok(())
}

/// The columns of GROUP BY.
pub(crate) fn group_columns(
    alloc: Global,
    names: &Names<'_>,
    notes: &mut Notes,
    columns: &[ColumnName],
) -> Result<Items<usize>, AllocError>
    ensures { IfOk result (λ by. (notes.new, by) ≡ spec.group_columns names.now columns.now [] notes.old) }
{
    let mut by = Items::new(alloc);
    for column in columns {
        group_one(notes, &mut by, names.column(column))?;
    }
    Ok(by)
}

/// The sum of what an expression gives.
fn sum_of(
    alloc: Global,
    names: &Names<'_>,
    notes: &mut Notes,
    e: &Expr,
) -> Result<Aggregated, AllocError>
    ensures { IfOk result (λ a. (notes.new, a) ≡ spec.aggregated names.now Aggregate.Sum e.now notes.old) }
{
    notes.note_alone(sort_of(names, e));
    Ok(Aggregated::Sum(scalar(alloc, names, notes, e, Class::Int)?))
}

/// An aggregate of what an expression gives.
fn aggregated(
    alloc: Global,
    names: &Names<'_>,
    notes: &mut Notes,
    kind: Aggregate,
    e: &Expr,
) -> Result<Aggregated, AllocError>
    ensures { IfOk result (λ a. (notes.new, a) ≡ spec.aggregated names.now kind e.now notes.old) }
{
    match kind {
        Aggregate::Count => Ok(Aggregated::Count(alone(alloc, names, notes, e)?)),
        Aggregate::Sum => sum_of(alloc, names, notes, e),
        Aggregate::Min => Ok(Aggregated::Min(alone(alloc, names, notes, e)?)),
        Aggregate::Max => Ok(Aggregated::Max(alone(alloc, names, notes, e)?)),
    }
}

/// The first place of a number.
fn place_in(numbers: &[usize], wanted: usize) -> Option<usize>
    ensures { result ≡ position (λ n. n == wanted) numbers.now }
{
    numbers.iter().position(|number| *number == wanted)
}

/// The place of a column in GROUP BY.
pub fn group_place(by: &[usize], column: Option<FoundColumn>) -> Option<usize>
    ensures { result ≡ spec.group_place by.now column }
{
    match column {
        Some(column) => place_in(by, column.number),
        None => None,
    }
}

impl Grouping {
    pub(crate) fn new(alloc: Global) -> Grouping
        ensures { result ≡ spec.no_outputs }
    {
        Grouping {
            aggregates: Items::new(alloc),
            outputs: Items::new(alloc),
        }
    }

    /// Adds a column of GROUP BY, where it is one.
    fn add_column(&mut self, notes: &mut Notes, place: Option<usize>) -> Result<(), AllocError>
        ensures { OnOk result ((notes.new, self.new) ≡ spec.with_group_column self.old place notes.old) }
    {
        match place {
            Some(place) => self.outputs.push(GroupOutput::Column(place))?,
            None => notes.blame(CheckFault::NoSuchName),
        }
        Ok(())
    }

    /// Adds an aggregate.
    fn add_aggregate(&mut self, aggregate: Aggregated) -> Result<(), AllocError>
        ensures { OnOk result (self.new ≡ spec.with_aggregate self.old aggregate) }
    {
        let place = self.aggregates.len();
        self.aggregates.push(aggregate)?;
        self.outputs.push(GroupOutput::Aggregate(place))?;
        Ok(())
    }

    /// Adds an expression, which is a column of GROUP BY or a fault.
    fn add_expr(
        &mut self,
        alloc: Global,
        names: &Names<'_>,
        notes: &mut Notes,
        by: &[usize],
        e: &Expr,
    ) -> Result<(), AllocError>
        ensures { OnOk result ((notes.new, self.new) ≡ spec.group_expr names.now by.now e.now (spec.column_written e.now) self.old notes.old) }
    {
        match column_written(e) {
            Some(name) => self.add_column(notes, group_place(by, names.column(name))),
            None => {
                notes.blame(CheckFault::TypeMismatch);
                alone(alloc, names, notes, e)?;
                Ok(())
            }
        }
    }

    /// Adds an output.
    fn add(
        &mut self,
        alloc: Global,
        names: &Names<'_>,
        notes: &mut Notes,
        by: &[usize],
        value: &OutputValue,
    ) -> Result<(), AllocError>
        ensures { OnOk result ((notes.new, self.new) ≡ spec.group_output names.now by.now value.now self.old notes.old) }
    {
        match value {
            OutputValue::Expr(e) => self.add_expr(alloc, names, notes, by, e),
            OutputValue::CountRows => self.add_aggregate(Aggregated::CountRows),
            OutputValue::Aggregate(kind, e) => {
                let aggregate = aggregated(alloc, names, notes, *kind, e)?;
                self.add_aggregate(aggregate)
            }
        }
    }
}

/// The outputs of a SELECT with groups.
pub(crate) fn group_outputs(
    alloc: Global,
    names: &Names<'_>,
    notes: &mut Notes,
    by: &[usize],
    outputs: &[Output],
) -> Result<Grouping, AllocError>
    ensures { IfOk result (λ g. (notes.new, g) ≡ spec.group_outputs names.now by.now outputs.now spec.no_outputs notes.old) }
{
    let mut grouping = Grouping::new(alloc);
    for output in outputs {
        grouping.add(alloc, names, notes, by, &output.value)?;
    }
    Ok(grouping)
}
