//! Checked statements.

ghost use Rattle.std.specs.Prelude.{◌≡◌};
ghost use Rattle.sql_plan.specs.Prepared as prepared;

use crate::expression::{Cond, Scalar};
use crate::select::SelectPlan;
use sqlite_items::Items;
use volt_value::{Class, Text, Value};

/// A statement that was checked against a catalog. Tables, columns and parameters stand in it by
/// their numbers, each counted from 0, and all values of an expression are of the classes that it
/// takes.
#[derive(Debug, Drop)]
pub struct Prepared {
    /// Where it runs.
    pub scope: Scope,
    /// The class of each parameter. Of a plain statement these are its `?` from left to right. Of
    /// a statement in a program they are the places that take a value of the program, from left to
    /// right.
    pub params: Items<Class>,
    /// The name and the class of each column of the rows that it gives. What changes a table gives
    /// one row, with the column `modified_tuples`.
    pub columns: Items<(Text, Class)>,
    /// What it does.
    pub action: Action,
}

/// Which rows a statement reads and changes.
#[derive(Clone, Copy, Debug, PartialEq, Eq)]
pub enum Scope {
    /// Those of one partition, and those that all partitions have. So is each statement of a
    /// procedure that runs on one partition.
    OnePartition,
    /// Those of all partitions.
    AllPartitions,
    /// Those that all partitions have: it names no partitioned table.
    Replicated,
}

/// What a statement does.
#[derive(Debug, Drop)]
pub enum Action {
    Insert(InsertPlan),
    Update(UpdatePlan),
    Delete(DeletePlan),
    Select(SelectPlan),
}

/// An INSERT of one row.
#[derive(Debug, Drop)]
pub struct InsertPlan {
    /// The table's number.
    pub table: u16,
    /// The value of each of the table's columns in their order, over no row. A column that the
    /// statement doesn't name is NULL.
    pub values: Items<Scalar>,
}

/// An UPDATE.
#[derive(Debug, Drop)]
pub struct UpdatePlan {
    /// The table's number.
    pub table: u16,
    /// The new value of each of the table's columns in their order, over the old row. A column that
    /// SET doesn't name is itself, and so is each column of the primary key.
    pub values: Items<Scalar>,
    /// WHERE, over the old row: the AND of none where it isn't written.
    pub filter: Cond,
}

/// A DELETE.
#[derive(Debug, Drop)]
pub struct DeletePlan {
    /// The table's number.
    pub table: u16,
    /// WHERE, over the row: the AND of none where it isn't written.
    pub filter: Cond,
}

impl Prepared {
    /// Where it runs.
    pub fn scope(&self) -> Scope
        ensures { result ≡ self.now.scope }
    {
        self.scope
    }

    /// The class of each parameter.
    pub fn params(&self) -> &[Class]
        ensures { result.now ≡ self.now.params }
    {
        self.params.as_slice()
    }

    /// The name and the class of each column of the rows that it gives.
    pub fn columns(&self) -> &[(Text, Class)]
        ensures { result.now ≡ self.now.columns }
    {
        self.columns.as_slice()
    }

    /// The number of the table that it changes, where it changes one.
    pub fn written(&self) -> Option<u16>
        ensures { result ≡ prepared.written_by self.now.action }
    {
        match &self.action {
            Action::Insert(insert) => Some(insert.table),
            Action::Update(update) => Some(update.table),
            Action::Delete(delete) => Some(delete.table),
            Action::Select(_) => None,
        }
    }

    /// Whether it changes a table.
    pub fn writes(&self) -> bool
        ensures { result ≡ prepared.writes self.now }
    {
        self.written().is_some()
    }
}

/// Whether a value is NULL or of a class.
pub fn has_class(value: &Value, class: Class) -> bool
    ensures { result ≡ prepared.has_class value.now class }
{
    match (value, class) {
        (Value::Null, _) => true,
        (Value::Int(_), Class::Int) => true,
        (Value::Text(_), Class::Text) => true,
        _ => false,
    }
}

/// Whether values are arguments for parameters of these classes: as many, each NULL or of its class.
pub fn are_arguments(values: &[Value], classes: &[Class]) -> bool
    ensures { result ≡ prepared.are_arguments values.now classes.now }
{
    if values.len() != classes.len() {
        return false;
    }
    for place in 0..values.len() {
        if !has_class(&values[place], classes[place]) {
            return false;
        }
    }
    true
}
