//! Statements that change a table.

ghost use Rattle.std.specs.Prelude.{◌≡◌, ◌≤◌, [], length, drop, slice_get, slice_set, IfOk, OnOk};
ghost use Rattle.sql_check.specs.Columns;
ghost use Rattle.sql_check.specs.Writes as spec;

use crate::columns::{all_columns, all_numbers, place_of};
use sql_parse::{Assignment, Delete, Expr, Insert, Update};
use sql_plan::{Action, Cond, DeletePlan, InsertPlan, Scalar, UpdatePlan};
use sql_resolve::{CheckFault, Names, Notes, class_at, condition, scalar};
use sqlite_items::Items;
use std::alloc::{AllocError, Global};
use volt_catalog::{Column, Table};
use volt_value::{Class, Text, Value};

/// The values of a row so far, and the columns that they were put into.
#[derive(Debug, Drop)]
pub struct NewRow {
    pub places: Items<usize>,
    pub values: Items<Scalar>,
}

/// A name of a column behind those that were named before.
fn add_place(
    notes: &mut Notes,
    columns: &[Column],
    places: &mut Items<usize>,
    name: &Text,
) -> Result<(), AllocError>
    ensures { OnOk result ((notes.new, places.new) ≡ spec.listed_one places.old (Columns.place_of columns.now places.old name.now) notes.old) }
{
    match place_of(columns, places.as_slice(), name) {
        Some(place) => places.push(place)?,
        None => notes.blame(CheckFault::NoSuchName),
    }
    Ok(())
}

/// The columns of these names.
fn listed(
    alloc: Global,
    notes: &mut Notes,
    columns: &[Column],
    names: &[Text],
) -> Result<Items<usize>, AllocError>
    ensures { IfOk result (λ places. (notes.new, places) ≡ spec.listed columns.now names.now [] notes.old) }
{
    let mut places = Items::new(alloc);
    for name in names {
        add_place(notes, columns, &mut places, name)?;
    }
    Ok(places)
}

/// The columns into which an INSERT puts values.
fn places_of(
    alloc: Global,
    notes: &mut Notes,
    columns: &[Column],
    names: &Option<Items<Text>>,
) -> Result<Items<usize>, AllocError>
    ensures { IfOk result (λ places. (notes.new, places) ≡ spec.places_of columns.now names.now notes.old) }
{
    match names {
        Some(names) => listed(alloc, notes, columns, names.as_slice()),
        None => all_numbers(alloc, columns.len()),
    }
}

/// A row of so many NULL.
#[tactic(auto, using(crate::proofs::RangeLemmas::nulls_more))]
fn nulls(alloc: Global, count: usize) -> Result<Items<Scalar>, AllocError>
    ensures { IfOk result (λ row. row ≡ spec.nulls count) }
{
    let mut row = Items::new(alloc);
    for _number in 0..count {
        row.push(Scalar::Literal(Value::Null))?;
    }
    Ok(row)
}

/// Puts a value into a column of a row that has it.
fn put(row: &mut Items<Scalar>, place: usize, value: Scalar)
    ensures { row.new ≡ slice_set row.old place value }
{
    if place < row.len() {
        row.set(place, value);
    }
}

/// A value that is put into no column.
fn unplaced(alloc: Global, names: &Names<'_>, notes: &mut Notes, e: &Expr) -> Result<(), AllocError>
    ensures { OnOk result (notes.new ≡ spec.unplaced names.now e.now notes.old) }
{
    let _value = scalar(alloc, names, notes, e, Class::Int)?;
    Ok(())
}

/// One value of an INSERT, for a column, where there is one for it.
#[tactic(auto, unfolding(crate::specs::Writes::filled_one))]
fn fill_one(
    alloc: Global,
    names: &Names<'_>,
    notes: &mut Notes,
    columns: &[Column],
    place: Option<usize>,
    e: &Expr,
    row: &mut Items<Scalar>,
) -> Result<(), AllocError>
    ensures { OnOk result ((notes.new, row.new) ≡ spec.filled_one names.now columns.now place e.now row.old notes.old) }
{
    match place {
        Some(place) => {
            let value = scalar(alloc, names, notes, e, class_at(columns, place))?;
            put(row, place, value);
        }
        None => unplaced(alloc, names, notes, e)?,
    }
    Ok(())
}

/// All but the first.
fn behind(places: &[usize]) -> &[usize]
    ensures { result.now ≡ drop 1 places.now }
{
    match places {
        [_, rest @ ..] => rest,
        [] => places,
    }
}

/// The values of an INSERT, each in its column.
fn filled(
    alloc: Global,
    names: &Names<'_>,
    notes: &mut Notes,
    columns: &[Column],
    places: &[usize],
    values: &[Expr],
    row: Items<Scalar>,
) -> Result<Items<Scalar>, AllocError>
    ensures { IfOk result (λ filled. (notes.new, filled) ≡ spec.filled names.now columns.now places.now values.now row notes.old) }
{
    let mut row = row;
    let mut ahead = places;
    for value in values {
        fill_one(
            alloc,
            names,
            notes,
            columns,
            ahead.first().copied(),
            value,
            &mut row,
        )?;
        ahead = behind(ahead);
    }
    Ok(row)
}

/// An INSERT into a table.
pub(crate) fn insert(
    alloc: Global,
    names: &Names<'_>,
    notes: &mut Notes,
    number: u16,
    table: &Table,
    insert: &Insert,
) -> Result<Action, AllocError>
    ensures { IfOk result (λ action. (notes.new, action) ≡ spec.inserted names.now number table.now insert.now notes.old) }
{
    let columns = table.columns.as_slice();
    let places = places_of(alloc, notes, columns, &insert.columns)?;
    if places.len() != insert.values.len() {
        notes.blame(CheckFault::TypeMismatch);
    }
    let row = nulls(alloc, columns.len())?;
    let values = filled(
        alloc,
        names,
        notes,
        columns,
        places.as_slice(),
        insert.values.as_slice(),
        row,
    )?;
    Ok(Action::Insert(InsertPlan {
        table: number,
        values,
    }))
}

/// Whether a column is in a primary key.
fn is_key(key: &[u8], place: usize) -> bool
    ensures { result ≡ Columns.is_among key.now place }
{
    key.iter().any(|column| *column as usize == place)
}

/// One part of a SET.
#[tactic(auto, unfolding(crate::specs::Writes::set_one))]
fn set_one(
    alloc: Global,
    names: &Names<'_>,
    notes: &mut Notes,
    table: &Table,
    assignment: &Assignment,
    row: &mut NewRow,
) -> Result<(), AllocError>
    ensures { OnOk result ((notes.new, row.new) ≡ spec.set_one names.now table.now assignment.now row.old notes.old) }
{
    let columns = table.columns.as_slice();
    match place_of(columns, row.places.as_slice(), &assignment.column) {
        Some(place) => {
            if is_key(table.key.as_slice(), place) {
                notes.blame(CheckFault::ChangesKey);
            }
            let class = class_at(columns, place);
            let value = scalar(alloc, names, notes, &assignment.value, class)?;
            row.places.push(place)?;
            put(&mut row.values, place, value);
        }
        None => {
            notes.blame(CheckFault::NoSuchName);
            unplaced(alloc, names, notes, &assignment.value)?;
        }
    }
    Ok(())
}

/// A SET.
fn set_all(
    alloc: Global,
    names: &Names<'_>,
    notes: &mut Notes,
    table: &Table,
    sets: &[Assignment],
    row: NewRow,
) -> Result<NewRow, AllocError>
    ensures { IfOk result (λ set. (notes.new, set) ≡ spec.set_all names.now table.now sets.now row notes.old) }
{
    let mut row = row;
    for assignment in sets {
        set_one(alloc, names, notes, table, assignment, &mut row)?;
    }
    Ok(row)
}

/// WHERE, which is true where it isn't written.
pub(crate) fn filtered(
    alloc: Global,
    names: &Names<'_>,
    notes: &mut Notes,
    filter: &Option<Expr>,
) -> Result<Cond, AllocError>
    ensures { IfOk result (λ condition. (notes.new, condition) ≡ spec.filtered names.now filter.now notes.old) }
{
    match filter {
        Some(e) => condition(alloc, names, notes, e),
        None => Ok(Cond::And(Items::new(alloc))),
    }
}

/// An UPDATE of a table.
pub(crate) fn update(
    alloc: Global,
    names: &Names<'_>,
    notes: &mut Notes,
    number: u16,
    table: &Table,
    update: &Update,
) -> Result<Action, AllocError>
    ensures { IfOk result (λ action. (notes.new, action) ≡ spec.updated names.now number table.now update.now notes.old) }
{
    let start = NewRow {
        places: Items::new(alloc),
        values: all_columns(alloc, table.columns.as_slice().len())?,
    };
    let row = set_all(alloc, names, notes, table, update.sets.as_slice(), start)?;
    let filter = filtered(alloc, names, notes, &update.filter)?;
    Ok(Action::Update(UpdatePlan {
        table: number,
        values: row.values,
        filter,
    }))
}

/// A DELETE from a table.
pub(crate) fn delete(
    alloc: Global,
    names: &Names<'_>,
    notes: &mut Notes,
    number: u16,
    delete: &Delete,
) -> Result<Action, AllocError>
    ensures { IfOk result (λ action. (notes.new, action) ≡ spec.deleted names.now number delete.now notes.old) }
{
    let filter = filtered(alloc, names, notes, &delete.filter)?;
    Ok(Action::Delete(DeletePlan {
        table: number,
        filter,
    }))
}
