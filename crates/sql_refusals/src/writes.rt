//! What is wrong in a statement that changes a table.

ghost use Rattle.std.specs.Prelude.{◌≡◌, [], drop, option_map, IfOk, OnOk};
ghost use Rattle.sql_check.specs.Columns.{is_among};
ghost use Rattle.sql_complaints.specs.Complaints.{all_noted};
ghost use Rattle.sql_refusals.specs.Writes as spec;

use expr_parse::Expr;
use sql_check::place_of;
use sql_complaints::{About, Part, Search, Wanted, copy, read};
use sql_parse::{Assignment, Insert, Update};
use sql_resolve::{Names, class_at, number_of};
use sqlite_items::Items;
use std::alloc::{AllocError, Global};
use volt_catalog::{Column, Table};
use volt_value::{Class, Text};

/// A name that stands for this column.
fn read_target(
    alloc: Global,
    search: &mut Search,
    part: Part,
    columns: &[Column],
    name: &Text,
    place: Option<usize>,
) -> Result<(), AllocError>
    ensures { OnOk result (search.new ≡ all_noted search.old (spec.target part columns.now name.now place)) }
{
    if place.is_none() {
        let copied = copy(alloc, name)?;
        match number_of(columns, name) {
            Some(_) => search.note(part, About::Twice(copied)),
            None => search.note(part, About::NoTarget(copied)),
        }
    }
    Ok(())
}

/// A column behind those that were named before, where it is one.
fn add_place(earlier: &mut Items<usize>, place: Option<usize>) -> Result<(), AllocError>
    ensures { OnOk result (earlier.new ≡ spec.with_place earlier.old place) }
{
    if let Some(number) = place {
        earlier.push(number)?;
    }
    Ok(())
}

/// The names of an INSERT, and the columns that they stand for.
fn read_targets(
    alloc: Global,
    search: &mut Search,
    columns: &[Column],
    names: &[Text],
) -> Result<Items<usize>, AllocError>
    ensures read { OnOk result (search.new ≡ all_noted search.old (spec.targets columns.now [] names.now)) }
    ensures places { IfOk result (λ places. places ≡ spec.places columns.now [] names.now) }
{
    let mut places = Items::new(alloc);
    for name in names {
        let place = place_of(columns, places.as_slice(), name);
        read_target(alloc, search, Part::Columns, columns, name, place)?;
        add_place(&mut places, place)?;
    }
    Ok(places)
}

/// The class that a value must have for a column.
fn class_for(columns: &[Column], place: Option<usize>) -> Class
    ensures { result ≡ spec.class_for columns.now place }
{
    match place {
        Some(number) => class_at(columns, number),
        None => Class::Int,
    }
}

/// All but the first.
fn behind(places: &[usize]) -> &[usize]
    ensures { result.now ≡ drop 1 places.now }
{
    match places {
        [_, rest @ ..] => rest,
        [] => places,
    }
}

/// The values of an INSERT that names columns, each for its column.
fn read_values(
    alloc: Global,
    names: &Names<'_>,
    search: &mut Search,
    columns: &[Column],
    places: &[usize],
    values: &[Expr],
) -> Result<(), AllocError>
    ensures { OnOk result (search.new ≡ all_noted search.old (spec.values names.now columns.now places.now values.now)) }
{
    let mut ahead = places;
    for value in values {
        let wanted = Wanted::Value(class_for(columns, ahead.first().copied()));
        read(alloc, names, search, Part::Values, value, wanted)?;
        ahead = behind(ahead);
    }
    Ok(())
}

/// The values of an INSERT that names no columns, each for its column.
fn read_all_values(
    alloc: Global,
    names: &Names<'_>,
    search: &mut Search,
    columns: &[Column],
    values: &[Expr],
) -> Result<(), AllocError>
    ensures { OnOk result (search.new ≡ all_noted search.old (spec.values_from names.now columns.now 0 values.now)) }
{
    for place in 0..values.len() {
        let wanted = Wanted::Value(class_at(columns, place));
        read(alloc, names, search, Part::Values, &values[place], wanted)?;
    }
    Ok(())
}

/// So many columns and values.
fn read_counts(search: &mut Search, columns: usize, values: usize)
    ensures { search.new ≡ all_noted search.old (spec.counted columns values) }
{
    if columns != values {
        search.note(Part::Values, About::Counts { columns, values });
    }
}

/// An INSERT into a table.
#[tactic(auto, using(sql_complaints::proofs::SearchLemmas::all_noted_append))]
pub(crate) fn read_insert(
    alloc: Global,
    names: &Names<'_>,
    search: &mut Search,
    table: &Table,
    insert: &Insert,
) -> Result<(), AllocError>
    ensures { OnOk result (search.new ≡ all_noted search.old (spec.insert names.now table.now insert.now.values insert.now.columns)) }
{
    let columns = table.columns.as_slice();
    let values = insert.values.as_slice();
    match &insert.columns {
        None => {
            read_counts(search, columns.len(), values.len());
            read_all_values(alloc, names, search, columns, values)
        }
        Some(listed) => {
            let places = read_targets(alloc, search, columns, listed.as_slice())?;
            read_counts(search, places.len(), values.len());
            read_values(alloc, names, search, columns, places.as_slice(), values)
        }
    }
}

/// Whether a column is in a primary key.
fn is_key(key: &[u8], place: usize) -> bool
    ensures { result ≡ is_among key.now place }
{
    key.iter().any(|column| *column as usize == place)
}

/// A name in a SET that stands for this column.
fn read_key(
    alloc: Global,
    search: &mut Search,
    key: &[u8],
    name: &Text,
    place: Option<usize>,
) -> Result<(), AllocError>
    ensures { OnOk result (search.new ≡ all_noted search.old (spec.keyed key.now name.now place)) }
{
    match place {
        Some(place) if is_key(key, place) => {
            search.note(Part::Sets, About::KeyColumn(copy(alloc, name)?));
        }
        _ => {}
    }
    Ok(())
}

/// A part of a SET, whose name stands for this column.
#[tactic(auto, using(sql_complaints::proofs::SearchLemmas::all_noted_append))]
fn read_set(
    alloc: Global,
    names: &Names<'_>,
    search: &mut Search,
    table: &Table,
    set: &Assignment,
    place: Option<usize>,
) -> Result<(), AllocError>
    ensures { OnOk result (search.new ≡ all_noted search.old (spec.set_one names.now table.now set.now place)) }
{
    let columns = table.columns.as_slice();
    read_target(alloc, search, Part::Sets, columns, &set.column, place)?;
    read_key(alloc, search, table.key.as_slice(), &set.column, place)?;
    let wanted = Wanted::Value(class_for(columns, place));
    read(alloc, names, search, Part::Sets, &set.value, wanted)
}

/// A SET.
fn read_sets(
    alloc: Global,
    names: &Names<'_>,
    search: &mut Search,
    table: &Table,
    sets: &[Assignment],
) -> Result<(), AllocError>
    ensures { OnOk result (search.new ≡ all_noted search.old (spec.set_all names.now table.now [] sets.now)) }
{
    let mut earlier = Items::new(alloc);
    for set in sets {
        let place = place_of(table.columns.as_slice(), earlier.as_slice(), &set.column);
        read_set(alloc, names, search, table, set, place)?;
        add_place(&mut earlier, place)?;
    }
    Ok(())
}

/// A condition, where it is written.
pub(crate) fn read_condition(
    alloc: Global,
    names: &Names<'_>,
    search: &mut Search,
    part: Part,
    condition: Option<&Expr>,
) -> Result<(), AllocError>
    ensures { OnOk result (search.new ≡ all_noted search.old (spec.condition part names.now (option_map (λ e. e.now) condition.entry))) }
{
    match condition {
        Some(e) => read(alloc, names, search, part, e, Wanted::Truth),
        None => Ok(()),
    }
}

/// An UPDATE of a table.
#[tactic(auto, using(sql_complaints::proofs::SearchLemmas::all_noted_append))]
pub(crate) fn read_update(
    alloc: Global,
    names: &Names<'_>,
    search: &mut Search,
    table: &Table,
    update: &Update,
) -> Result<(), AllocError>
    ensures { OnOk result (search.new ≡ all_noted search.old (spec.update names.now table.now update.now)) }
{
    read_sets(alloc, names, search, table, update.sets.as_slice())?;
    read_condition(alloc, names, search, Part::Where, update.filter.as_ref())
}
