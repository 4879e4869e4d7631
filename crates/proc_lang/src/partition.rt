//! The partition on which a procedure runs.

ghost use Rattle.std.specs.Prelude.{◌≡◌, nat_abs, Ok, Err};
ghost use Rattle.sql_resolve.specs.Tables.{table_named};
ghost use Rattle.proc_lang.specs.Partition as spec;

use crate::draft::is_same_class;
use crate::fault::ProcFault;
use crate::parameters::MOST_PARAMETERS;
use ddl_parse::ProcPartition;
use sql_resolve::{class_at, number_of, table_named};
use volt_catalog::{Catalog, Table};
use volt_value::{Class, ColType};

/// Whether a parameter is there and of a class.
fn has_class(class: Class, kind: Option<ColType>) -> bool
    ensures { result ≡ spec.has_class class kind }
{
    match kind {
        Some(kind) => is_same_class(kind.class(), class),
        None => false,
    }
}

/// The parameter of a number, where it is there and of a class.
fn chosen_by(kinds: &[ColType], number: u64, class: Class) -> Option<u8>
    ensures { result ≡ spec.chosen_by kinds.now number class }
{
    if number >= MOST_PARAMETERS as u64 {
        return None;
    }
    if has_class(class, kinds.get(number as usize).copied()) {
        Some(number as u8)
    } else {
        None
    }
}

/// The numbers of a table, its partitioning column where it is this one, and a parameter.
fn on_part(
    number: u16,
    column: usize,
    part: Option<u8>,
    parameter: Option<u8>,
) -> Result<(u16, u8, u8), ProcFault>
    ensures { result ≡ spec.on_part number column part parameter }
{
    match (part, parameter) {
        (Some(part), Some(parameter)) if part as usize == column => Ok((number, part, parameter)),
        _ => Err(ProcFault::NotSinglePartition),
    }
}

/// The numbers of a table, its partitioning column and a parameter of the same class.
fn on_column(
    kinds: &[ColType],
    parameter: u64,
    number: u16,
    table: &Table,
    column: Option<usize>,
) -> Result<(u16, u8, u8), ProcFault>
    ensures { result ≡ spec.on_column kinds.now parameter number table.now column }
{
    let Some(column) = column else {
        return Err(ProcFault::no_such_name());
    };
    let class = class_at(table.columns.as_slice(), column);
    on_part(
        number,
        column,
        table.part,
        chosen_by(kinds, parameter, class),
    )
}

fn on_table(
    catalog: &Catalog,
    kinds: &[ColType],
    partition: &ProcPartition,
) -> Result<(u16, u8, u8), ProcFault>
    ensures { result ≡ spec.on_table kinds.now partition.now (table_named catalog.now partition.now.table) }
{
    let Some((number, table)) = table_named(catalog, &partition.table) else {
        return Err(ProcFault::no_such_name());
    };
    let column = number_of(table.columns.as_slice(), &partition.column);
    on_column(
        kinds,
        partition.parameter.unsigned_abs(),
        number,
        table,
        column,
    )
}

/// The numbers of a table, its partitioning column and the parameter that chooses the partition: `None`
/// where the procedure runs on all partitions.
pub(crate) fn partition_of(
    catalog: &Catalog,
    kinds: &[ColType],
    partition: &Option<ProcPartition>,
) -> Result<Option<(u16, u8, u8)>, ProcFault>
    ensures { result ≡ spec.partition_of catalog.now kinds.now partition.now }
{
    match partition {
        Some(partition) => Ok(Some(on_table(catalog, kinds, partition)?)),
        None => Ok(None),
    }
}
