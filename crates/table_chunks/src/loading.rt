//! Rows put into tables.

ghost use Rattle.std.specs.Prelude.{◌≡◌, ◌+◌, ◌<◌, ◌≤◌, [], ◌∷◌, ◌++◌, true, false, Ok, map, length, take, IfOk, OnErr};
ghost use Rattle.table_rows.specs.Table.{inserted};
ghost use Rattle.table_store.specs.Steps.{table_at, with_table, changed, history};
ghost use Rattle.table_chunks.specs.Loading.{can_put, can_load, can_load_into, loaded_into};

use row_codec::RowFault;
use std::alloc::AllocError;
use table_store::Tables;
use volt_value::Value;

/// Puts a row into a table, and answers whether it can stand there.
fn put_row(tables: &mut Tables, number: u16, row: &[Value]) -> Result<bool, AllocError>
    requires { number < length tables.old.now }
    ensures can { IfOk result (λ can. can ≡ can_put (table_at tables.old.now number) row.now) }
    ensures put { result ≡ Ok true → tables.new
        ≡ changed tables.old (with_table tables.old.now number (inserted (table_at tables.old.now number) row.now)) }
    ensures same { result ≡ Ok false → tables.new ≡ tables.old }
    ensures kept { OnErr result (tables.new ≡ tables.old) }
{
    if row.len() != tables.table(number).layout().fields().len() {
        return Ok(false);
    }
    match tables.insert(number, row) {
        Ok(()) => Ok(true),
        Err(RowFault::NoMemory) => Err(AllocError),
        Err(_) => Ok(false),
    }
}

/// Puts rows into a table up to the first that can't stand there, and answers whether there is none.
fn put_rows(tables: &mut Tables, number: u16, rows: &[Vec<Value>]) -> Result<bool, AllocError>
    requires { number < length tables.old.now }
    ensures can { IfOk result (λ can. can
        ≡ can_load (table_at tables.old.now number) (map (λ row. row.items) rows.now)) }
    ensures put { result ≡ Ok true → tables.new.now
        ≡ loaded_into tables.old.now number (map (λ row. row.items) rows.now) }
    ensures past { history tables.old ≡ take (length tables.old.past + 1) (history tables.new) }
{
    let mut left = rows;
    while let Some((row, rest)) = left.split_first() {
        if !put_row(tables, number, row.as_slice())? {
            return Ok(false);
        }
        left = rest;
    }
    Ok(true)
}

/// Puts rows into the table of a number, and answers whether all of them can stand there. They are
/// refused where there is no such table, or a row has another number of values than the table has
/// columns, a value that doesn't fit its column, or the values of another in a key; then the tables are
/// as they were. Out of memory some rows may be in, and `roll_back` takes them out.
///
/// It is called where no change can be undone, and forgets what undoes its own.
pub fn load(tables: &mut Tables, number: u16, rows: &[Vec<Value>]) -> Result<bool, AllocError>
    requires { tables.old.past ≡ [] }
    ensures can { IfOk result (λ can. can ≡ can_load_into tables.old.now number (map (λ row. row.items) rows.now)) }
    ensures loaded { result ≡ Ok true → tables.new
        ≡ record { now = loaded_into tables.old.now number (map (λ row. row.items) rows.now); past = [] } }
    ensures kept { result ≡ Ok false → tables.new ≡ tables.old }
    ensures back { OnErr result (take 1 (history tables.new) ≡ tables.old.now ∷ []) }
{
    if number as usize >= tables.len() {
        return Ok(false);
    }
    let mark = tables.begin_undo();
    let done = put_rows(tables, number, rows)?;
    if done {
        tables.release(mark);
    } else {
        tables.roll_back(mark)?;
    }
    Ok(done)
}
