ghost use Rattle.std.specs.Prelude.{◌≡◌, ◌<◌, [], ◌∷◌, length, IfOk};
ghost use Rattle.std.specs.List.{AllByRecursion};
ghost use Rattle.volt_value.specs.declared.value.Value.TheVariants.{Int};
ghost use Rattle.table_rows.specs.Spread.{AreTuples};

use crate::pairs::{digits, pairs};
use cow_scan::CowScan;
use row_codec::{RowFault, RowLayout};
use std::alloc::{AllocError, Global};
use std::test::*;
use table_chunks::laws::blocks_have_the_rows;
use table_chunks::*;
use table_rows::{Rows, TableRows};
use table_store::Tables;
use undo_log::Mark;
use volt_value::Value;

/// Tables, of which the only one is of pairs.
fn one_table(alloc: Global) -> Result<Tables, AllocError> {
    let mut tables = Vec::new(alloc);
    tables.push(pairs(alloc)?)?;
    Ok(Tables::of(alloc, tables))
}

/// A pair as a row.
fn pair(alloc: Global, a: i64, b: i64) -> Result<Vec<Value>, AllocError>
    ensures { IfOk result (λ row. row.items ≡ Int a ∷ Int b ∷ []) }
{
    let mut row = Vec::with_capacity(alloc, 2)?;
    row.push(Value::Int(a))?;
    row.push(Value::Int(b))?;
    Ok(row)
}

/// Loads two pairs into the table.
fn load_two(
    alloc: Global,
    tables: &mut Tables,
    first: (i64, i64),
    second: (i64, i64),
) -> Result<bool, AllocError> {
    let mut rows = Vec::new(alloc);
    rows.push(pair(alloc, first.0, first.1)?)?;
    rows.push(pair(alloc, second.0, second.1)?)?;
    tables.release(Mark::above(0));
    load(tables, 0, rows.as_slice())
}

/// The digits of the pairs, in order of their firsts.
fn numbers(alloc: Global, tables: &Tables) -> Result<i64, AllocError> {
    if tables.len() == 0 || tables.table(0).keys() == 0 {
        return Ok(-1);
    }
    digits(alloc, tables.table(0).range(0, None, None))
}

/// Rows are taken in any order, and none of them where one has the key of another.
#[test]
fn rows_are_loaded_together(rt: HostRuntime) -> Result<(), Fail> {
    let alloc = rt.alloc();
    let mut tables = one_table(alloc)?;
    assert!(rt; !load_two(alloc, &mut tables, (1, 5), (2, 5))?);
    assert_eq!(rt; numbers(alloc, &tables)?, 0);
    assert!(rt; load_two(alloc, &mut tables, (2, 5), (1, 6))?);
    assert_eq!(rt; numbers(alloc, &tables)?, 1625);
    Ok(())
}

/// A chunk of table 3 with one row of two values.
#[test]
fn chunks_have_their_rows(rt: HostRuntime) -> Result<(), Fail> {
    let alloc = rt.alloc();
    let mut rows = Vec::new(alloc);
    rows.push(pair(alloc, 1, 258)?)?;
    let mut bytes = Vec::new(alloc);
    write_chunk(3, rows.as_slice(), &mut bytes)?;
    let first = [0, 3, 0, 1, 2, 1, 0, 0, 0, 0, 0, 0, 0, 1];
    let second = [1, 0, 0, 0, 0, 0, 0, 1, 2];
    assert_eq!(rt; bytes.len(), first.len() + second.len());
    assert!(rt; bytes.as_slice().starts_with(&first));
    assert!(rt; bytes.as_slice().ends_with(&second));
    Ok(())
}

/// A chunk is read, and neither a front of it nor more than it.
#[test]
fn chunks_are_read(rt: HostRuntime) -> Result<(), Fail> {
    let alloc = rt.alloc();
    let bytes = [0, 3, 0, 1, 2, 0, 1, 0, 0, 0, 0, 0, 0, 1, 2, 0];
    let mut found = (0, 0);
    if let Some((number, rows)) = read_chunk(alloc, &bytes[..15])? {
        found = (number, rows.len());
    }
    assert_eq!(rt; found, (3, 1));
    assert!(rt; read_chunk(alloc, &bytes[..14])?.is_none());
    assert!(rt; read_chunk(alloc, &bytes)?.is_none());
    Ok(())
}

/// Puts so many pairs in, in no order of their firsts.
fn fill(alloc: Global, table: &mut TableRows, count: i64) -> Result<(), RowFault> {
    for n in 0..count {
        let row = pair(alloc, n.wrapping_mul(37) % 101, n)?;
        if table.layout().fields().len() == row.len() {
            table.insert(row.as_slice())?;
        }
    }
    Ok(())
}

/// The next block of a scan as a chunk of table 0.
fn next_chunk(
    alloc: Global,
    layout: &RowLayout,
    scan: &mut CowScan,
) -> Result<Option<Vec<u8>>, AllocError>
    requires columns { length layout.now < 256 }
    requires tuples { AllByRecursion (λ block. AreTuples layout.now block.slots) scan.old }
    ensures { AllByRecursion (λ block. AreTuples layout.now block.slots) scan.new }
{
    match scan.next_block() {
        Some(block) => Ok(Some(chunk_of(alloc, 0, layout, &block)?)),
        None => Ok(None),
    }
}

/// The chunks of a scan of a table, at most 100.
fn chunks_of(alloc: Global, table: &mut TableRows) -> Result<Vec<Vec<u8>>, AllocError> {
    let mut scan = table.share()?;
    blocks_have_the_rows();
    let layout = table.layout();
    let mut chunks = Vec::new(alloc);
    if layout.fields().len() > 255 {
        return Ok(chunks);
    }
    for _ in 0..100u8 {
        let Some(chunk) = next_chunk(alloc, layout, &mut scan)? else {
            break;
        };
        chunks.push(chunk)?;
    }
    Ok(chunks)
}

/// Whether chunks can be read and loaded, one after another.
fn load_chunks(alloc: Global, tables: &mut Tables, chunks: &[Vec<u8>]) -> Result<bool, AllocError> {
    for i in 0..chunks.len() {
        tables.release(Mark::above(0));
        let Some((number, rows)) = read_chunk(alloc, chunks[i].as_slice())? else {
            return Ok(false);
        };
        if !load(tables, number, rows.as_slice())? {
            return Ok(false);
        }
    }
    Ok(true)
}

/// How many rows there are, and a sum in which their order counts.
fn summed(alloc: Global, rows: Rows<'_>) -> Result<(u32, i64), AllocError> {
    let mut count = 0u32;
    let mut sum = 0i64;
    for row in rows {
        if let [Value::Int(a), Value::Int(b)] = row.values(alloc)?.as_slice() {
            count = count.wrapping_add(1);
            sum = sum
                .wrapping_mul(31)
                .wrapping_add(a.wrapping_mul(7))
                .wrapping_add(*b);
        }
    }
    Ok((count, sum))
}

/// The sums by each of the two keys.
fn sums(alloc: Global, table: &TableRows) -> Result<[(u32, i64); 2], AllocError> {
    let mut sums = [(0, 0); 2];
    for key in 0..2 {
        if key < table.keys() {
            sums[key] = summed(alloc, table.range(key, None, None))?;
        }
    }
    Ok(sums)
}

/// How many chunks there are of a scan of 100 rows, of how many rows, and whether they were loaded and
/// give the same rows by each key.
fn loaded_again(alloc: Global) -> Result<(usize, u32, bool), RowFault> {
    let mut table = pairs(alloc)?;
    fill(alloc, &mut table, 100)?;
    let chunks = chunks_of(alloc, &mut table)?;
    let mut tables = one_table(alloc)?;
    let is_loaded = load_chunks(alloc, &mut tables, chunks.as_slice())?;
    if !is_loaded || tables.len() == 0 {
        return Ok((chunks.len(), 0, false));
    }
    let before = sums(alloc, &table)?;
    let after = sums(alloc, tables.table(0))?;
    Ok((chunks.len(), after[0].0, after == before))
}

#[test]
fn scans_are_loaded_again(rt: HostRuntime) -> Result<(), Fail> {
    assert_eq!(rt; loaded_again(rt.alloc()), Ok((2, 100, true)));
    Ok(())
}
