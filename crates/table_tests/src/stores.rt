use crate::pairs::{digits, pairs};
use cow_scan::CowScan;
use row_codec::RowFault;
use std::alloc::{AllocError, Global};
use std::test::*;
use table_store::*;
use tuple_block::Block;
use undo_log::Mark;
use volt_index::key_of;
use volt_value::Value;

/// Two tables of pairs.
fn two_tables(alloc: Global) -> Result<Tables, AllocError> {
    let mut tables = Vec::new(alloc);
    tables.push(pairs(alloc)?)?;
    tables.push(pairs(alloc)?)?;
    Ok(Tables::of(alloc, tables))
}

/// Puts a pair into a table.
fn put(tables: &mut Tables, number: u16, a: i64, b: i64) -> Result<(), RowFault> {
    let row = [Value::Int(a), Value::Int(b)];
    if number as usize >= tables.len()
        || tables.table(number).layout().fields().len() != row.len()
    {
        return Err(RowFault::NoMemory);
    }
    tables.insert(number, &row)
}

/// Gives a pair another second.
fn change(tables: &mut Tables, number: u16, a: i64, b: i64) -> Result<bool, RowFault> {
    let row = [Value::Int(a), Value::Int(b)];
    if number as usize >= tables.len()
        || tables.table(number).layout().fields().len() != row.len()
    {
        return Err(RowFault::NoMemory);
    }
    let key = tables.table(number).key_of(&row)?;
    tables.update(number, &key, &row)
}

/// Takes the pair with this first out.
fn take(alloc: Global, tables: &mut Tables, number: u16, a: i64) -> Result<bool, AllocError> {
    let key = key_of(alloc, &[Value::Int(a)])?;
    if number as usize >= tables.len() {
        return Err(AllocError);
    }
    tables.delete(number, &key)
}

/// The pairs of a table in order of their firsts or of their seconds.
fn numbers(alloc: Global, tables: &Tables, number: u16, key: usize) -> Result<i64, AllocError> {
    if number as usize >= tables.len() || key >= tables.table(number).keys() {
        return Ok(-1);
    }
    digits(alloc, tables.table(number).range(key, None, None))
}

/// Puts pairs of these numbers into the first table, and takes the first of them out again.
fn fill(alloc: Global, tables: &mut Tables, end: i64, taken: i64) -> Result<(), RowFault> {
    for a in 1..end {
        put(tables, 0, a, a)?;
    }
    for a in 1..taken {
        let _held = take(alloc, tables, 0, a)?;
    }
    Ok(())
}

/// How many tuples of a block are held.
fn held_in(block: &Block) -> u32 {
    let mut count = 0u32;
    for i in 0..64u8 {
        if block.get(i).is_some() {
            count = count.saturating_add(1);
        }
    }
    count
}

/// More blocks than a table of these tests has.
const MOST_BLOCKS: u32 = 100;

/// How many blocks of scans hold tuples, and how many tuples.
fn counted(scans: Vec<CowScan>) -> (u32, u32) {
    let mut blocks = 0u32;
    let mut tuples = 0u32;
    for mut scan in scans {
        for _ in 0..MOST_BLOCKS {
            let Some(block) = scan.next_block() else {
                break
            };
            let held = held_in(&block);
            blocks = blocks.saturating_add(u32::from(held > 0));
            tuples = tuples.saturating_add(held);
        }
    }
    (blocks, tuples)
}

/// Of 130 rows the first 70 are deleted: the others stand in one block, and each key finds them.
#[test]
fn rows_stand_in_one_block_after_compact_all(rt: HostRuntime) -> Result<(), Fail> {
    let alloc = rt.alloc();
    let mut tables = two_tables(alloc)?;
    fill(alloc, &mut tables, 131, 71)?;
    tables.compact_all()?;
    assert_eq!(rt; counted(tables.share_blocks()?), (1, 60));
    assert_eq!(rt; put(&mut tables, 0, 9, 130), Err(RowFault::Duplicate));
    assert!(rt; take(alloc, &mut tables, 0, 130)?);
    assert_eq!(rt; put(&mut tables, 0, 9, 130), Ok(()));
    Ok(())
}

/// A statement that faults in its middle is rolled back to its own mark.
#[test]
fn fault_in_a_statement_is_undone(rt: HostRuntime) -> Result<(), Fail> {
    let alloc = rt.alloc();
    let mut tables = two_tables(alloc)?;
    assert_eq!(rt; put(&mut tables, 0, 1, 5), Ok(()));
    let mark = tables.begin_undo();
    assert_eq!(rt; change(&mut tables, 0, 1, 6), Ok(true));
    assert_eq!(rt; put(&mut tables, 0, 2, 6), Err(RowFault::Duplicate));
    tables.roll_back(mark)?;
    assert_eq!(rt; put(&mut tables, 0, 2, 6), Ok(()));
    assert_eq!(rt; numbers(alloc, &tables, 0, 1)?, 1526);
    Ok(())
}

/// Rows and indexes are as they were at each mark.
#[test]
fn changes_are_undone(rt: HostRuntime) -> Result<(), Fail> {
    let alloc = rt.alloc();
    let mut tables = two_tables(alloc)?;
    assert_eq!(rt; put(&mut tables, 0, 1, 5), Ok(()));
    assert_eq!(rt; put(&mut tables, 1, 2, 3), Ok(()));
    let mark = tables.begin_undo();
    assert_eq!(rt; mark.below(), 2);
    assert_eq!(rt; put(&mut tables, 0, 2, 4), Ok(()));
    assert_eq!(rt; put(&mut tables, 0, 3, 4), Err(RowFault::Duplicate));
    assert_eq!(rt; change(&mut tables, 0, 1, 6), Ok(true));
    assert_eq!(rt; change(&mut tables, 0, 7, 6), Ok(false));
    assert!(rt; take(alloc, &mut tables, 1, 2)?);
    assert!(rt; !take(alloc, &mut tables, 1, 2)?);
    assert_eq!(rt; put(&mut tables, 0, 3, 5), Ok(()));
    assert_eq!(rt; numbers(alloc, &tables, 0, 0)?, 162435);
    assert_eq!(rt; numbers(alloc, &tables, 0, 1)?, 243516);
    assert_eq!(rt; numbers(alloc, &tables, 1, 0)?, 0);
    tables.roll_back(mark)?;
    assert_eq!(rt; numbers(alloc, &tables, 0, 0)?, 15);
    assert_eq!(rt; numbers(alloc, &tables, 0, 1)?, 15);
    assert_eq!(rt; numbers(alloc, &tables, 1, 1)?, 23);
    tables.roll_back(Mark::above(0))?;
    assert_eq!(rt; numbers(alloc, &tables, 0, 1)?, 0);
    assert_eq!(rt; numbers(alloc, &tables, 1, 0)?, 0);
    Ok(())
}

/// What was released stays.
#[test]
fn released_changes_stay(rt: HostRuntime) -> Result<(), Fail> {
    let alloc = rt.alloc();
    let mut tables = two_tables(alloc)?;
    assert_eq!(rt; put(&mut tables, 0, 1, 5), Ok(()));
    tables.release(Mark::above(0));
    assert_eq!(rt; tables.begin_undo().below(), 0);
    assert_eq!(rt; put(&mut tables, 0, 2, 4), Ok(()));
    tables.roll_back(Mark::above(0))?;
    assert_eq!(rt; numbers(alloc, &tables, 0, 0)?, 15);
    Ok(())
}
