//! Tests of what no clause says: calls succeed where there is memory, and what is counted is copied.
ghost use Rattle.std.specs.Prelude.{◌≡◌, ◌+◌, ◌<◌, ◌≤◌, length, IfOk, OnOk};

use cow_scan::*;
use std::alloc::{AllocError, Global};
use std::marker::{Brand, Send};
use std::sync::Arc;
use std::sync::ledger::{Blank, Ledger};
use std::test::Fail;
use tuple_block::{Block, Steps};

fn may_cross<T: Send>(_value: &T) {}

// Whether the first place of a block has this byte.
fn has(block: &Block, byte: u8) -> bool {
    block.get(0).is_some_and(|tuple| tuple == [byte].as_slice())
}

fn block_has(blocks: &CowBlocks, n: u32, byte: u8) -> bool {
    n < blocks.len() && has(blocks.block(n), byte)
}

// Puts a byte at the first place of a block, where that may be done.
fn mark(block: &mut Block, byte: u8) {
    if block.width() == 1 {
        block.put(0, &[byte]);
    }
}

// So many blocks, each with a byte.
fn marked(alloc: Global, count: u32, byte: u8) -> Result<CowBlocks, AllocError> {
    let mut blocks = CowBlocks::new(alloc, 1);
    for _ in 0..count {
        let n = blocks.add()?;
        mark_one::<Brand>(&mut blocks, n, byte, Blank::new(1))?;
    }
    Ok(blocks)
}

fn mark_one<L: Ledger>(
    blocks: &mut CowBlocks,
    n: u32,
    byte: u8,
    blank: Blank,
) -> Result<(), AllocError>
    requires name { blank.name ≡ L.name }
    requires parts { blank.parts ≡ L.parts }
    requires some { 0 < blank.parts }
{
    let mut copies = Steps::<L>::start(blank);
    if n < blocks.len() {
        mark(blocks.write(n, &mut copies)?, byte);
    }
    Ok(())
}

// A scan, and writes to three blocks beside it, of which each copies its block at most.
fn scan_beside_three_writes<L: Ledger>(
    blocks: &mut CowBlocks,
    copies: &mut Steps<L>,
) -> Result<CowScan, AllocError>
    requires { 77 < length blocks.old.blocks }
    ensures scan { IfOk result (λ s. s ≡ blocks.old.blocks) }
    ensures copies { copies.new ≤ copies.old + 3 }
{
    let scan = blocks.share()?;
    mark(blocks.write(0, copies)?, 2);
    mark(blocks.write(42, copies)?, 3);
    mark(blocks.write(77, copies)?, 4);
    Ok(scan)
}

// The same for one block that is written twice: the second write copies nothing.
fn scan_beside_one_block<L: Ledger>(
    blocks: &mut CowBlocks,
    copies: &mut Steps<L>,
) -> Result<CowScan, AllocError>
    requires { 0 < length blocks.old.blocks }
    ensures scan { IfOk result (λ s. s ≡ blocks.old.blocks) }
    ensures copies { copies.new ≤ copies.old + 1 }
    ensures len { OnOk result (length blocks.new.blocks ≡ length blocks.old.blocks) }
{
    let scan = blocks.share()?;
    mark(blocks.write(0, copies)?, 2);
    mark(blocks.write(0, copies)?, 3);
    Ok(scan)
}

fn three_counted<L: Ledger>(blocks: &mut CowBlocks, blank: Blank) -> Result<CowScan, AllocError>
    requires blocks { 77 < length blocks.old.blocks }
    requires name { blank.name ≡ L.name }
    requires parts { blank.parts ≡ L.parts }
    requires some { 0 < blank.parts }
{
    let mut copies = Steps::<L>::start(blank);
    let one = scan_beside_one_block(blocks, &mut copies)?;
    drop(one);
    scan_beside_three_writes(blocks, &mut copies)
}

// How many blocks a scan gives, how many of them are no longer those of the list, and whether each
// has this byte, but for the first, which has another.
fn read(scan: &mut CowScan, first: u8, byte: u8) -> (u32, u32, bool) {
    let mut count = 0u32;
    let mut copied = 0u32;
    let mut all = true;
    for n in 0..1000u32 {
        let Some(block) = scan.next_block() else {
            break;
        };
        count += 1;
        if Arc::strong_count(&block) == 1 {
            copied += 1;
        }
        all = all && has(&block, if n == 0 { first } else { byte });
    }
    (count, copied, all)
}

/// A list of 100 blocks is shared, and three of them are written: the scan gives all as they stood, and
/// owns the three that were copied alone.
#[test]
fn three_writes_copy_three_blocks(rt: HostRuntime) -> Result<(), Fail> {
    let mut blocks = marked(rt.alloc(), 100, 1)?;
    assert_eq!(rt; blocks.width(), 1);
    assert_eq!(rt; blocks.len(), 100);
    if blocks.len() > 77 {
        let mut scan = three_counted::<Brand>(&mut blocks, Blank::new(1))?;
        may_cross(&scan);
        let (count, copied, all) = read(&mut scan, 3, 1);
        assert_eq!(rt; count, 100);
        assert_eq!(rt; copied, 3);
        assert!(rt; all);
        assert!(rt; scan.next_block().is_none());
        assert!(rt; block_has(&blocks, 0, 2));
        assert!(rt; block_has(&blocks, 1, 1));
        assert!(rt; block_has(&blocks, 77, 4));
    }
    Ok(())
}

/// A second scan gives what was written after the first.
#[test]
fn scans_give_what_stood_at_their_start(rt: HostRuntime) -> Result<(), Fail> {
    let mut blocks = marked(rt.alloc(), 2, 1)?;
    assert_eq!(rt; blocks.is_empty(), false);
    let mut first = blocks.share()?;
    mark_one::<Brand>(&mut blocks, 0, 9, Blank::new(1))?;
    let mut second = blocks.share()?;
    mark_one::<Brand>(&mut blocks, 0, 8, Blank::new(1))?;
    assert_eq!(rt; read(&mut first, 1, 1), (2, 1, true));
    assert_eq!(rt; read(&mut second, 9, 1), (2, 1, true));
    assert!(rt; CowBlocks::new(rt.alloc(), 8192).is_empty());
    Ok(())
}
