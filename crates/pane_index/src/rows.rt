//! Rows in blocks, by place: 64 places a block. What a write copies of shared blocks is counted by a
//! counter that each call makes of its own.

ghost use Rattle.std.specs.Prelude.{◌≡◌, ℕ, ◌+◌, ◌*◌, ◌/◌, ◌<◌, ◌≤◌, ◌++◌, false, Some, None, IsSome, length, slice_set, MatchOption, IfOk, OnOk, OnErr, IsOk, IfSome};
ghost use Rattle.std.specs.Option.{option_copied};
ghost use Rattle.tuple_block.specs.Tuples.{free_slots, slot_at, IsHeld, IsFree, IsNextHeld};
ghost use Rattle.cow_scan.specs.Cow.{is_shared_at};
ghost use Rattle.pane_index.specs.Blocks.{all_slots, AreBlocksOf};
ghost use Rattle.pane_index.specs.Search.{IsFirstFreeWithin, IsLastHeldWithin, SameShape, HasGrown};

use cow_scan::CowBlocks;
use std::alloc::{AllocError, Global};
use std::sync::ledger::{Blank, Ledger};
use tuple_block::Steps;

const PER_BLOCK: u32 = 64;

/// The tuple at a place, or `None` where it is free or behind the last block.
pub fn get(cow: &CowBlocks, p: u32) -> Option<&[u8]>
    requires { AreBlocksOf cow.now.width cow.now.blocks }
    ensures tuple { option_copied result ≡ slot_at (all_slots cow.now.blocks) p }
    ensures width { IfSome result (λ t. length t.now ≡ cow.now.width) }
{
    let n = p / PER_BLOCK;
    if n < cow.len() {
        cow.block(n).get((p % PER_BLOCK) as u8)
    } else {
        None
    }
}

/// The first free place of the blocks from one up to another.
pub fn first_free(cow: &CowBlocks, from: u32, to: u32) -> Option<u32>
    requires are_blocks { AreBlocksOf cow.now.width cow.now.blocks }
    requires within { to ≤ length cow.now.blocks }
    requires limit { length cow.now.blocks ≤ 4194304 }
    ensures { MatchOption result (IsHeld (all_slots cow.now.blocks) (64 * from) (64 * to))
        (IsFirstFreeWithin (all_slots cow.now.blocks) (64 * from) (64 * to)) }
{
    for n in from..to {
        if let Some(i) = cow.block(n).first_free() {
            return Some(n * PER_BLOCK + i as u32);
        }
    }
    None
}

/// The last place of the first blocks, so many, that holds a tuple.
pub fn last_held(cow: &CowBlocks, to: u32) -> Option<u32>
    requires are_blocks { AreBlocksOf cow.now.width cow.now.blocks }
    requires within { to ≤ length cow.now.blocks }
    requires limit { length cow.now.blocks ≤ 4194304 }
    ensures { MatchOption result (IsFree (all_slots cow.now.blocks) 0 (64 * to))
        (IsLastHeldWithin (all_slots cow.now.blocks) (64 * to)) }
{
    for n in (0..to).rev() {
        if let Some(i) = cow.block(n).last_held() {
            return Some(n * PER_BLOCK + i as u32);
        }
    }
    None
}

/// The first place from one on that holds a tuple.
pub fn next_held(cow: &CowBlocks, from: u32) -> Option<u32>
    requires are_blocks { AreBlocksOf cow.now.width cow.now.blocks }
    requires limit { length cow.now.blocks ≤ 4194304 }
    ensures { MatchOption result (IsFree (all_slots cow.now.blocks) from (length (all_slots cow.now.blocks)))
        (IsNextHeld (all_slots cow.now.blocks) from) }
{
    let mut at = from;
    for n in from / PER_BLOCK..cow.len() {
        if let Some(i) = cow.block(n).next_held((at % PER_BLOCK) as u8) {
            return Some(n * PER_BLOCK + i as u32);
        }
        at = 0;
    }
    None
}

/// Puts a tuple at a place, over what was there. Out of memory, nothing changes.
pub fn fill<L: Ledger>(
    cow: &mut CowBlocks,
    p: u32,
    tuple: &[u8],
    blank: Blank,
) -> Result<(), AllocError>
    requires are_blocks { AreBlocksOf cow.old.width cow.old.blocks }
    requires place { p < length (all_slots cow.old.blocks) }
    requires width { length tuple.now ≡ cow.old.width }
    requires name { blank.name ≡ L.name }
    requires parts { blank.parts ≡ L.parts }
    requires some { 0 < blank.parts }
    ensures filled { OnOk result (all_slots cow.new.blocks ≡ slice_set (all_slots cow.old.blocks) p (Some tuple.now)) }
    ensures kept { OnErr result (cow.new ≡ cow.old) }
    ensures shape { SameShape cow.old cow.new }
    ensures succeeds { is_shared_at cow.old (p / 64) ≡ false → IsOk result }
{
    let mut copies = Steps::<L>::start(blank);
    cow.own(p / PER_BLOCK, &mut copies)?;
    put_owned(cow, p, tuple, &mut copies);
    Ok(())
}

/// Adds a block with a tuple at its first place, and tells that place. Out of memory, nothing changes.
pub fn add_block<L: Ledger>(
    cow: &mut CowBlocks,
    tuple: &[u8],
    blank: Blank,
) -> Result<u32, AllocError>
    requires are_blocks { AreBlocksOf cow.old.width cow.old.blocks }
    requires limit { length cow.old.blocks < 4194304 }
    requires width { length tuple.now ≡ cow.old.width }
    requires name { blank.name ≡ L.name }
    requires parts { blank.parts ≡ L.parts }
    requires some { 0 < blank.parts }
    ensures place { IfOk result (λ p. p ≡ length (all_slots cow.old.blocks)) }
    ensures blocks { IfOk result (λ p. p ≡ 64 * length cow.old.blocks) }
    ensures filled { IfOk result (λ p. all_slots cow.new.blocks
        ≡ slice_set (all_slots cow.old.blocks ++ free_slots) p (Some tuple.now)) }
    ensures shape { OnOk result (HasGrown cow.old cow.new) }
    ensures kept { OnErr result (cow.new ≡ cow.old) }
{
    let n = cow.add()?;
    let mut copies = Steps::<L>::start(blank);
    put_owned(cow, n * PER_BLOCK, tuple, &mut copies);
    Ok(n * PER_BLOCK)
}

/// Frees a place. Out of memory, nothing changes.
pub fn clear<L: Ledger>(cow: &mut CowBlocks, p: u32, blank: Blank) -> Result<(), AllocError>
    requires are_blocks { AreBlocksOf cow.old.width cow.old.blocks }
    requires place { p < length (all_slots cow.old.blocks) }
    requires name { blank.name ≡ L.name }
    requires parts { blank.parts ≡ L.parts }
    requires some { 0 < blank.parts }
    ensures cleared { OnOk result (all_slots cow.new.blocks ≡ slice_set (all_slots cow.old.blocks) p None) }
    ensures kept { OnErr result (cow.new ≡ cow.old) }
    ensures shape { SameShape cow.old cow.new }
{
    let mut copies = Steps::<L>::start(blank);
    cow.own(p / PER_BLOCK, &mut copies)?;
    clear_owned(cow, p, &mut copies);
    Ok(())
}

/// Moves the tuple of one place to another. All that takes memory is done first: out of
/// memory, the tuples stay where they are.
pub fn shift<L: Ledger>(
    alloc: Global,
    cow: &mut CowBlocks,
    from: u32,
    to: u32,
    blank: Blank,
) -> Result<(), AllocError>
    requires are_blocks { AreBlocksOf cow.old.width cow.old.blocks }
    requires from_place { IsSome (slot_at (all_slots cow.old.blocks) from) }
    requires to_place { to < from }
    requires name { blank.name ≡ L.name }
    requires parts { blank.parts ≡ L.parts }
    requires some { 0 < blank.parts }
    ensures moved { OnOk result (all_slots cow.new.blocks
        ≡ slice_set (slice_set (all_slots cow.old.blocks) to (slot_at (all_slots cow.old.blocks) from)) from None) }
    ensures kept { OnErr result (cow.new.blocks ≡ cow.old.blocks) }
    ensures shape { SameShape cow.old cow.new }
{
    let tuple = copy_of(alloc, cow, from)?;
    let mut copies = Steps::<L>::start(blank);
    cow.own(to / PER_BLOCK, &mut copies)?;
    cow.own(from / PER_BLOCK, &mut copies)?;
    put_owned(cow, to, &tuple, &mut copies);
    clear_owned(cow, from, &mut copies);
    Ok(())
}

fn copy_of(alloc: Global, cow: &CowBlocks, p: u32) -> Result<Vec<u8>, AllocError>
    requires are_blocks { AreBlocksOf cow.now.width cow.now.blocks }
    requires held { IsSome (slot_at (all_slots cow.now.blocks) p) }
    ensures tuple { IfOk result (λ t. slot_at (all_slots cow.now.blocks) p ≡ Some t.items) }
    ensures width { IfOk result (λ t. length t.items ≡ cow.now.width) }
{
    match get(cow, p) {
        Some(tuple) => Vec::from_slice(alloc, tuple),
        None => unreachable!(),
    }
}

fn put_owned<L: Ledger>(cow: &mut CowBlocks, p: u32, tuple: &[u8], copies: &mut Steps<L>)
    requires are_blocks { AreBlocksOf cow.old.width cow.old.blocks }
    requires place { p < length (all_slots cow.old.blocks) }
    requires width { length tuple.now ≡ cow.old.width }
    requires owned { is_shared_at cow.old (p / 64) ≡ false }
    ensures filled { all_slots cow.new.blocks ≡ slice_set (all_slots cow.old.blocks) p (Some tuple.now) }
    ensures shape { SameShape cow.old cow.new }
    ensures shared { cow.new.shared ≡ cow.old.shared }
{
    match cow.write(p / PER_BLOCK, copies) {
        Ok(block) => block.put((p % PER_BLOCK) as u8, tuple),
        Err(_) => unreachable!(),
    }
}

fn clear_owned<L: Ledger>(cow: &mut CowBlocks, p: u32, copies: &mut Steps<L>)
    requires are_blocks { AreBlocksOf cow.old.width cow.old.blocks }
    requires place { p < length (all_slots cow.old.blocks) }
    requires owned { is_shared_at cow.old (p / 64) ≡ false }
    ensures cleared { all_slots cow.new.blocks ≡ slice_set (all_slots cow.old.blocks) p None }
    ensures shape { SameShape cow.old cow.new }
    ensures shared { cow.new.shared ≡ cow.old.shared }
{
    match cow.write(p / PER_BLOCK, copies) {
        Ok(block) => block.clear((p % PER_BLOCK) as u8),
        Err(_) => unreachable!(),
    }
}
