//! Tests of what no clause says: calls succeed where there is memory, and a block may cross threads.
ghost use Rattle.std.specs.Prelude.{◌≡◌, ◌<◌, IfOk};

use std::alloc::{AllocError, Global};
use std::marker::{Brand, Send, Sync};
use std::sync::ledger::{Blank, Ledger};
use std::test::Fail;
use tuple_block::*;

fn may_cross<T: Send + Sync>(_value: &T) {}

// Whether a place has this tuple.
fn has(block: &Block, i: u8, tuple: &[u8]) -> bool {
    i < PLACES && block.get(i).is_some_and(|found| found == tuple)
}

fn is_free(block: &Block, i: u8) -> bool {
    i < PLACES && block.get(i).is_none()
}

// Puts a tuple, where that may be done.
fn put(block: &mut Block, i: u8, tuple: &[u8]) -> bool {
    if i >= PLACES || tuple.len() != block.width() as usize {
        return false;
    }
    block.put(i, tuple);
    true
}

// A copy of the copy of a block, whose copies are counted.
fn copied_twice<L: Ledger>(alloc: Global, block: &Block, blank: Blank) -> Result<Block, AllocError>
    requires name { blank.name ≡ L.name }
    requires parts { blank.parts ≡ L.parts }
    requires some { 0 < blank.parts }
    ensures { IfOk result (λ b. b ≡ block.now) }
{
    let mut copies = Steps::<L>::start(blank);
    let first = block.copy(alloc, &mut copies)?;
    let second = first.copy(alloc, &mut copies)?;
    two_were_counted(&copies);
    Ok(second)
}

fn two_were_counted<L: Ledger>(_copies: &Steps<L>)
    requires { _copies.now ≡ 2 }
{}

#[test]
fn tuples_stand_at_their_places(rt: HostRuntime) -> Result<(), Fail> {
    let mut block = Block::new(rt.alloc(), 3)?;
    assert_eq!(rt; block.width(), 3);
    assert_eq!(rt; block.first_free(), Some(0));
    assert_eq!(rt; block.last_held(), None);
    assert_eq!(rt; block.next_held(0), None);
    for i in [0u8, 1, 5, 63] {
        assert!(rt; put(&mut block, i, &[i, 7, 9]));
    }
    assert!(rt; put(&mut block, 1, b"abc"));
    assert!(rt; has(&block, 0, &[0, 7, 9]));
    assert!(rt; has(&block, 1, b"abc"));
    assert!(rt; is_free(&block, 2));
    assert!(rt; has(&block, 5, &[5, 7, 9]));
    assert!(rt; has(&block, 63, &[63, 7, 9]));
    assert_eq!(rt; block.first_free(), Some(2));
    assert_eq!(rt; block.next_held(2), Some(5));
    assert_eq!(rt; block.next_held(6), Some(63));
    assert_eq!(rt; block.last_held(), Some(63));
    block.clear(63);
    assert!(rt; is_free(&block, 63));
    assert_eq!(rt; block.last_held(), Some(5));
    assert_eq!(rt; block.next_held(6), None);
    Ok(())
}

#[test]
fn full_block_has_no_free_place(rt: HostRuntime) -> Result<(), Fail> {
    let mut block = Block::new(rt.alloc(), 1)?;
    for i in 0..64u8 {
        assert_eq!(rt; block.first_free(), Some(i));
        assert!(rt; put(&mut block, i, &[i]));
    }
    assert_eq!(rt; block.first_free(), None);
    block.clear(40);
    assert_eq!(rt; block.first_free(), Some(40));
    Ok(())
}

/// The widest block, and a copy that is a block of its own.
#[test]
fn copies_are_blocks_of_their_own(rt: HostRuntime) -> Result<(), Fail> {
    let mut block = Block::new(rt.alloc(), MAX_WIDTH)?;
    may_cross(&block);
    assert!(rt; put(&mut block, 63, &[7; 8192]));
    let copy = copied_twice::<Brand>(rt.alloc(), &block, Blank::new(1))?;
    assert!(rt; put(&mut block, 63, &[8; 8192]));
    assert!(rt; has(&copy, 63, &[7; 8192]));
    assert!(rt; has(&block, 63, &[8; 8192]));
    Ok(())
}
