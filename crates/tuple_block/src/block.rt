//! A block: 64 optional tuples of one width.

ghost use Rattle.std.specs.Prelude.{◌≡◌, ℕ, ◌+◌, ◌<◌, ◌≤◌, Some, None, length, IfOk, IfSome, MatchOption};
ghost use Rattle.std.specs.Option.{option_copied};
ghost use Rattle.tuple_block.specs.Tuples.{no_tuples, slot_at, with_slot, IsFree, IsHeld, IsFirstFree, IsNextHeld, IsLastHeld};

use crate::bits;
use crate::bytes::Bytes;
use crate::steps::Steps;
use std::alloc::{AllocError, Global};
use std::marker::Model;
use std::sync::ledger::Ledger;

/// How many places a block has.
pub const PLACES: u8 = 64;

/// The greatest width of a tuple, in bytes.
pub const MAX_WIDTH: u32 = 8192;

/// 64 places, each free or holding a tuple. All tuples of a block have its width, 1 to 8,192 bytes.
/// It is seen as the width and the list of the 64 slots.
#[derive(Drop)]
pub struct Block {
    bytes: Bytes,
    // bit i tells whether place i is held
    occupied: u64,
    width: u32,
}

impl Model for Block {
    ghost use Rattle.std.specs.Prelude.{◌≡◌, ◌*◌, ◌<◌, ◌≤◌, length};
    ghost use Rattle.tuple_block.specs.Tuples.{Tuples};
    ghost use Rattle.tuple_block.specs.Layout.{tuples_of};

    ghost Value = { Tuples };

    ghost view = { λ b. tuples_of b.width b.occupied b.bytes };

    ghost invariant = { λ b. (0 < b.width) × (b.width ≤ 8192) × (length b.bytes ≡ 64 * b.width) };
}

impl Block {
    /// A block whose places are all free.
    pub fn new(alloc: Global, width: u32) -> Result<Block, AllocError>
        requires { (0 < width) × (width ≤ MAX_WIDTH) }
        ensures { IfOk result (λ b. b ≡ no_tuples width) }
    {
        let bytes = Bytes::zeros(alloc, PLACES as usize * width as usize)?;
        Ok(Block {
            bytes,
            occupied: 0,
            width,
        })
    }

    /// How many bytes a tuple has, 1 to 8,192.
    pub fn width(&self) -> u32
        ensures value { result ≡ self.now.width }
        ensures some { 0 < result }
        ensures limit { result ≤ MAX_WIDTH }
        ensures places { length self.now.slots ≡ 64 }
    {
        self.width
    }

    /// The tuple at a place below 64, or `None` where it is free.
    pub fn get(&self, i: u8) -> Option<&[u8]>
        requires { i < 64 }
        ensures tuple { option_copied result ≡ slot_at self.now.slots i }
        ensures width { IfSome result (λ t. length t.now ≡ self.now.width) }
    {
        if bits::has_bit(self.occupied, i) {
            let width = self.width as usize;
            Some(self.bytes.run(i as usize * width, width))
        } else {
            None
        }
    }

    /// Puts a tuple of the block's width at a place below 64, over what was there.
    pub fn put(&mut self, i: u8, tuple: &[u8])
        requires place { i < 64 }
        requires width { length tuple.now ≡ self.old.width }
        ensures { self.new ≡ with_slot self.old i (Some tuple.now) }
    {
        self.bytes.write(i as usize * self.width as usize, tuple);
        self.occupied = bits::with_bit(self.occupied, i);
    }

    /// Frees a place below 64.
    pub fn clear(&mut self, i: u8)
        requires { i < 64 }
        ensures { self.new ≡ with_slot self.old i None }
    {
        self.occupied = bits::without_bit(self.occupied, i);
    }

    /// A block of its own with the same tuples. The copy is counted once, also where there was no
    /// memory for it.
    pub fn copy<L: Ledger>(&self, alloc: Global, copies: &mut Steps<L>) -> Result<Block, AllocError>
        ensures equal { IfOk result (λ b. b ≡ self.now) }
        ensures counted { copies.new ≡ copies.old + 1 }
    {
        copies.tick();
        let bytes = self.bytes.copy(alloc)?;
        Ok(Block {
            bytes,
            occupied: self.occupied,
            width: self.width,
        })
    }

    /// The first place that is free, or `None` where the block is full.
    pub fn first_free(&self) -> Option<u8>
        ensures { MatchOption result (IsHeld self.now.slots 0 64) (IsFirstFree self.now.slots) }
    {
        bits::first_zero(self.occupied)
    }

    /// The first held place from a place below 64 on, or `None` where all of them are free.
    pub fn next_held(&self, from: u8) -> Option<u8>
        requires { from < 64 }
        ensures { MatchOption result (IsFree self.now.slots from 64) (IsNextHeld self.now.slots from) }
    {
        bits::next_one(self.occupied, from)
    }

    /// The last place that is held, or `None` where the block is empty.
    pub fn last_held(&self) -> Option<u8>
        ensures { MatchOption result (IsFree self.now.slots 0 64) (IsLastHeld self.now.slots) }
    {
        bits::last_one(self.occupied)
    }
}
