//! A list of blocks that are copied when they are written beside a scan.

ghost use Rattle.std.specs.Prelude.{◌≡◌, ◌+◌, ◌<◌, ◌≤◌, ◌↔◌, [], true, false, Some, length, map, replicate, IfOk, OnOk, OnErr, IsOk, IsTrue, vec_len, vec_capacity};
ghost use Rattle.std.specs.Borrow.{sem};
ghost use Rattle.std.specs.List.{slice_get};
ghost use Rattle.std.specs.VecDeque.{deque_capacity};
ghost use Rattle.cow_scan.specs.Cow.{no_blocks, with_new_block, with_owned, all_shared, is_shared_at, copies_of};
ghost use Rattle.cow_scan.specs.State.{block_of, is_shared};

use crate::scan::CowScan;
use crate::state::State;
use std::alloc::{AllocError, Global};
use std::collections::VecDeque;
use std::marker::Model;
use std::mem;
use std::sync::Arc;
use std::sync::ledger::Ledger;
use tuple_block::{Block, MAX_WIDTH, Steps};

/// Blocks of one width, by number. Each is owned, or shared with the scans that may read it: shared
/// from a `share` until the next `write` of it, also where the scan has ended before.
#[derive(Drop)]
pub struct CowBlocks {
    states: Vec<State>,
    alloc: Global,
    width: u32,
}

impl Model for CowBlocks {
    ghost use Rattle.std.specs.Prelude.{◌<◌, ◌≤◌, ◌^◌, length, map};
    ghost use Rattle.cow_scan.specs.Cow.{Cow};
    ghost use Rattle.cow_scan.specs.State.{block_of, is_shared};

    ghost Value = { Cow };

    ghost view = { λ c. record { width = c.width; blocks = map block_of c.states.items; shared = map is_shared c.states.items } };

    ghost invariant = { λ c. (0 < c.width) × (c.width ≤ 8192) × (length c.states.items < 2 ^ 32) };
}

impl CowBlocks {
    ghost use Rattle.cow_scan.specs.Lending.{LendsOwnedBlock, LendsBlock};

    /// No blocks. Tuples have 1 to 8,192 bytes.
    pub fn new(alloc: Global, width: u32) -> CowBlocks
        requires { (0 < width) × (width ≤ MAX_WIDTH) }
        ensures { result ≡ no_blocks width }
    {
        CowBlocks {
            states: Vec::new(alloc),
            alloc,
            width,
        }
    }

    /// How many bytes a tuple has, 1 to 8,192.
    pub fn width(&self) -> u32
        ensures value { result ≡ self.now.width }
        ensures some { 0 < result }
        ensures limit { result ≤ MAX_WIDTH }
    {
        self.width
    }

    /// How many blocks there are.
    pub fn len(&self) -> u32
        ensures { result ≡ length self.now.blocks }
    {
        self.states.len() as u32
    }

    /// Whether there are none.
    pub fn is_empty(&self) -> bool
        ensures { IsTrue result ↔ (self.now.blocks ≡ []) }
    {
        self.states.is_empty()
    }

    /// Adds an owned block whose places are all free at the end, and gives its number. There are
    /// less than 2^32 blocks: one more is answered as out of memory.
    pub fn add(&mut self) -> Result<u32, AllocError>
        ensures number { IfOk result (λ n. n ≡ length self.old.blocks) }
        ensures added { OnOk result (self.new ≡ with_new_block self.old) }
        ensures owned { IfOk result (λ n. is_shared_at self.new n ≡ false) }
        ensures kept { OnErr result (self.new ≡ self.old) }
    {
        let number = self.states.len();
        if number >= u32::MAX as usize {
            return Err(AllocError);
        }
        let block = Block::new(self.alloc, self.width)?;
        self.states.push(State::Owned(block))?;
        Ok(number as u32)
    }

    /// A block, to be read.
    pub fn block(&self, n: u32) -> &Block
        requires { n < length self.now.blocks }
        ensures { slice_get self.now.blocks n ≡ Some result.now }
    {
        self.states[n as usize].block()
    }

    /// A block, to be written. A shared one is copied first, which is counted once, and is owned then.
    /// An owned one is lent as it is, which takes no memory and can't fail. Out of memory, nothing
    /// changes.
    pub fn write<L: Ledger>(
        &mut self,
        n: u32,
        copies: &mut Steps<L>,
    ) -> Result<&mut Block, AllocError>
        requires { n < length self.old.blocks }
        ensures* writes_back { sem 𝓛 (LendsBlock self.entry n result) }
        ensures value { IfOk result (λ b. slice_get self.old.blocks n ≡ Some b.now) }
        ensures counted { copies.new ≡ copies.old + copies_of self.old n }
        ensures owned { is_shared_at self.old n ≡ false → IsOk result }
    {
        self.own(n, copies)?;
        Ok(self.owned(n))
    }

    /// Makes a block owned, so that a later `write` of it can't fail until the next `share`. A shared one
    /// is copied, which is counted once. Out of memory, nothing changes.
    pub fn own<L: Ledger>(&mut self, n: u32, copies: &mut Steps<L>) -> Result<(), AllocError>
        requires { n < length self.old.blocks }
        ensures owned { OnOk result (self.new ≡ with_owned self.old n) }
        ensures kept { OnErr result (self.new ≡ self.old) }
        ensures counted { copies.new ≡ copies.old + copies_of self.old n }
        ensures succeeds { is_shared_at self.old n ≡ false → IsOk result }
    {
        if let State::Shared(block) = &self.states[n as usize] {
            let fresh = block.copy(self.alloc, copies)?;
            drop(mem::replace(&mut self.states[n as usize], State::Owned(fresh)));
        }
        Ok(())
    }

    fn owned(&mut self, n: u32) -> &mut Block
        requires within { n < length self.old.blocks }
        requires owned { is_shared_at self.old n ≡ false }
        ensures* writes_back { sem 𝓛 (LendsOwnedBlock self.entry n result) }
        ensures value { slice_get self.old.blocks n ≡ Some result.now }
    {
        self.states[n as usize].owned()
    }

    /// A scan of all blocks as they stand now, whatever is written later. All of them are shared then.
    /// Out of memory, the blocks hold what they held, and any of them may be shared.
    pub fn share(&mut self) -> Result<CowScan, AllocError>
        ensures scan { IfOk result (λ s. s ≡ self.old.blocks) }
        ensures shared { OnOk result (self.new ≡ all_shared self.old) }
        ensures kept { (self.new.blocks ≡ self.old.blocks) × (self.new.width ≡ self.old.width) }
    {
        let len = self.states.len();
        let mut kept = Vec::with_capacity(self.alloc, len)?;
        let mut scan = VecDeque::with_capacity(self.alloc, len)?;
        let states = mem::replace(&mut self.states, Vec::new(self.alloc));
        let is_whole = share_each(self.alloc, states, &mut kept, &mut scan);
        self.states = kept;
        if is_whole {
            Ok(CowScan::of(scan))
        } else {
            Err(AllocError)
        }
    }
}

// Moves the states, each of them shared, and gives the scan an owner of each. It tells whether all
// could be had.
fn share_each(
    alloc: Global,
    states: Vec<State>,
    kept: &mut Vec<State>,
    scan: &mut VecDeque<Arc<Block>>,
) -> bool
    requires empty { (kept.old.items ≡ []) × (scan.old.items ≡ []) }
    requires room { vec_len states ≤ vec_capacity kept.old }
    requires room_of_scan { vec_len states ≤ deque_capacity scan.old }
    ensures blocks { map block_of kept.new.items ≡ map block_of states.items }
    ensures shared { IsTrue result
        → map is_shared kept.new.items ≡ replicate (length kept.new.items) true }
    ensures scan { IsTrue result
        → map (λ a. a.value) scan.new.items ≡ map block_of states.items }
{
    let mut is_whole = true;
    for state in states {
        let (state, other) = state.share(alloc);
        kept.push_reserved(state);
        match other {
            Some(other) => scan.push_back_reserved(other),
            None => is_whole = false,
        }
    }
    is_whole
}
