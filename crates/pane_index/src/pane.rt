//! The rows of a table.

ghost use Rattle.std.specs.Prelude.{◌≡◌, ◌+◌, ◌*◌, ◌<◌, ◌≤◌, ◌↔◌, false, Some, None, IsSome, IsTrue, length, MatchOption, IfOk, OnOk, OnErr, IfSome, IfNone};
ghost use Rattle.std.specs.Option.{option_copied};
ghost use Rattle.std.specs.Int.{div_ceil};
ghost use Rattle.pane_index.specs.Rows.{no_rows, row_at, with_row, with_place, row_count, used_places, held_places, IsCrowded, IsPacked, IsMoved, with_moved};
ghost use Rattle.pane_index.specs.Blocks.{Hold};
ghost use Rattle.pane_index.specs.Search.{IsFreePlace, CanMove, IsDense, move_of};

use crate::place::Place;
use crate::places::Places;
use crate::rows;
use cow_scan::{CowBlocks, CowScan};
use std::alloc::{AllocError, Global};
use std::marker::{Brand, Model};
use std::sync::ledger::Blank;
use tuple_block::MAX_WIDTH;

/// The greatest number of blocks of a pane, 2^22. So a place is below 2^28.
pub const MAX_BLOCKS: u32 = 4194304;

/// Tuples of one width, 1 to 8,192 bytes, at places of blocks of 64. It is seen as the width and the
/// slots of all its blocks, each of them a tuple or free; place p is that of slot p. A tuple stays at
/// its place until it is taken or `compact` moves it.
///
/// Blocks that a scan may be reading are copied when they are written, one at a time.
#[derive(Drop)]
pub struct Pane {
    cow: CowBlocks,
    alloc: Global,
    // all blocks before it are full
    first_open: u32,
    // where `add` looks first
    next: u32,
    // all blocks from it on are empty
    used: u32,
    // how many tuples there are
    count: u32,
}

impl Model for Pane {
    ghost use Rattle.pane_index.specs.Rows.{Rows};
    ghost use Rattle.pane_index.specs.Blocks.{rows_of, IsPane};

    ghost Value = { Rows };

    ghost view = { λ p. rows_of p.cow };

    ghost invariant = { λ p. IsPane p.cow p.first_open p.next p.used p.count };
}

impl Pane {
    /// A pane without places. It takes no memory.
    pub fn new(alloc: Global, width: u32) -> Pane
        requires { (0 < width) × (width ≤ MAX_WIDTH) }
        ensures { result ≡ no_rows width }
    {
        Pane {
            cow: CowBlocks::new(alloc, width),
            alloc,
            first_open: 0,
            next: 0,
            used: 0,
            count: 0,
        }
    }

    /// How many bytes a tuple has, 1 to 8,192.
    pub fn width(&self) -> u32
        ensures value { result ≡ self.now.width }
        ensures some { 0 < result }
        ensures limit { result ≤ MAX_WIDTH }
    {
        self.cow.width()
    }

    /// How many tuples there are, in constant time.
    pub fn len(&self) -> u32
        ensures { result ≡ row_count self.now }
    {
        self.count
    }

    /// Whether there are none.
    pub fn is_empty(&self) -> bool
        ensures { IsTrue result ↔ (row_count self.now ≡ 0) }
    {
        self.count == 0
    }

    /// How many blocks there are up to the last that holds a tuple.
    pub fn blocks(&self) -> u32
        ensures { result ≡ div_ceil (used_places self.now.slots) 64 }
    {
        match rows::last_held(&self.cow, self.used) {
            Some(p) => p / 64 + 1,
            None => 0,
        }
    }

    /// Whether there is a place of this number, held or free.
    pub fn has_place(&self, p: Place) -> bool
        ensures { IsTrue result ↔ (p < length self.now.slots) }
    {
        p.number() / 64 < self.cow.len()
    }

    /// The tuple at a place, or `None` where it is free or there is no such place.
    pub fn get(&self, p: Place) -> Option<&[u8]>
        ensures tuple { option_copied result ≡ row_at self.now p }
        ensures width { IfSome result (λ t. length t.now ≡ self.now.width) }
    {
        rows::get(&self.cow, p.number())
    }

    /// The places that hold tuples, in order.
    pub fn places(&self) -> Places<'_>
        ensures { result ≡ held_places self.now }
    {
        Places::of(&self.cow)
    }

    /// Puts a tuple of the pane's width at a place that was free. A block is added only where at most
    /// one place in 64 is free, and never beyond 2^22 blocks: one more is answered as out of memory. Out
    /// of memory, the rows are as before.
    ///
    /// It takes constant time, averaged over all calls of `add` and `compact`, but for blocks that are
    /// added or copied. Where there are 2^22 blocks, a call may look through all of them.
    pub fn add(&mut self, tuple: &[u8]) -> Result<Place, AllocError>
        requires { length tuple.now ≡ self.old.width }
        ensures free { IfOk result (λ p. row_at self.old p ≡ None) }
        ensures added { IfOk result (λ p. self.new ≡ with_row (with_place self.old p) p (Some tuple.now)) }
        ensures held { IfOk result (λ p. row_at self.new p ≡ Some tuple.now) }
        ensures crowded { IfOk result (λ p. length self.old.slots ≤ p → IsCrowded self.old) }
        ensures kept { OnErr result (self.new ≡ self.old) }
    {
        match self.free_place() {
            Some(p) => self.add_at(p, tuple),
            None => self.add_behind(tuple),
        }
    }

    /// Puts a tuple of the pane's width at a place that the pane has, over what was there, if anything.
    /// Out of memory, the rows are as before.
    pub fn put(&mut self, p: Place, tuple: &[u8]) -> Result<(), AllocError>
        requires place { p < length self.old.slots }
        requires width { length tuple.now ≡ self.old.width }
        ensures put { OnOk result (self.new ≡ with_row self.old p (Some tuple.now)) }
        ensures kept { OnErr result (self.new ≡ self.old) }
    {
        let p = p.number();
        let was_free = rows::get(&self.cow, p).is_none();
        rows::fill::<Brand>(&mut self.cow, p, tuple, Blank::new(1))?;
        if was_free {
            self.count += 1;
            self.used = self.used.max(p / 64 + 1);
        }
        Ok(())
    }

    /// Frees a place that holds a tuple. Out of memory, the rows are as before.
    pub fn take(&mut self, p: Place) -> Result<(), AllocError>
        requires { IsSome (row_at self.old p) }
        ensures taken { OnOk result (self.new ≡ with_row self.old p None) }
        ensures kept { OnErr result (self.new ≡ self.old) }
    {
        let p = p.number();
        rows::clear::<Brand>(&mut self.cow, p, Blank::new(1))?;
        self.count -= 1;
        self.first_open = self.first_open.min(p / 64);
        Ok(())
    }

    /// The place of the last tuple and the first free place, where that is before it. `None` comes
    /// exactly where no place before a tuple is free: then the n tuples stand at the first n places. It
    /// takes no memory.
    pub fn next_move(&mut self) -> Option<(Place, Place)>
        ensures kept { self.new ≡ self.old }
        ensures found { MatchOption result (IsDense self.old) (λ m. CanMove self.old m.0 m.1) }
    {
        let (from, to) = self.ends()?;
        Some((Place::new(from), Place::new(to)))
    }

    /// Moves a tuple to a free place before it. Out of memory, the rows are as before.
    pub fn shift(&mut self, from: Place, to: Place) -> Result<(), AllocError>
        requires before { to < from }
        requires held { IsSome (row_at self.old from) }
        requires free { row_at self.old to ≡ None }
        ensures moved { OnOk result (self.new ≡ with_moved self.old from to) }
        ensures kept { OnErr result (self.new ≡ self.old) }
    {
        let (from, to) = (from.number(), to.number());
        rows::shift::<Brand>(self.alloc, &mut self.cow, from, to, Blank::new(1))?;
        Ok(())
    }

    /// Moves the last tuple to the first free place, as `next_move` tells them, and tells the old place
    /// and the new one. Out of memory, the rows are as before.
    pub fn compact(&mut self) -> Result<Option<(Place, Place)>, AllocError>
        ensures moved { IfOk result (λ m. IfSome m (λ pair. IsMoved self.old self.new pair.0 pair.1)) }
        // The last tuple then stands at an earlier place, so that a loop over it ends.
        ensures shrinks { IfOk result (λ m. IfSome m
            (λ _. used_places self.new.slots < used_places self.old.slots)) }
        ensures packed { IfOk result (λ m. IfNone m ((self.new ≡ self.old) × IsPacked self.old)) }
        ensures dense { IfOk result (λ m. IfNone m (used_places self.old.slots ≡ row_count self.old)) }
        ensures kept { OnErr result (self.new ≡ self.old) }
    {
        let Some((from, to)) = self.next_move() else {
            return Ok(None);
        };
        self.shift(from, to)?;
        Ok(Some((from, to)))
    }

    /// A scan of all blocks, whose rows are as they stand now whatever is written later. The rows are
    /// the same after it, also where it runs out of memory.
    pub fn share(&mut self) -> Result<CowScan, AllocError>
        ensures scan { IfOk result (Hold self.old) }
        ensures kept { self.new ≡ self.old }
    {
        self.cow.share()
    }

    // A free place: from the block on where the last one was found, and then, where that is worth a
    // round, from the first block on that isn't full. A round finds more places than it passes blocks,
    // so the time of a call of `add` is constant on average.
    fn free_place(&self) -> Option<u32>
        ensures { MatchOption result (IsCrowded self.now) (IsFreePlace self.now) }
    {
        match rows::first_free(&self.cow, self.next, self.cow.len()) {
            Some(p) => Some(p),
            None if !self.is_worth_a_round() => None,
            None => rows::first_free(&self.cow, self.first_open, self.next),
        }
    }

    // Whether more than one place in 64 is free, or any where no block may be added.
    fn is_worth_a_round(&self) -> bool
        ensures { result ≡ false → IsCrowded self.now }
    {
        let blocks = self.cow.len();
        let free = blocks * 64 - self.count;
        free > blocks || (blocks == MAX_BLOCKS && free > 0)
    }

    fn add_at(&mut self, p: u32, tuple: &[u8]) -> Result<Place, AllocError>
        requires free { IsFreePlace self.old p }
        requires width { length tuple.now ≡ self.old.width }
        ensures place { IfOk result (λ q. q ≡ p) }
        ensures added { OnOk result (self.new ≡ with_row self.old p (Some tuple.now)) }
        ensures kept { OnErr result (self.new ≡ self.old) }
    {
        rows::fill::<Brand>(&mut self.cow, p, tuple, Blank::new(1))?;
        self.count += 1;
        self.used = self.used.max(p / 64 + 1);
        self.next = p / 64;
        Ok(Place::new(p))
    }

    fn add_behind(&mut self, tuple: &[u8]) -> Result<Place, AllocError>
        requires { length tuple.now ≡ self.old.width }
        ensures place { IfOk result (λ p. p ≡ length self.old.slots) }
        ensures added { IfOk result (λ p. self.new ≡ with_row (with_place self.old p) p (Some tuple.now)) }
        ensures held { IfOk result (λ p. row_at self.new p ≡ Some tuple.now) }
        ensures kept { OnErr result (self.new ≡ self.old) }
    {
        if self.cow.len() == MAX_BLOCKS {
            return Err(AllocError);
        }
        let p = rows::add_block::<Brand>(&mut self.cow, tuple, Blank::new(1))?;
        self.count += 1;
        self.used = p / 64 + 1;
        self.next = p / 64;
        Ok(Place::new(p))
    }

    // The numbers of the places that `next_move` tells.
    fn ends(&mut self) -> Option<(u32, u32)>
        ensures limit { IfSome result (λ m. m.0 < 268435456) }
        ensures kept { self.new ≡ self.old }
        ensures found { MatchOption result (IsDense self.old) (λ m. CanMove self.old m.0 m.1) }
    {
        let to = rows::first_free(&self.cow, self.first_open, self.used);
        let from = rows::last_held(&self.cow, self.used);
        self.first_open = to.map_or(self.used, |p| p / 64);
        self.used = from.map_or(0, |p| p / 64 + 1);
        let found = move_back(from, to);
        if found.is_none() {
            self.next = self.first_open;
        }
        found
    }
}

// The two places, where there are two and the second is before the first.
fn move_back(from: Option<u32>, to: Option<u32>) -> Option<(u32, u32)>
    ensures { result ≡ move_of from to }
{
    match (from, to) {
        (Some(from), Some(to)) if to < from => Some((from, to)),
        _ => None,
    }
}
