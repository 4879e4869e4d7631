//! The places of a pane that hold tuples, one after another.

ghost use Rattle.std.specs.Prelude.{◌≡◌, ◌≤◌, length};
ghost use Rattle.std.specs.Iterator.{YieldsFirst, item_count};
ghost use Rattle.pane_index.specs.Rows.{held_from};
ghost use Rattle.pane_index.specs.Blocks.{all_slots, AreBlocksOf};

use crate::place::Place;
use crate::rows;
use cow_scan::CowBlocks;
use std::marker::Model;

/// The places from one on that hold tuples, in order, seen as their list. Each is found by the words
/// that tell which places of a block are held.
#[derive(Drop)]
pub struct Places<'a> {
    cow: &'a CowBlocks,
    at: u32,
}

impl<'a> Model for Places<'a> {
    ghost use Rattle.std.specs.Prelude.{ℕ, ◌≤◌, List, length, drop};
    ghost use Rattle.pane_index.specs.Rows.{held_from};
    ghost use Rattle.pane_index.specs.Blocks.{all_slots, AreBlocksOf};

    ghost Value = { List ℕ };

    ghost view = { λ s. held_from s.at (drop s.at (all_slots s.cow.now.blocks)) };

    ghost invariant = { λ s. AreBlocksOf s.cow.now.width s.cow.now.blocks × (length s.cow.now.blocks ≤ 4194304) };
}

impl<'a> Places<'a> {
    pub(crate) fn of(cow: &'a CowBlocks) -> Places<'a>
        requires are_blocks { AreBlocksOf cow.now.width cow.now.blocks }
        requires limit { length cow.now.blocks ≤ 4194304 }
        ensures { result ≡ held_from 0 (all_slots cow.now.blocks) }
    {
        Places { cow, at: 0 }
    }
}

impl<'a> Iterator for Places<'a> {
    type Item = Place;

    ghost next_gives = { YieldsFirst (λ s. s) };

    ghost remaining = { item_count (λ s. s) };

    fn next(&mut self) -> Option<Place> {
        let p = rows::next_held(self.cow, self.at)?;
        self.at = p + 1;
        Some(Place::new(p))
    }
}
