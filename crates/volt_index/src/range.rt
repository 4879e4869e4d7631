//! A part of an index.

ghost use Rattle.std.specs.Iterator.{YieldsFirst, item_count};

use crate::entry::Entry;
use std::collections::btree_map::Range;
use std::marker::Model;

/// The places of the entries in a range of keys, in order of the keys and, of one key, of the
/// places. It is seen as the list of the places that are left. It takes no memory.
#[derive(Drop)]
pub struct IndexRange<'a> {
    pub(crate) left: Range<'a, Entry, u32>,
}

impl<'a> Model for IndexRange<'a> {
    ghost use Rattle.std.specs.Prelude.{List, ℕ, map};

    ghost Value = { List ℕ };

    ghost view = { λ r. map (λ e. e.1) r.left };
}

impl<'a> Iterator for IndexRange<'a> {
    type Item = u32;

    ghost next_gives = { YieldsFirst (λ places. places) };

    ghost remaining = { item_count (λ places. places) };

    fn next(&mut self) -> Option<u32> {
        match self.left.next() {
            Some((_, place)) => Some(*place),
            None => None,
        }
    }
}
