//! The index.

ghost use Rattle.std.specs.Prelude.{◌≡◌, ℕ, ◌↔◌, ◌&&◌, if◌then◌else◌, List, true, false, None, Some, Ok, Err, is_some, length, OnOk, OnErr};
ghost use Rattle.std.specs.Option.{option_map};
ghost use Rattle.std.specs.BTreeMap.Range.{IsLeBy, IsLtBy, range_contains, entries_between};
ghost use Rattle.std.specs.Range.Bound.{IsForward, bound_map};
ghost use Rattle.volt_index.specs.Entries.{entry_cmp};
ghost use Rattle.std.specs.BTreeMap.{get, is_at, IsOrdered};
ghost use Rattle.std.specs.Map.{remove_entry, set_value};
ghost use Rattle.std.specs.declared.ops.Bound.TheVariants.{Included, Unbounded};
ghost use Rattle.volt_index.specs.Held.{tie_of, has_place, first_place};
ghost use Rattle.volt_index.specs.Index as index;
ghost use Rattle.volt_index.specs.Index.{IsIndex, with_entry, without_entry, with_place_at, holds, place_of, clash_of, is_from, is_before, places_between};

use crate::entry::Entry;
use crate::fault::IndexFault;
use crate::key::Key;
use crate::range::IndexRange;
use std::alloc::{AllocError, Global};
use std::collections::BTreeMap;
use std::marker::Model;
use std::ops::Bound;

/// An index: places by their keys. A place is a number, as of a row in a table. A unique index holds
/// each key at one place at most. Seen as its entries in order.
///
/// An insertion, a removal or a look-up costs the logarithm of the number of entries, however many
/// of them have one key.
#[derive(Drop)]
pub struct Index {
    alloc: Global,
    unique: bool,
    map: BTreeMap<Entry, u32>,
}

impl Model for Index {
    ghost use Rattle.volt_index.specs.Index.{Contents};

    ghost Value = { Contents };

    ghost use Rattle.volt_index.specs.Held.{contents_of, IsHeld};

    ghost view = { contents_of };

    ghost invariant = { IsHeld };
}

impl Index {
    /// An index without entries.
    pub fn new(alloc: Global, unique: bool) -> Index
        ensures { result ≡ index.nothing unique }
    {
        Index {
            alloc,
            unique,
            map: BTreeMap::new(alloc),
        }
    }

    /// The number of entries.
    pub fn len(&self) -> usize
        ensures count { result ≡ length self.now.entries }
        ensures rules { IsIndex self.now }
    {
        self.map.len()
    }

    /// The place at a key that a unique index holds, so that it takes no other.
    fn clash(&self, key: &Key) -> Option<u32>
        ensures { result ≡ clash_of self.now key.now }
    {
        if self.unique {
            self.map.get(&key.entry).copied()
        } else {
            None
        }
    }

    /// Puts a place at a key.
    fn put(&mut self, key: &Key, place: u32) -> Result<(), AllocError>
        requires { clash_of self.old key.now ≡ None }
        ensures put { OnOk result (self.new ≡ with_entry self.old key.now place) }
        ensures kept { OnErr result (self.new ≡ self.old) }
    {
        let entry = key.entry.tied(self.alloc, tie(self.unique, place))?;
        self.map.insert(entry, place)?;
        Ok(())
    }

    /// Puts a place at a key. `Duplicate` comes exactly where the index is unique and holds the key,
    /// and tells at which place. An entry that is there already stays. A refusal leaves the index as
    /// it was.
    pub fn insert(&mut self, key: &Key, place: u32) -> Result<(), IndexFault>
        ensures inserted { OnOk result (self.new ≡ with_entry self.old key.now place) }
        ensures duplicate { (held : ℕ) → (result ≡ Err (IndexFault.Duplicate held)) ↔ (clash_of self.old key.now ≡ Some held) }
        ensures fresh { OnOk result (clash_of self.old key.now ≡ None) }
        ensures kept { OnErr result (self.new ≡ self.old) }
    {
        match self.clash(key) {
            Some(held) => Err(IndexFault::Duplicate(held)),
            None => Ok(self.put(key, place)?),
        }
    }

    /// Takes a place from a key, and answers whether the key held it. The key is as before. It takes
    /// no memory.
    pub fn remove(&mut self, key: &mut Key, place: u32) -> bool
        ensures held { result ≡ holds self.old key.old place }
        ensures removed { self.new ≡ without_entry self.old key.old place }
        ensures key { key.new ≡ key.old }
    {
        if self.unique {
            take_unique(&mut self.map, &key.entry, place)
        } else {
            take_plain(&mut self.map, &mut key.entry, place)
        }
    }

    /// Gives a key of a unique index another place, and answers whether the key had one. It takes no
    /// memory.
    pub fn set_place(&mut self, key: &Key, place: u32) -> bool
        requires { self.old.unique ≡ true }
        ensures held { result ≡ is_some (place_of self.old key.now) }
        ensures set { self.new ≡ with_place_at self.old key.now place }
    {
        set_unique(&mut self.map, &key.entry, place)
    }

    /// The place at a key, the least where there are several. `None` exactly where the key isn't
    /// held. It takes no memory.
    pub fn get(&self, key: &Key) -> Option<u32>
        ensures { result ≡ place_of self.now key.now }
    {
        if self.unique {
            self.map.get(&key.entry).copied()
        } else {
            first_at(&self.map, &key.entry)
        }
    }

    /// The places at the keys from one on, which counts, and before another, which doesn't, in order.
    /// A missing key bounds nothing. It takes no memory, and costs what it gives.
    pub fn range(&self, from: Option<&Key>, to: Option<&Key>) -> IndexRange<'_>
        ensures { result ≡ places_between (option_map (λ key. key.now) from.entry) (option_map (λ key. key.now) to.entry) self.now }
    {
        IndexRange {
            left: self.map.range(bounds(from, to)),
        }
    }
}

/// What tells a place apart from others at its key, of which a unique index has none.
fn tie(unique: bool, place: u32) -> u32
    ensures { result ≡ tie_of unique place }
{
    if unique { 0 } else { place }
}

/// Takes the entry of a key from a unique index's map, where it has this place.
fn take_unique(map: &mut BTreeMap<Entry, u32>, entry: &Entry, place: u32) -> bool
    ensures held { result ≡ has_place place (get entry_cmp map.old entry.now) }
    ensures entries { map.new.entries ≡ (if result then remove_entry (is_at (entry_cmp entry.now)) map.old.entries else map.old.entries) }
    ensures ordered { IsOrdered entry_cmp map.old }
{
    let _ordered = map.len();
    match map.get(entry) {
        Some(held) if *held == place => map.remove(entry).is_some(),
        _ => false,
    }
}

/// Gives the entry of a key in a unique index's map another place, where there is one.
fn set_unique(map: &mut BTreeMap<Entry, u32>, entry: &Entry, place: u32) -> bool
    ensures held { result ≡ is_some (get entry_cmp map.old entry.now) }
    ensures entries { map.new.entries ≡ set_value (is_at (entry_cmp entry.now)) map.old.entries place }
{
    match map.get_mut(entry) {
        Some(held) => {
            *held = place;
            true
        }
        None => false,
    }
}

/// Takes a place at a key from a plain index's map.
fn take_plain(map: &mut BTreeMap<Entry, u32>, entry: &mut Entry, place: u32) -> bool
    requires { entry.old.1 ≡ 0 }
    ensures held { result ≡ is_some (get entry_cmp map.old (entry.old.0, place)) }
    ensures entries { map.new.entries ≡ remove_entry (is_at (entry_cmp (entry.old.0, place))) map.old.entries }
    ensures entry { entry.new ≡ entry.old }
{
    entry.tie = place;
    let held = map.remove(&*entry).is_some();
    entry.tie = 0;
    held
}

/// The least place at a key in a plain index's map.
fn first_at(map: &BTreeMap<Entry, u32>, entry: &Entry) -> Option<u32>
    requires { entry.now.1 ≡ 0 }
    ensures first { result ≡ first_place entry.now.0 (entries_between entry_cmp (Included entry.now) Unbounded map.now.entries) }
    ensures ordered { IsOrdered entry_cmp map.now }
{
    let mut from = map.range((Bound::Included(entry), Bound::Unbounded));
    let (first, place) = from.next()?;
    if first.has_bytes_of(entry) {
        Some(*place)
    } else {
        None
    }
}

/// The bounds of a range of keys among the map's. They are in order, also where the keys are not.
fn bounds<'a>(from: Option<&'a Key>, to: Option<&'a Key>) -> (Bound<&'a Entry>, Bound<&'a Entry>)
    ensures forward { IsForward (IsLeBy entry_cmp) (IsLtBy entry_cmp) (bound_map (λ e. e.now) result.0) (bound_map (λ e. e.now) result.1) }
    ensures contains { (key : List ℕ) (tie : ℕ)
        → range_contains entry_cmp (bound_map (λ e. e.now) result.0) (bound_map (λ e. e.now) result.1) (key, tie)
        ≡ (is_from (option_map (λ key. key.now) from.entry) key && is_before (option_map (λ key. key.now) to.entry) key) }
{
    match (from, to) {
        (None, None) => (Bound::Unbounded, Bound::Unbounded),
        (Some(from), None) => (Bound::Included(&from.entry), Bound::Unbounded),
        (None, Some(to)) => (Bound::Unbounded, Bound::Excluded(&to.entry)),
        (Some(from), Some(to)) => between(&from.entry, &to.entry),
    }
}

/// The bounds of a range between two entries, an empty one where the second is the lesser.
fn between<'a>(from: &'a Entry, to: &'a Entry) -> (Bound<&'a Entry>, Bound<&'a Entry>)
    requires from { from.now.1 ≡ 0 }
    requires to { to.now.1 ≡ 0 }
    ensures forward { IsForward (IsLeBy entry_cmp) (IsLtBy entry_cmp) (bound_map (λ e. e.now) result.0) (bound_map (λ e. e.now) result.1) }
    ensures contains { (key : List ℕ) (tie : ℕ)
        → range_contains entry_cmp (bound_map (λ e. e.now) result.0) (bound_map (λ e. e.now) result.1) (key, tie)
        ≡ (is_from (Some from.now.0) key && is_before (Some to.now.0) key) }
{
    if from <= to {
        (Bound::Included(from), Bound::Excluded(to))
    } else {
        (Bound::Included(to), Bound::Excluded(to))
    }
}
