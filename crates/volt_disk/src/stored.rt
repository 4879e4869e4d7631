//! A file of the disk in memory, with what stood in it before each write since its last sync.
ghost use Rattle.std.specs.Prelude.{◌≡◌, ◌+◌, ◌-◌, ◌≤◌, [], length, slice_set, ◌^◌, ◌%◌, OnOk, OnErr};
ghost use Rattle.volt_disk.specs.File.{IsImage, seen};
ghost use Rattle.volt_disk.specs.Effects.{CanChange, lengthened, overwritten};
ghost use Rattle.volt_disk.specs.Stored.{Stored, not_stored, with_only, changed, stored_synced, stored_names_synced, cut_to, scattered, scattered_all, drawn, lost};
ghost use Rattle.volt_disk.specs.Undo.{AreWithin, undone, ranges};

use crate::change::Change;
use crate::draws::{draw, next};
use crate::listing::Listing;
use std::alloc::{AllocError, Global};
use std::marker::Model;

/// What stood in a range before it was written.
#[derive(Debug, Drop)]
struct Replaced {
    at: u64,
    bytes: Vec<u8>,
}

impl Model for Replaced {
    ghost use Rattle.std.specs.Prelude.{List, ℕ};

    ghost Value = { ℕ × List ℕ };

    ghost view = { λ r. (r.at, r.bytes.items) };
}

impl Replaced {
    // Puts the bytes back.
    fn put_back(&self, bytes: &mut Vec<u8>)
        requires { self.now.0 + length self.now.1 ≤ length bytes.old.items }
        ensures after { bytes.new.items ≡ overwritten self.now.0 self.now.1 bytes.old.items }
        ensures len { length bytes.new.items ≡ length bytes.old.items }
    {
        put(bytes, self.at as usize, &self.bytes);
    }

    // Gives each byte of the range the low byte of a draw, and gives the state after them.
    fn scatter(&self, bytes: &mut Vec<u8>, x: u64) -> u64
        requires { self.now.0 + length self.now.1 ≤ 2 ^ 64 - 1 }
        ensures bytes { bytes.new.items ≡ (scattered (length self.now.1) self.now.0 (bytes.old.items, x)).0 }
        ensures state { result ≡ (scattered (length self.now.1) self.now.0 (bytes.old.items, x)).1 }
    {
        scatter(bytes, self.at as usize, self.bytes.len(), x)
    }
}

/// A file.
#[derive(Debug, Drop)]
pub struct MemFile {
    bytes: Vec<u8>,
    least: u64,
    most: u64,
    replaced: Vec<Replaced>,
    listing: Listing,
}

impl Model for MemFile {
    ghost use Rattle.std.specs.Prelude.{◌≤◌, length};
    ghost use Rattle.volt_disk.specs.Stored.{Stored};

    ghost Value = { Stored };

    ghost use Rattle.volt_disk.specs.Undo.{AreWithin, stored_of};

    ghost view = { λ f. stored_of f.bytes.items f.least f.most f.replaced.items f.listing };

    ghost invariant = { λ f. (f.least ≤ length f.bytes.items) × (length f.bytes.items ≤ f.most)
        × AreWithin (length f.bytes.items) f.replaced.items };
}

impl MemFile {
    /// A file that isn't there.
    pub fn new(alloc: Global) -> MemFile
        ensures { result ≡ not_stored }
    {
        MemFile {
            bytes: Vec::new(alloc),
            least: 0,
            most: 0,
            replaced: Vec::new(alloc),
            listing: Listing::Kept,
        }
    }

    /// What a read gives.
    pub fn seen(&self) -> &[u8]
        ensures { result.now ≡ seen self.now.file }
    {
        if self.listing == Listing::Removed {
            &[]
        } else {
            &self.bytes
        }
    }

    /// Makes a change, or counts it as asked for.
    pub fn change(
        &mut self,
        alloc: Global,
        change: &Change,
        is_made: bool,
    ) -> Result<(), AllocError>
        requires { CanChange change.now self.old.file.bytes }
        ensures ok { OnOk result (self.new ≡ changed is_made change.now self.old) }
        ensures err { OnErr result (self.new ≡ self.old) }
    {
        match change {
            Change::Grow { to } => self.grow(*to, is_made),
            Change::Write { at, bytes } => self.write(alloc, *at, bytes, is_made),
            Change::Remove => {
                self.remove(is_made);
                Ok(())
            }
        }
    }

    // Adds zeros up to a length.
    fn grow(&mut self, to: u64, is_made: bool) -> Result<(), AllocError>
        requires { length self.old.file.bytes ≤ to }
        ensures ok { OnOk result (self.new ≡ changed is_made (Change.Grow to) self.old) }
        ensures err { OnErr result (self.new ≡ self.old) }
    {
        if is_made {
            lengthen(&mut self.bytes, to as usize)?;
        }
        self.most = self.most.max(to);
        Ok(())
    }

    // Puts bytes in their place.
    fn write(
        &mut self,
        alloc: Global,
        at: u64,
        bytes: &[u8],
        is_made: bool,
    ) -> Result<(), AllocError>
        requires { at + length bytes.now ≤ length self.old.file.bytes }
        ensures ok { OnOk result (self.new ≡ changed is_made (Change.Write at bytes.entry) self.old) }
        ensures err { OnErr result (self.new ≡ self.old) }
    {
        let start = at as usize;
        let before = Vec::from_slice(alloc, &self.bytes[start..start + bytes.len()])?;
        self.replaced.push(Replaced { at, bytes: before })?;
        if is_made {
            put(&mut self.bytes, start, bytes);
        }
        Ok(())
    }

    // Takes it out of sight.
    fn remove(&mut self, is_made: bool)
        ensures { self.new ≡ changed is_made Change.Remove self.old }
    {
        if is_made {
            self.listing = Listing::Removed;
        } else if self.listing == Listing::Kept {
            self.listing = Listing::Leaving;
        }
    }

    /// Settles what a read gives, unless it was removed.
    pub fn sync(&mut self)
        ensures after { self.new ≡ stored_synced self.old }
        ensures image { IsImage self.old.file (seen self.old.file) }
    {
        if self.listing != Listing::Removed {
            self.least = self.bytes.len() as u64;
            self.most = self.bytes.len() as u64;
            self.replaced.clear();
        }
    }

    /// Settles whether it is there.
    pub fn sync_name(&mut self)
        ensures { self.new ≡ stored_names_synced self.old }
    {
        match self.listing {
            Listing::Kept => {}
            Listing::Leaving => self.listing = Listing::Kept,
            Listing::Removed => self.empty(),
        }
    }

    // A crash leaves these bytes and no others.
    fn settle(&mut self)
        ensures { self.new ≡ with_only self.old.file.bytes }
    {
        self.replaced.clear();
        self.least = self.bytes.len() as u64;
        self.most = self.bytes.len() as u64;
        self.listing = Listing::Kept;
    }

    // It isn't there.
    fn empty(&mut self)
        ensures { self.new ≡ with_only [] }
    {
        self.bytes.clear();
        self.replaced.clear();
        self.least = 0;
        self.settle();
    }

    /// After a loss of power with a choice, where draws stand at `x`. Gives the state after them.
    pub fn lose(&mut self, choice: u64, x: u64) -> u64
        ensures after { self.new ≡ with_only (lost choice x self.old).0 }
        ensures state { result ≡ (lost choice x self.old).1 }
        ensures image { IsImage self.old.file (lost choice x self.old).0 }
    {
        if choice == 0 {
            self.go_back();
            x
        } else if choice == 1 {
            self.stay();
            x
        } else {
            self.draw(x)
        }
    }

    // It has the bytes of its last sync.
    fn go_back(&mut self)
        ensures after { self.new ≡ with_only self.old.last }
        ensures image { IsImage self.old.file self.old.last }
    {
        undo(&mut self.bytes, &mut self.replaced);
        self.bytes.truncate(self.least as usize);
        self.settle();
    }

    // It has what a read gave.
    fn stay(&mut self)
        ensures after { self.new ≡ with_only (seen self.old.file) }
        ensures image { IsImage self.old.file (seen self.old.file) }
    {
        if self.listing == Listing::Removed {
            self.empty();
        } else {
            self.settle();
        }
    }

    // It has an image by draws from `x`. Gives the state after them.
    fn draw(&mut self, x: u64) -> u64
        ensures after { self.new ≡ with_only (drawn x self.old.file).0 }
        ensures state { result ≡ (drawn x self.old.file).1 }
        ensures image { IsImage self.old.file (drawn x self.old.file).0 }
    {
        let x = cut_by_draw(&mut self.bytes, self.least as usize, x);
        let x = scatter_all(&mut self.bytes, &self.replaced, x);
        self.replaced.clear();
        self.settle();
        x
    }
}

// Puts a part in its place.
fn put(bytes: &mut Vec<u8>, at: usize, part: &[u8])
    requires { at + length part.now ≤ length bytes.old.items }
    ensures after { bytes.new.items ≡ overwritten at part.now bytes.old.items }
    ensures len { length bytes.new.items ≡ length bytes.old.items }
{
    bytes[at..at + part.len()].copy_from_slice(part);
}

// Takes the writes back, the last one first.
fn undo(bytes: &mut Vec<u8>, replaced: &mut Vec<Replaced>)
    requires { AreWithin (length bytes.old.items) replaced.old.items }
    ensures bytes { bytes.new.items ≡ undone replaced.old.items bytes.old.items }
    ensures len { length bytes.new.items ≡ length bytes.old.items }
    ensures none { replaced.new.items ≡ [] }
{
    while let Some(last) = replaced.pop() {
        last.put_back(bytes);
    }
}

// Where the length isn't settled, one draw gives it. Gives the state after it.
fn cut_by_draw(bytes: &mut Vec<u8>, least: usize, x: u64) -> u64
    requires { least ≤ length bytes.old.items }
    ensures bytes { bytes.new.items ≡ (cut_to least x bytes.old.items).0 }
    ensures state { result ≡ (cut_to least x bytes.old.items).1 }
{
    let len = bytes.len();
    if least == len {
        return x;
    }
    let x = next(x);
    bytes.truncate(least + draw(x) as usize % (len - least + 1));
    x
}

// Gives each byte of each range the low byte of a draw, and gives the state after them.
fn scatter_all(bytes: &mut Vec<u8>, replaced: &Vec<Replaced>, x: u64) -> u64
    requires { AreWithin (2 ^ 64 - 1) replaced.now.items }
    ensures bytes { bytes.new.items ≡ (scattered_all (ranges replaced.now.items) (bytes.old.items, x)).0 }
    ensures state { result ≡ (scattered_all (ranges replaced.now.items) (bytes.old.items, x)).1 }
{
    let mut state = x;
    for range in replaced {
        state = range.scatter(bytes, state);
    }
    state
}

// Gives each byte of a range the low byte of a draw, and gives the state after them. Draws behind
// the end are lost.
fn scatter(bytes: &mut Vec<u8>, at: usize, len: usize, x: u64) -> u64
    requires { at + len ≤ 2 ^ 64 - 1 }
    ensures bytes { bytes.new.items ≡ (scattered len at (bytes.old.items, x)).0 }
    ensures state { result ≡ (scattered len at (bytes.old.items, x)).1 }
{
    let mut state = x;
    for i in 0..len {
        state = next(state);
        set_if_within(bytes, at + i, low_byte(draw(state)));
    }
    state
}

// Sets a byte, unless it is behind the end.
#[tactic(auto, using(std::proofs::lemmas::List::set_past))]
fn set_if_within(bytes: &mut Vec<u8>, at: usize, byte: u8)
    ensures { bytes.new.items ≡ slice_set bytes.old.items at byte }
{
    if at < bytes.len() {
        bytes[at] = byte;
    }
}

fn low_byte(n: u64) -> u8
    ensures { result ≡ n % 2 ^ 8 }
{
    (n % 256) as u8
}

// Adds zeros up to a length.
fn lengthen(bytes: &mut Vec<u8>, to: usize) -> Result<(), AllocError>
    requires { length bytes.old.items ≤ to }
    ensures ok { OnOk result (bytes.new.items ≡ lengthened to bytes.old.items) }
    ensures len { OnOk result (length bytes.new.items ≡ to) }
    ensures err { OnErr result (bytes.new.items ≡ bytes.old.items) }
{
    bytes.resize(to, 0)
}
