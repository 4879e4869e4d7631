//! A disk in memory. It tells its bytes, fails as it is told to, and loses power as planned.
ghost use Rattle.std.specs.Prelude.{◌≡◌, ◌+◌, ◌≤◌, ℕ, true, length, slice_range, OnOk};
ghost use Rattle.volt_disk.specs.File.{IsImage, seen};
ghost use Rattle.volt_disk.specs.Effects.{CanChange, CyclesTo};
ghost use Rattle.volt_disk.specs.Power.{planned, IsCounted};
ghost use Rattle.volt_disk.specs.Stored.{with_synced, all_names_synced};
ghost use Rattle.volt_disk.specs.Memory.{Memory, empty_memory, told_of, turn_by, turn_of, answer_of, called, leaves, IsChange, power_cycled};
ghost use Rattle.volt_base.specs.Faults.{Increased, one_more};
ghost use Rattle.volt_disk.specs.declared.listing.Listing.TheVariants.{Kept};

use crate::change::Change;
use crate::disk::{Disk, DiskFailed};
use crate::files;
use crate::power::{Fate, Power};
use crate::stored::MemFile;
use std::alloc::{AllocError, Global};
use std::collections::BTreeMap;
use std::marker::Model;

/// What a call of a disk in memory meets.
#[derive(Clone, Copy, Debug, PartialEq, Eq)]
pub enum Turn {
    /// Nothing: it works where it finds memory.
    Done,
    /// Its number is one of those that fail.
    Numbered,
    /// A planned loss of power comes true.
    Lost,
    /// The disk has no power.
    Off,
}

impl Turn {
    fn of(fate: Fate, numbered: bool) -> Turn
        ensures { result ≡ turn_by fate numbered }
    {
        match fate {
            Fate::Dark => Turn::Off,
            Fate::Cut => Turn::Lost,
            Fate::Works => { if numbered { Turn::Numbered } else { Turn::Done } }
        }
    }
}

/// A disk in memory. It fails the calls whose numbers, from 1, it was given, those without power,
/// and else only those that find no memory for what it keeps. `size` to `sync_names` are counted,
/// the failed ones too.
///
/// A call that fails by its number changes nothing that a read gives. At a planned loss of power a
/// growth, a write and a removal have taken their effect, and a sync has not. A call that finds no
/// memory changes nothing.
///
/// The choice of a loss chooses the image that stays: 0 the bytes, lengths and files of the last
/// syncs, 1 what a read gives, and any other an image by draws that begin at it. A cycle without a
/// loss is one with the choice 1.
#[derive(Debug, Drop)]
pub struct MemDisk {
    alloc: Global,
    files: BTreeMap<u64, MemFile>,
    fail: Vec<u64>,
    call: u64,
    faults: u64,
    starved: u64,
    power: Power,
}

impl Model for MemDisk {
    ghost use Rattle.volt_disk.specs.Memory.{Memory};

    ghost Value = { Memory };

    ghost view = { λ d. record {
      files = d.files.entries;
      fail = d.fail.items;
      call = d.call;
      faults = d.faults;
      starved = d.starved;
      power = d.power;
    } };
}

impl MemDisk {
    /// A disk without files, of which the calls with these numbers, from 1, fail.
    pub fn new(alloc: Global, fail: Vec<u64>) -> MemDisk
        ensures { result ≡ empty_memory fail.items }
    {
        MemDisk {
            alloc,
            files: BTreeMap::new(alloc),
            fail,
            call: 1,
            faults: 0,
            starved: 0,
            power: Power::new(),
        }
    }

    /// How many calls found no memory so far. Each of them counts as a fault too.
    pub fn starved(&self) -> u64
        ensures { result ≡ self.now.starved }
    {
        self.starved
    }

    // Counts a call, and says what it meets.
    fn begin(&mut self) -> Turn
        ensures turn { result ≡ turn_of self.old }
        ensures after { self.new ≡ called self.old }
    {
        let numbered = self.fail.contains(&self.call);
        self.call = self.call.saturating_add(1);
        Turn::of(self.power.count_call(), numbered)
    }

    // Counts a fault.
    fn fault(&mut self) -> DiskFailed
        ensures after { self.new ≡ record self.old { faults = one_more self.old.faults } }
        ensures increases { Increased self.old.faults self.new.faults }
        ensures never_falls { self.old.faults ≤ self.new.faults }
    {
        self.faults = self.faults.saturating_add(1);
        DiskFailed
    }

    // A counted call that works or not by its turn alone.
    fn count(&mut self) -> Result<(), DiskFailed>
        ensures answer { result ≡ answer_of self.old tt }
        ensures after { self.new ≡ leaves self.old.files self.old }
        ensures counted { IsCounted result self.old.power self.new.power self.old.faults self.new.faults }
    {
        match self.begin() {
            Turn::Done => Ok(()),
            _ => Err(self.fault()),
        }
    }

    // A counted call that changes a file.
    fn change(&mut self, file: u64, change: &Change) -> Result<(), DiskFailed>
        requires { CanChange change.now (told_of self.old file).bytes }
        ensures exact { IsChange change.now file result self.old self.new }
        ensures counted { IsCounted result self.old.power self.new.power self.old.faults self.new.faults }
    {
        let turn = self.begin();
        if turn == Turn::Off {
            return Err(self.fault());
        }
        let is_made = turn != Turn::Numbered;
        match files::change(self.alloc, &mut self.files, file, change, is_made) {
            Ok(()) if turn == Turn::Done => Ok(()),
            Ok(()) => Err(self.fault()),
            Err(AllocError) => {
                self.starved = self.starved.saturating_add(1);
                Err(self.fault())
            }
        }
    }
}

impl Disk for MemDisk {
    ghost tells = { true };

    ghost told = { told_of };

    ghost power = { λ d. d.power };

    ghost count = { λ d. d.faults };

    fn size(&mut self, file: u64) -> Result<u64, DiskFailed>
        ensures answer { result ≡ answer_of self.old (length (seen (told_of self.old file))) }
        ensures after { self.new ≡ leaves self.old.files self.old }
        ensures counted { IsCounted result self.old.power self.new.power self.old.faults self.new.faults }
    {
        self.count()?;
        Ok(files::seen_of(&self.files, file).len() as u64)
    }

    fn read_at(&mut self, file: u64, at: u64, into: &mut [u8]) -> Result<(), DiskFailed>
        requires { at + length into.old ≤ length (seen (told_of self.old file)) }

        ensures answer { result ≡ answer_of self.old tt }
        ensures bytes { OnOk result (into.new ≡ slice_range (seen (told_of self.old file)) at (at + length into.old)) }
        ensures after { self.new ≡ leaves self.old.files self.old }
        ensures counted { IsCounted result self.old.power self.new.power self.old.faults self.new.faults }
    {
        self.count()?;
        let start = at as usize;
        let seen = files::seen_of(&self.files, file);
        into.copy_from_slice(&seen[start..start + into.len()]);
        Ok(())
    }

    fn grow(&mut self, file: u64, to: u64) -> Result<(), DiskFailed>
        requires listed { (told_of self.old file).listing ≡ Kept }
        requires no_shorter { length (seen (told_of self.old file)) ≤ to }

        ensures exact { IsChange (Change.Grow to) file result self.old self.new }
        ensures counted { IsCounted result self.old.power self.new.power self.old.faults self.new.faults }
    {
        self.change(file, &Change::Grow { to })
    }

    fn write_at(&mut self, file: u64, at: u64, bytes: &[u8]) -> Result<(), DiskFailed>
        requires { at + length bytes.now ≤ length (seen (told_of self.old file)) }

        ensures exact { IsChange (Change.Write at bytes.entry) file result self.old self.new }
        ensures counted { IsCounted result self.old.power self.new.power self.old.faults self.new.faults }
    {
        self.change(file, &Change::Write { at, bytes })
    }

    fn sync(&mut self, file: u64) -> Result<(), DiskFailed>
        ensures answer { result ≡ answer_of self.old tt }
        ensures after { self.new ≡ leaves (with_synced file self.old.files) self.old }
        ensures image { OnOk result (IsImage (told_of self.old file) (seen (told_of self.old file))) }
        ensures counted { IsCounted result self.old.power self.new.power self.old.faults self.new.faults }
    {
        self.count()?;
        files::sync(&mut self.files, file);
        Ok(())
    }

    fn remove(&mut self, file: u64) -> Result<(), DiskFailed>
        ensures exact { IsChange Change.Remove file result self.old self.new }
        ensures counted { IsCounted result self.old.power self.new.power self.old.faults self.new.faults }
    {
        self.change(file, &Change::Remove)
    }

    fn sync_names(&mut self) -> Result<(), DiskFailed>
        ensures answer { result ≡ answer_of self.old tt }
        ensures after { self.new ≡ leaves (all_names_synced self.old.files) self.old }
        ensures counted { IsCounted result self.old.power self.new.power self.old.faults self.new.faults }
    {
        self.count()?;
        files::sync_names(&mut self.files);
        Ok(())
    }

    fn plan_cut(&mut self, call: u64, choice: u64)
        requires { 1 ≤ call }
        ensures planned { self.new ≡ record self.old { power = planned call choice self.old.power } }
    {
        self.power.plan_cut(call, choice);
    }

    fn power_cycle(&mut self)
        ensures after { self.new ≡ power_cycled self.old }
        ensures image { (n : ℕ) → CyclesTo (told_of self.old n) (told_of self.new n) }
    {
        let choice = self.power.lost.unwrap_or(1);
        files::lose(&mut self.files, choice);
        self.power.cycle();
    }

    fn plans(&self) -> u64 {
        self.power.plans
    }

    fn last_plan(&self) -> (u64, u64) {
        self.power.last
    }

    fn faults(&self) -> u64 {
        self.faults
    }
}
