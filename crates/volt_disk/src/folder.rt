//! A disk over real files, all in one folder. It is the edge to the environment: it tells no bytes,
//! and no clause says what a file gives or takes.
ghost use Rattle.std.specs.Prelude.{◌≡◌, ◌≤◌, false, is_ok};
ghost use Rattle.volt_base.specs.Faults.{Increased};
ghost use Rattle.volt_disk.specs.File.{no_file};
ghost use Rattle.volt_disk.specs.Folder.{new_folder, faulted_folder, called_folder};
ghost use Rattle.volt_disk.specs.Power.{planned, cycled, IsCounted};

use crate::disk::{Disk, DiskFailed};
use crate::power::{Fate, Power};
use std::alloc::Global;
use std::fs::{self, Files, OpenFile, OpenOptions};
use std::io::{self, ErrorKind, Read, Seek, SeekFrom, Write};
use std::marker::Model;

/// What a disk over real files counts.
#[derive(Clone, Copy, Debug, PartialEq, Eq)]
pub struct Tally {
    /// How many calls failed, up to the greatest `u64`.
    pub faults: u64,
    /// Whether it has power, and its plan for a loss.
    pub power: Power,
}

impl Tally {
    // Counts a fault.
    fn fault(&mut self) -> DiskFailed
        ensures after { self.new ≡ faulted_folder self.old }
        ensures increases { Increased self.old.faults self.new.faults }
        ensures never_falls { self.old.faults ≤ self.new.faults }
    {
        self.faults = self.faults.saturating_add(1);
        DiskFailed
    }

    // A counted call: with power it does its work, and a fault is counted where that fails.
    fn call<T: Drop, G: FnOnce() -> io::Result<T>>(&mut self, work: G) -> Result<T, DiskFailed>
        requires { G.IsAlwaysCallable work }
        ensures after { self.new ≡ called_folder (is_ok result) self.old }
        ensures counted { IsCounted result self.old.power self.new.power self.old.faults self.new.faults }
    {
        if self.power.count_call() != Fate::Works {
            return Err(self.fault());
        }
        match work() {
            Ok(value) => Ok(value),
            Err(_) => Err(self.fault()),
        }
    }
}

/// A disk over a runtime's files. File `n` is `n.vf` in the folder, made at its first growth. The
/// folder is there beforehand.
///
/// `sync` syncs the folder too, so that a file's name is kept with its bytes. At a planned loss of
/// power a call does nothing and fails, as each later one until `power_cycle`. A call outside of
/// its file fails, as one for which the system or memory fails; each of them counts as a fault.
///
/// A clause sees the count of its faults and its plan alone.
#[derive(Drop)]
pub struct FileDisk<F: Files + Send + Drop> {
    rt: F,
    alloc: Global,
    folder: String,
    tally: Tally,
}

impl<F: Files + Send + Drop> Model for FileDisk<F> {
    ghost use Rattle.volt_disk.specs.declared.folder.Tally.{Tally};

    ghost Value = { Tally };

    ghost view = { λ d. d.tally };
}

impl<F: Files + Send + Drop> FileDisk<F> {
    /// A disk over the files of a folder.
    pub fn new(alloc: Global, rt: F, folder: String) -> FileDisk<F>
        ensures { result ≡ new_folder }
    {
        FileDisk {
            rt,
            alloc,
            folder,
            tally: Tally {
                faults: 0,
                power: Power::new(),
            },
        }
    }
}

// The path of a file.
fn path_of(alloc: Global, folder: &String, file: u64) -> io::Result<String> {
    let folder = folder.as_str();
    match format!(in alloc; "{folder}/{file}.vf") {
        Ok(path) => Ok(path),
        Err(_) => Err(io::Error::from(ErrorKind::OutOfMemory)),
    }
}

fn beyond() -> io::Error {
    io::Error::from(ErrorKind::InvalidInput)
}

// Whether so many bytes from an offset on lie within a length.
fn fits(at: u64, len: usize, size: u64) -> bool {
    at <= size && len as u64 <= size - at
}

// The length of a file, 0 where it isn't there.
fn size_of<F: Files>(rt: &F, path: &str) -> io::Result<u64> {
    match fs::metadata(rt, path) {
        Ok(metadata) => Ok(metadata.len()),
        Err(error) => unless_missing(error).map(|()| 0),
    }
}

fn read_file<F: Files>(rt: &F, path: &str, at: u64, into: &mut [u8]) -> io::Result<()> {
    if !fits(at, into.len(), size_of(rt, path)?) {
        return Err(beyond());
    }
    if into.is_empty() {
        return Ok(());
    }
    let mut file = OpenOptions::new().read(true).open(rt, path)?;
    file.seek(SeekFrom::Start(at))?;
    file.read_exact(into)
}

fn grow_file<F: Files>(rt: &F, path: &str, to: u64) -> io::Result<()> {
    let file = OpenOptions::new().write(true).create(true).open(rt, path)?;
    if file.metadata()?.len() > to {
        return Err(beyond());
    }
    file.set_len(to)
}

fn write_file<F: Files>(rt: &F, path: &str, at: u64, bytes: &[u8]) -> io::Result<()> {
    if !fits(at, bytes.len(), size_of(rt, path)?) {
        return Err(beyond());
    }
    if bytes.is_empty() {
        return Ok(());
    }
    let mut file = OpenOptions::new().write(true).open(rt, path)?;
    file.seek(SeekFrom::Start(at))?;
    file.write_all(bytes)
}

// Syncs a file or a folder.
fn sync_path<F: Files>(rt: &F, path: &str) -> io::Result<()> {
    OpenOptions::new().read(true).open(rt, path)?.sync_all()
}

// What is asked of a file that isn't there is done.
fn unless_missing(error: io::Error) -> io::Result<()> {
    if error.kind() == ErrorKind::NotFound {
        Ok(())
    } else {
        Err(error)
    }
}

impl<F: Files + Send + Drop> Disk for FileDisk<F> {
    ghost tells = { false };

    ghost told = { λ _ _. no_file };

    ghost power = { λ d. d.power };

    ghost count = { λ d. d.faults };

    fn size(&mut self, file: u64) -> Result<u64, DiskFailed>
        ensures after { self.new ≡ called_folder (is_ok result) self.old }
        ensures counted { IsCounted result self.old.power self.new.power self.old.faults self.new.faults }
    {
        self.tally.call(|| size_of(&self.rt, path_of(self.alloc, &self.folder, file)?.as_str()))
    }

    fn read_at(&mut self, file: u64, at: u64, into: &mut [u8]) -> Result<(), DiskFailed>
        ensures after { self.new ≡ called_folder (is_ok result) self.old }
        ensures counted { IsCounted result self.old.power self.new.power self.old.faults self.new.faults }
    {
        self.tally.call(|| read_file(
            &self.rt,
            path_of(self.alloc, &self.folder, file)?.as_str(),
            at,
            into,
        ))
    }

    fn grow(&mut self, file: u64, to: u64) -> Result<(), DiskFailed>
        ensures after { self.new ≡ called_folder (is_ok result) self.old }
        ensures counted { IsCounted result self.old.power self.new.power self.old.faults self.new.faults }
    {
        self.tally.call(|| grow_file(
            &self.rt,
            path_of(self.alloc, &self.folder, file)?.as_str(),
            to,
        ))
    }

    fn write_at(&mut self, file: u64, at: u64, bytes: &[u8]) -> Result<(), DiskFailed>
        ensures after { self.new ≡ called_folder (is_ok result) self.old }
        ensures counted { IsCounted result self.old.power self.new.power self.old.faults self.new.faults }
    {
        self.tally.call(|| write_file(
            &self.rt,
            path_of(self.alloc, &self.folder, file)?.as_str(),
            at,
            bytes,
        ))
    }

    fn sync(&mut self, file: u64) -> Result<(), DiskFailed>
        ensures after { self.new ≡ called_folder (is_ok result) self.old }
        ensures counted { IsCounted result self.old.power self.new.power self.old.faults self.new.faults }
    {
        self.tally.call(|| {
            sync_path(&self.rt, path_of(self.alloc, &self.folder, file)?.as_str()).or_else(
                unless_missing,
            )?;
            sync_path(&self.rt, self.folder.as_str())
        })
    }

    fn remove(&mut self, file: u64) -> Result<(), DiskFailed>
        ensures after { self.new ≡ called_folder (is_ok result) self.old }
        ensures counted { IsCounted result self.old.power self.new.power self.old.faults self.new.faults }
    {
        self.tally.call(|| fs::remove_file(
            &self.rt,
            path_of(self.alloc, &self.folder, file)?.as_str(),
        ).or_else(unless_missing))
    }

    fn sync_names(&mut self) -> Result<(), DiskFailed>
        ensures after { self.new ≡ called_folder (is_ok result) self.old }
        ensures counted { IsCounted result self.old.power self.new.power self.old.faults self.new.faults }
    {
        self.tally
            .call(|| sync_path(&self.rt, self.folder.as_str()))
    }

    fn plan_cut(&mut self, call: u64, choice: u64)
        requires { 1 ≤ call }
        ensures { self.new ≡ record self.old { power = planned call choice self.old.power } }
    {
        self.tally.power.plan_cut(call, choice);
    }

    fn power_cycle(&mut self)
        ensures { self.new ≡ record self.old { power = cycled self.old.power } }
    {
        self.tally.power.cycle();
    }

    fn plans(&self) -> u64 {
        self.tally.power.plans
    }

    fn last_plan(&self) -> (u64, u64) {
        self.tally.power.last
    }

    fn faults(&self) -> u64 {
        self.tally.faults
    }
}
