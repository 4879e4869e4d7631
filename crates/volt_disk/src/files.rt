//! The files of the disk in memory, by their numbers.
ghost use Rattle.std.specs.Prelude.{◌≡◌, ℕ, OnOk, OnErr};
ghost use Rattle.volt_disk.specs.File.{IsImage, seen};
ghost use Rattle.volt_disk.specs.Effects.{CanChange, CyclesTo};
ghost use Rattle.volt_disk.specs.Stored.{stored_at, with_file, changed, with_synced, all_names_synced, all_lost};

use crate::change::Change;
use crate::stored::MemFile;
use std::alloc::{AllocError, Global};
use std::collections::BTreeMap;

/// What a read gives of a file.
pub fn seen_of<'a>(files: &'a BTreeMap<u64, MemFile>, number: u64) -> &'a [u8]
    ensures { result.now ≡ seen (stored_at number files.now.entries).file }
{
    match files.get(&number) {
        Some(file) => file.seen(),
        None => &[],
    }
}

/// Makes a change of a file, or counts it as asked for. A file that isn't there is put among the
/// others.
pub fn change(
    alloc: Global,
    files: &mut BTreeMap<u64, MemFile>,
    number: u64,
    change: &Change,
    is_made: bool,
) -> Result<(), AllocError>
    requires { CanChange change.now (stored_at number files.old.entries).file.bytes }
    ensures ok { OnOk result (files.new.entries
        ≡ with_file number (changed is_made change.now (stored_at number files.old.entries)) files.old.entries) }
    ensures err { OnErr result (files.new.entries ≡ files.old.entries) }
{
    match files.get_mut(&number) {
        Some(file) => file.change(alloc, change, is_made),
        None => {
            let mut file = MemFile::new(alloc);
            file.change(alloc, change, is_made)?;
            match files.insert(number, file) {
                Ok(_) => Ok(()),
                Err(_) => Err(AllocError),
            }
        }
    }
}

/// Settles a file.
pub fn sync(files: &mut BTreeMap<u64, MemFile>, number: u64)
    ensures after { files.new.entries ≡ with_synced number files.old.entries }
    ensures image { IsImage (stored_at number files.old.entries).file (seen (stored_at number files.old.entries).file) }
{
    if let Some(file) = files.get_mut(&number) {
        file.sync();
    }
}

/// Settles which files are there.
pub fn sync_names(files: &mut BTreeMap<u64, MemFile>)
    ensures { files.new.entries ≡ all_names_synced files.old.entries }
{
    files.retain(|_, file| {
        file.sync_name();
        true
    });
}

/// All files after a loss of power with a choice.
pub fn lose(files: &mut BTreeMap<u64, MemFile>, choice: u64)
    ensures files { files.new.entries ≡ all_lost choice choice files.old.entries }
    ensures each { (n : ℕ) → CyclesTo (stored_at n files.old.entries).file (stored_at n files.new.entries).file }
{
    let mut x = choice;
    files.retain(|_, file| {
        x = file.lose(choice, x);
        true
    });
}
