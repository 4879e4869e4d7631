//! Reads a base from a file of a disk.

ghost use Rattle.std.specs.Prelude.{◌≡◌, ℕ, IsTrue, replicate, vec_len, option_map, IfOk, OnOk};
ghost use Rattle.volt_disk.specs.File.{seen};
ghost use Rattle.gate_log.specs.Calls.{after_calls, MakesUpTo};
ghost use Rattle.snapshot_io.specs.Base.{base_with};
ghost use Rattle.snapshot_io.specs.Reading.{base_of};

use crate::base::read_bytes;
use crate::head::BaseHead;
use crate::reading::Unread;
use std::alloc::{AllocError, Global};
use volt_base::Bytes;
use volt_disk::disk::{Disk, LogFault};

fn zeros(alloc: Global, len: usize) -> Result<Vec<u8>, AllocError>
    ensures len { IfOk result (λ bytes. vec_len bytes ≡ len) }
{
    vec![in alloc; 0u8; len]
}

/// All bytes of a file.
pub(crate) fn read_file<D: Disk>(
    alloc: Global,
    disk: &mut D,
    file: u64,
) -> Result<Vec<u8>, LogFault>
    ensures bytes { IfOk result (λ bytes. IsTrue D.tells → bytes.items ≡ seen (D.told disk.old file)) }
    ensures same { IsTrue D.tells → (n : ℕ) → D.told disk.new n ≡ D.told disk.old n }

    ensures read { OnOk result (D.power disk.new ≡ after_calls 2 (D.power disk.old)) }
    ensures calls { MakesUpTo 2 result (D.power disk.old) (D.power disk.new) (D.count disk.old) (D.count disk.new) }
{
    let size = disk.size(file)?;
    let mut bytes = zeros(alloc, size as usize)?;
    disk.read_at(file, 0, &mut bytes)?;
    Ok(bytes)
}

/// The base that bytes are, if they are one.
fn find_base(alloc: Global, bytes: &[u8]) -> Result<Option<(BaseHead, Vec<Bytes>)>, AllocError>
    ensures { IfOk result (λ read. option_map (λ x. base_with x.0 x.1.items) read ≡ base_of bytes.now) }
{
    match read_bytes(alloc, bytes) {
        Ok(base) => Ok(Some(base)),
        Err(Unread::NoBase) => Ok(None),
        Err(Unread::NoMemory) => Err(AllocError),
    }
}

/// Reads the base of a file, of format 1 or 2, in two calls of the disk: its head, and its chunks,
/// each as its bytes. It changes nothing. `None` comes exactly where the file's bytes are no base.
pub fn read_base<D: Disk>(
    alloc: Global,
    disk: &mut D,
    file: u64,
) -> Result<Option<(BaseHead, Vec<Bytes>)>, LogFault>
    ensures base { IfOk result (λ read. IsTrue D.tells
        → option_map (λ x. base_with x.0 x.1.items) read ≡ base_of (seen (D.told disk.old file))) }
    ensures same { IsTrue D.tells → (n : ℕ) → D.told disk.new n ≡ D.told disk.old n }

    ensures read { OnOk result (D.power disk.new ≡ after_calls 2 (D.power disk.old)) }
    ensures calls { MakesUpTo 2 result (D.power disk.old) (D.power disk.new) (D.count disk.old) (D.count disk.new) }
{
    let bytes = read_file(alloc, disk, file)?;
    Ok(find_base(alloc, &bytes)?)
}
