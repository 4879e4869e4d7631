//! Opening a log and reading its batches.
ghost use Rattle.std.specs.Prelude.{◌≡◌, ◌≢◌, ◌+◌, ◌-◌, ◌<◌, ℕ, [], ◌∷◌, IsTrue, length, replicate, slice_index, vec_len, IfOk, OnOk, OnErr};
ghost use Rattle.volt_disk.specs.File.{seen, settled};
ghost use Rattle.volt_disk.specs.Effects.{overwritten, synced};
ghost use Rattle.volt_disk.specs.declared.disk.LogFault.{LogFault};
ghost use Rattle.volt_disk.specs.declared.listing.Listing.TheVariants.{Kept};
ghost use Rattle.gate_log.specs.Batches.{batches, open_gate};
ghost use Rattle.gate_log.specs.Log.{IsFound, IsCleared, IsReady, EachImage, HoldsAlways, HoldsAsBefore};
ghost use Rattle.gate_log.specs.Calls.{after_calls, MakesUpTo};

use crate::log::{GateLog, OPEN, write_and_sync, write_gate};
use crate::reading::{bodies_of, len_of_batches};
use std::alloc::{AllocError, Global};
use volt_base::Bytes;
use volt_disk::disk::{Disk, LogFault};

/// A closed gate.
const CLOSED: u8 = 0;

impl GateLog {
    /// Opens the log of a file, which may be empty or not be there. It first syncs the file, so that
    /// what it reads is what a crash leaves. At the first batch that isn't read it closes the gate,
    /// if that is open, and syncs; then it writes zeros from behind that gate to the end of the file,
    /// and syncs. So no byte that stands there can count as a batch once a later one is appended.
    ///
    /// After `Ok` the file holds the batches that a read gave before, whatever a crash leaves of it,
    /// and it is as long as before. After an `Err` too it holds batches that a crash might have left
    /// before the call, and it may be opened again. Where it ran out of memory the file was synced,
    /// and nothing was written.
    pub fn open<D: Disk>(alloc: Global, disk: &mut D, file: u64) -> Result<GateLog, LogFault>
        requires listed { IsTrue D.tells → (D.told disk.old file).listing ≡ Kept }

        ensures file { IfOk result (λ log. log.file ≡ file) }
        ensures ready { IfOk result (λ log. IsTrue D.tells → IsReady log (D.told disk.new file)) }
        ensures holds { OnOk result (IsTrue D.tells
            → HoldsAlways (batches (seen (D.told disk.old file))) (D.told disk.new file)) }
        ensures before { IsTrue D.tells → HoldsAsBefore (D.told disk.old file) (D.told disk.new file) }
        ensures unwritten { result ≡ Err LogFault.NoMemory → IsTrue D.tells
            → D.told disk.new file ≡ synced (D.told disk.old file) }
        ensures len { OnOk result (IsTrue D.tells
            → length (seen (D.told disk.new file)) ≡ length (seen (D.told disk.old file))) }
        ensures listed { IsTrue D.tells → (D.told disk.new file).listing ≡ Kept }

        ensures others { IsTrue D.tells → (n : ℕ) → n ≢ file → D.told disk.new n ≡ D.told disk.old n }
        ensures calls { MakesUpTo 7 result (D.power disk.old) (D.power disk.new) (D.count disk.old) (D.count disk.new) }
    {
        disk.sync(file)?;
        let bytes = read_file(alloc, disk, file)?;
        let end = len_of_batches(&bytes);
        clear_rest(alloc, disk, file, end, &bytes)?;
        Ok(GateLog {
            file,
            end: end as u64,
            size: bytes.len() as u64,
        })
    }

    /// Reads the bodies of all batches of a file, in two calls of the disk. It changes nothing.
    pub fn read_all<D: Disk>(alloc: Global, disk: &mut D, file: u64) -> Result<Vec<Bytes>, LogFault>
        ensures bodies { IfOk result (λ bodies. IsTrue D.tells
            → bodies.items ≡ batches (seen (D.told disk.old file))) }
        ensures same { IsTrue D.tells → (n : ℕ) → D.told disk.new n ≡ D.told disk.old n }

        ensures read { OnOk result (D.power disk.new ≡ after_calls 2 (D.power disk.old)) }
        ensures calls { MakesUpTo 2 result (D.power disk.old) (D.power disk.new) (D.count disk.old) (D.count disk.new) }
    {
        let bytes = read_file(alloc, disk, file)?;
        Ok(bodies_of(alloc, &bytes)?)
    }
}

// All bytes of a file.
fn read_file<D: Disk>(alloc: Global, disk: &mut D, file: u64) -> Result<Vec<u8>, LogFault>
    ensures bytes { IfOk result (λ bytes. IsTrue D.tells → bytes.items ≡ seen (D.told disk.old file)) }
    ensures same { IsTrue D.tells → (n : ℕ) → D.told disk.new n ≡ D.told disk.old n }

    ensures read { OnOk result (D.power disk.new ≡ after_calls 2 (D.power disk.old)) }
    ensures calls { MakesUpTo 2 result (D.power disk.old) (D.power disk.new) (D.count disk.old) (D.count disk.new) }
{
    let size = disk.size(file)?;
    let mut bytes = zeros(alloc, size as usize)?;
    disk.read_at(file, 0, &mut bytes)?;
    Ok(bytes)
}

// Closes the gate at a place and puts zeros behind it, where the file goes on there. A crash leaves
// exactly the file's bytes, which are these.
fn clear_rest<D: Disk>(
    alloc: Global,
    disk: &mut D,
    file: u64,
    end: usize,
    bytes: &[u8],
) -> Result<(), LogFault>
    requires durable { IsTrue D.tells → D.told disk.old file ≡ settled bytes.now }
    requires read { IsFound end bytes.now }

    ensures cleared { OnOk result (IsTrue D.tells → IsCleared end bytes.now (D.told disk.new file)) }
    ensures partly { OnErr result (IsTrue D.tells → HoldsAlways (batches bytes.now) (D.told disk.new file)) }
    ensures unwritten { result ≡ Err LogFault.NoMemory → IsTrue D.tells → D.told disk.new file ≡ D.told disk.old file }
    ensures listed { IsTrue D.tells → (D.told disk.new file).listing ≡ Kept }

    ensures others { IsTrue D.tells → (n : ℕ) → n ≢ file → D.told disk.new n ≡ D.told disk.old n }
    ensures calls { MakesUpTo 4 result (D.power disk.old) (D.power disk.new) (D.count disk.old) (D.count disk.new) }
{
    if end == bytes.len() {
        return Ok(());
    }
    let zeros = zeros(alloc, bytes.len() - end - 1)?;
    close_gate(disk, file, end, bytes)?;
    write_and_sync(disk, file, end as u64 + 1, &zeros)?;
    Ok(())
}

// Closes the gate at a place, if it is open, and syncs.
fn close_gate<D: Disk>(disk: &mut D, file: u64, gate: usize, bytes: &[u8]) -> Result<(), LogFault>
    requires durable { IsTrue D.tells → D.told disk.old file ≡ settled bytes.now }
    requires within { gate < length bytes.now }

    ensures closed { OnOk result (IsTrue D.tells → (byte : ℕ) × (byte ≢ open_gate)
        × (D.told disk.new file ≡ settled (overwritten gate (byte ∷ []) bytes.now))) }
    ensures partly { OnErr result (slice_index bytes.now gate ≡ open_gate) }
    ensures any { OnErr result (IsTrue D.tells → EachImage (D.told disk.new file)
        (λ image. (any : ℕ) × (image ≡ overwritten gate (any ∷ []) bytes.now))) }
    ensures listed { IsTrue D.tells → (D.told disk.new file).listing ≡ Kept }
    ensures failed { OnErr result (result ≡ Err LogFault.DiskFailed) }

    ensures others { IsTrue D.tells → (n : ℕ) → n ≢ file → D.told disk.new n ≡ D.told disk.old n }
    ensures calls { MakesUpTo 2 result (D.power disk.old) (D.power disk.new) (D.count disk.old) (D.count disk.new) }
{
    if bytes[gate] == OPEN {
        write_gate(disk, file, gate as u64, CLOSED)?;
    }
    Ok(())
}

fn zeros(alloc: Global, len: usize) -> Result<Vec<u8>, AllocError>
    ensures items { IfOk result (λ bytes. bytes.items ≡ replicate len 0) }
    ensures len { IfOk result (λ bytes. vec_len bytes ≡ len) }
{
    vec![in alloc; 0u8; len]
}
