//! The log: batches behind gates.
ghost use Rattle.std.specs.Prelude.{◌≡◌, ◌≢◌, ◌+◌, ◌<◌, ◌≤◌, ◌^◌, max, ℕ, [], ◌∷◌, ◌++◌, IsTrue, length, drop, OnOk, OnErr};
ghost use Rattle.volt_disk.specs.File.{seen, settled};
ghost use Rattle.volt_disk.specs.Effects.{lengthened, overwritten, write_asked, after_write, synced, FailsAs};
ghost use Rattle.volt_base.specs.Spelling.{body_bytes};
ghost use Rattle.gate_log.specs.Batches.{batches};
ghost use Rattle.gate_log.specs.Log.{IsReady, EachImage, HoldsAlways, HoldsWithOrWithout, KeepsPrefix};
ghost use Rattle.gate_log.specs.Calls.{MakesCalls};
ghost use Rattle.volt_disk.specs.declared.listing.Listing.TheVariants.{Kept};

use volt_disk::disk::{Disk, DiskFailed};

/// The gate of an open batch. With any other byte it is closed.
pub(crate) const OPEN: u8 = 0xa5;

/// A log of batches in one file of a disk. All its calls are given the same disk.
///
/// After a call that failed it may only be dropped.
#[derive(Debug, Drop)]
pub struct GateLog {
    pub(crate) file: u64,
    // Where the next batch goes.
    pub(crate) end: u64,
    // The length of the file.
    pub(crate) size: u64,
}

impl GateLog {
    /// How many bytes its batches take: the place of the next one.
    pub fn end(&self) -> u64
        ensures { result ≡ self.now.end }
    {
        self.end
    }

    /// Appends a batch. Its first four bytes are room for the length of its body, which are the
    /// others: the call writes them there.
    ///
    /// It makes five calls of the disk: it grows the file as far as the batch needs, writes length
    /// and body behind the closed gate, syncs, opens the gate, and syncs. So after `Ok` the file
    /// holds the batch as its last, whatever a crash leaves of it. After an `Err` it holds the batches
    /// before, with the new one or without it, and it may be opened again. It takes no memory.
    pub fn append<D: Disk>(&mut self, disk: &mut D, batch: &mut [u8]) -> Result<(), DiskFailed>
        requires ready { IsTrue D.tells → IsReady self.old (D.told disk.old self.old.file) }
        requires length { 4 ≤ length batch.old }
        requires body { length batch.old < 2 ^ 32 + 4 }
        requires place { self.old.end + 1 + length batch.old < 2 ^ 64 }

        // What the file holds, whatever a crash leaves of it.
        ensures written { OnOk result (IsTrue D.tells
            → HoldsAlways (batches (seen (D.told disk.old self.old.file)) ++ drop 4 batch.old ∷ []) (D.told disk.new self.old.file)) }
        ensures partly { OnErr result (IsTrue D.tells
            → HoldsWithOrWithout (batches (seen (D.told disk.old self.old.file))) (drop 4 batch.old) (D.told disk.new self.old.file)) }

        // The file is as long as the batch needs, and stays in the folder's list.
        ensures len { OnOk result (IsTrue D.tells → length (seen (D.told disk.new self.old.file))
            ≡ max (length (seen (D.told disk.old self.old.file))) (self.old.end + 1 + length batch.old)) }
        ensures no_longer { OnErr result (IsTrue D.tells → (D.told disk.new self.old.file).most
            ≤ max (length (seen (D.told disk.old self.old.file))) (self.old.end + 1 + length batch.old)) }
        ensures listed { IsTrue D.tells → (D.told disk.new self.old.file).listing ≡ Kept }

        // The log after it.
        ensures ready { OnOk result (IsTrue D.tells → IsReady self.new (D.told disk.new self.new.file)) }
        ensures file { self.new.file ≡ self.old.file }
        ensures ends { OnOk result (self.new.end ≡ self.old.end + 1 + length batch.old) }
        ensures failed { OnErr result (self.new ≡ self.old) }
        ensures batch { batch.new ≡ body_bytes (drop 4 batch.old) }

        // The disk.
        ensures others { IsTrue D.tells → (n : ℕ) → n ≢ self.old.file → D.told disk.new n ≡ D.told disk.old n }
        ensures calls { MakesCalls 5 result (D.power disk.old) (D.power disk.new) (D.count disk.old) (D.count disk.new) }
    {
        put_length(batch);
        let end = self.end + 1 + batch.len() as u64;
        let size = self.size.max(end);
        write_behind_gate(disk, self.file, self.end, size, batch)?;
        write_gate(disk, self.file, self.end, OPEN)?;
        self.end = end;
        self.size = size;
        Ok(())
    }
}

// Puts the length of the body into the first four bytes.
fn put_length(batch: &mut [u8])
    requires length { 4 ≤ length batch.old }
    requires body { length batch.old < 2 ^ 32 + 4 }
    ensures spelled { batch.new ≡ body_bytes (drop 4 batch.old) }
    ensures kept { drop 4 batch.new ≡ drop 4 batch.old }
    ensures len { length batch.new ≡ length batch.old }
{
    let len = (batch.len() - 4) as u32;
    batch[..4].copy_from_slice(&len.to_be_bytes());
}

// Grows a file of which a crash leaves exactly its bytes, writes to it behind the gate at a place,
// and syncs.
fn write_behind_gate<D: Disk>(
    disk: &mut D,
    file: u64,
    gate: u64,
    size: u64,
    bytes: &[u8],
) -> Result<(), DiskFailed>
    requires durable { IsTrue D.tells → D.told disk.old file ≡ settled (D.told disk.old file).bytes }
    requires grows { IsTrue D.tells → length (D.told disk.old file).bytes ≤ size }
    requires within { gate + 1 + length bytes.now ≤ size }

    ensures written { OnOk result (IsTrue D.tells → D.told disk.new file
        ≡ settled (overwritten (gate + 1) bytes.now (lengthened size (D.told disk.old file).bytes))) }
    ensures partly { OnErr result (IsTrue D.tells
        → EachImage (D.told disk.new file) (KeepsPrefix (gate + 1) (D.told disk.old file).bytes)) }
    ensures no_longer { OnErr result (IsTrue D.tells → (D.told disk.new file).most ≤ size) }
    ensures listed { IsTrue D.tells → (D.told disk.new file).listing ≡ Kept }

    ensures others { IsTrue D.tells → (n : ℕ) → n ≢ file → D.told disk.new n ≡ D.told disk.old n }
    ensures calls { MakesCalls 3 result (D.power disk.old) (D.power disk.new) (D.count disk.old) (D.count disk.new) }
{
    disk.grow(file, size)?;
    write_and_sync(disk, file, gate + 1, bytes)
}

// Writes the gate at a place of a file of which a crash leaves exactly its bytes, and syncs.
pub(crate) fn write_gate<D: Disk>(
    disk: &mut D,
    file: u64,
    gate: u64,
    byte: u8,
) -> Result<(), DiskFailed>
    requires durable { IsTrue D.tells → D.told disk.old file ≡ settled (D.told disk.old file).bytes }
    requires within { IsTrue D.tells → gate < length (D.told disk.old file).bytes }

    ensures written { OnOk result (IsTrue D.tells → D.told disk.new file
        ≡ settled (overwritten gate (byte ∷ []) (D.told disk.old file).bytes)) }
    ensures partly { OnErr result (IsTrue D.tells → EachImage (D.told disk.new file)
        (λ image. (any : ℕ) × (image ≡ overwritten gate (any ∷ []) (D.told disk.old file).bytes))) }
    ensures no_longer { OnErr result (IsTrue D.tells → (D.told disk.new file).most ≤ length (D.told disk.old file).bytes) }
    ensures listed { IsTrue D.tells → (D.told disk.new file).listing ≡ Kept }

    ensures others { IsTrue D.tells → (n : ℕ) → n ≢ file → D.told disk.new n ≡ D.told disk.old n }
    ensures calls { MakesCalls 2 result (D.power disk.old) (D.power disk.new) (D.count disk.old) (D.count disk.new) }
{
    write_and_sync(disk, file, gate, &[byte])
}

// Writes to a file, and syncs.
pub(crate) fn write_and_sync<D: Disk>(
    disk: &mut D,
    file: u64,
    at: u64,
    bytes: &[u8],
) -> Result<(), DiskFailed>
    requires { IsTrue D.tells → at + length bytes.now ≤ length (seen (D.told disk.old file)) }

    ensures written { OnOk result (IsTrue D.tells
        → D.told disk.new file ≡ synced (after_write at bytes.now (D.told disk.old file))) }
    ensures failed { OnErr result (IsTrue D.tells → FailsAs (D.told disk.old file)
        (write_asked at (length bytes.now) (D.told disk.old file)) (after_write at bytes.now (D.told disk.old file))
        (D.told disk.new file)) }

    ensures others { IsTrue D.tells → (n : ℕ) → n ≢ file → D.told disk.new n ≡ D.told disk.old n }
    ensures calls { MakesCalls 2 result (D.power disk.old) (D.power disk.new) (D.count disk.old) (D.count disk.new) }
{
    disk.write_at(file, at, bytes)?;
    disk.sync(file)
}
