//! Writes a base block by block in a file of a disk.

ghost use Rattle.std.specs.Prelude.{◌≡◌, ◌≢◌, ◌+◌, ◌<◌, ◌≤◌, ◌^◌, ℕ, List, [], ◌∷◌, ◌++◌, Some, Err, IsTrue, length, IfOk, OnOk};
ghost use Rattle.volt_disk.specs.File.{seen, settled};
ghost use Rattle.volt_disk.specs.declared.disk.LogFault.{LogFault};
ghost use Rattle.volt_disk.specs.declared.listing.Listing.TheVariants.{Kept};
ghost use Rattle.gate_log.specs.Log.{EachImage};
ghost use Rattle.gate_log.specs.Calls.{after_calls, MakesCalls, MakesUpTo};
ghost use Rattle.snapshot_io.specs.Base.{Head, Base, head_of, end_mark, base_bytes, HeadFits, BaseFits, CanStart};
ghost use Rattle.snapshot_io.specs.Reading.{base_of};
ghost use Rattle.snapshot_io.specs.Writer.{IsAtEnd, HasBegun};

use crate::chunks::END_MARK;
use crate::head::BaseHead;
use crate::spelling::encode_head;
use std::alloc::Global;
use volt_disk::disk::{Disk, DiskFailed, LogFault};

/// A base under way in a file of a disk. All its calls are given the same disk.
///
/// Until `finish` answers `Ok` nothing is said of the file. After a call that failed the writer may
/// only be dropped, and the file removed.
#[derive(Debug, Drop)]
pub struct BaseWriter {
    pub(crate) file: u64,
    // How many bytes were written.
    pub(crate) end: u64,
}

impl BaseWriter {
    /// How many bytes were written: the place of the next one.
    pub fn end(&self) -> u64
        ensures { result ≡ self.now.end }
    {
        self.end
    }

    /// Begins a base of format 2 in a file that has no bytes or isn't there, with its head, in two
    /// calls of the disk. What is asked of the head `encode_head` says. Without memory the disk isn't
    /// called.
    pub fn start<D: Disk>(
        alloc: Global,
        disk: &mut D,
        file: u64,
        head: &BaseHead,
    ) -> Result<BaseWriter, LogFault>
        requires listed { IsTrue D.tells → (D.told disk.old file).listing ≡ Kept }
        requires blank { IsTrue D.tells → (D.told disk.old file).bytes ≡ [] }
        requires head { CanStart (head_of head.now) }

        ensures file { IfOk result (λ writer. writer.file ≡ file) }
        ensures at_end { IfOk result (λ writer. IsTrue D.tells → IsAtEnd writer (D.told disk.new file)) }
        ensures begun { OnOk result (IsTrue D.tells → HasBegun (head_of head.now) [] (D.told disk.new file)) }
        ensures fits { OnOk result (HeadFits (head_of head.now)) }
        ensures untouched { result ≡ Err LogFault.NoMemory → disk.new ≡ disk.old }

        ensures others { IsTrue D.tells → (n : ℕ) → n ≢ file → D.told disk.new n ≡ D.told disk.old n }
        ensures all { OnOk result (D.power disk.new ≡ after_calls 2 (D.power disk.old)) }
        ensures calls { MakesUpTo 2 result (D.power disk.old) (D.power disk.new) (D.count disk.old) (D.count disk.new) }
    {
        let bytes = encode_head(alloc, head)?;
        put_at_end(disk, file, 0, &bytes)?;
        Ok(BaseWriter {
            file,
            end: bytes.len() as u64,
        })
    }

    /// Writes a chunk behind what was written, in two calls of the disk. It takes no memory. That the
    /// bytes are a chunk is for the caller to know: only then the file will be a base.
    pub fn write_block<D: Disk>(&mut self, disk: &mut D, chunk: &[u8]) -> Result<(), DiskFailed>
        requires at_end { IsTrue D.tells → IsAtEnd self.old (D.told disk.old self.old.file) }
        requires place { self.old.end + length chunk.now < 2 ^ 64 }

        ensures file { self.new.file ≡ self.old.file }
        ensures ends { OnOk result (self.new.end ≡ self.old.end + length chunk.now) }
        ensures at_end { OnOk result (IsTrue D.tells → IsAtEnd self.new (D.told disk.new self.new.file)) }
        ensures begun { OnOk result (IsTrue D.tells → (head : Head) (chunks : List (List ℕ))
            → HasBegun head chunks (D.told disk.old self.old.file)
            → HasBegun head (chunks ++ chunk.now ∷ []) (D.told disk.new self.old.file)) }

        ensures others { IsTrue D.tells → (n : ℕ) → n ≢ self.old.file → D.told disk.new n ≡ D.told disk.old n }
        ensures calls { MakesCalls 2 result (D.power disk.old) (D.power disk.new) (D.count disk.old) (D.count disk.new) }
    {
        put_at_end(disk, self.file, self.end, chunk)?;
        self.end += chunk.len() as u64;
        Ok(())
    }

    /// Writes the mark of the end and syncs, in three calls of the disk. After `Ok` the file is the
    /// base of its head and its chunks in their order, whatever a crash leaves of it, and `read_base`
    /// reads that. It takes no memory.
    pub fn finish<D: Disk>(self, disk: &mut D) -> Result<(), DiskFailed>
        requires at_end { IsTrue D.tells → IsAtEnd self (D.told disk.old self.file) }
        requires place { self.end + 6 < 2 ^ 64 }

        ensures written { OnOk result (IsTrue D.tells → (head : Head) (chunks : List (List ℕ))
            → HasBegun head chunks (D.told disk.old self.file)
            → D.told disk.new self.file ≡ settled (base_bytes (record { head = head; chunks = chunks }))) }
        ensures holds { OnOk result (IsTrue D.tells → (base : Base) → BaseFits base
            → HasBegun base.head base.chunks (D.told disk.old self.file)
            → EachImage (D.told disk.new self.file) (λ image. base_of image ≡ Some base)) }

        ensures others { IsTrue D.tells → (n : ℕ) → n ≢ self.file → D.told disk.new n ≡ D.told disk.old n }
        ensures calls { MakesCalls 3 result (D.power disk.old) (D.power disk.new) (D.count disk.old) (D.count disk.new) }
    {
        put_at_end(disk, self.file, self.end, &END_MARK)?;
        disk.sync(self.file)
    }
}

/// Grows a file, and writes bytes at its end.
fn put_at_end<D: Disk>(disk: &mut D, file: u64, end: u64, bytes: &[u8]) -> Result<(), DiskFailed>
    requires listed { IsTrue D.tells → (D.told disk.old file).listing ≡ Kept }
    requires ends { IsTrue D.tells → end ≡ length (D.told disk.old file).bytes }
    requires place { end + length bytes.now < 2 ^ 64 }

    ensures written { OnOk result (IsTrue D.tells
        → (D.told disk.new file).bytes ≡ (D.told disk.old file).bytes ++ bytes.now) }
    ensures listed { OnOk result (IsTrue D.tells → (D.told disk.new file).listing ≡ Kept) }

    ensures others { IsTrue D.tells → (n : ℕ) → n ≢ file → D.told disk.new n ≡ D.told disk.old n }
    ensures calls { MakesCalls 2 result (D.power disk.old) (D.power disk.new) (D.count disk.old) (D.count disk.new) }
{
    disk.grow(file, end + bytes.len() as u64)?;
    disk.write_at(file, end, bytes)
}
