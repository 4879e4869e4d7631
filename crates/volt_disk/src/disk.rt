//! What a disk is: numbered files, what a read gives of them, and what a crash may leave.
ghost use Rattle.std.specs.Prelude.{◌≡◌, ◌≢◌, ◌+◌, ◌≤◌, ℕ, Bool, true, false, IsTrue, length, slice_range, Some, codes, IfOk, OnOk, OnErr};
ghost use Rattle.volt_disk.specs.File.{File, IsImage, seen};
ghost use Rattle.volt_disk.specs.Effects.{growth_asked, grown, write_asked, after_write, synced, removed, removal_asked, names_synced, FailsAs, CyclesTo};
ghost use Rattle.volt_disk.specs.Power.{has_power, planned, cycled, IsCounted};
ghost use Rattle.volt_disk.specs.declared.listing.Listing.TheVariants.{Kept};
ghost use Rattle.volt_disk.specs.declared.power.Power.{Power};

use std::alloc::AllocError;
use std::fmt;
use thiserror::Error;

/// A call of a disk failed. Which call it was and why is left to the disk.
#[derive(Clone, Copy, Debug, PartialEq, Eq)]
pub struct DiskFailed;

impl fmt::Display for DiskFailed {
    ghost output = { λ _. Some (codes "the disk failed") };

    fn fmt<W: fmt::Write>(&self, f: &mut fmt::Formatter<W>) -> fmt::Result {
        write!(f, "the disk failed")
    }
}

impl std::error::Error for DiskFailed {}

/// Why a log or a file of a disk wasn't read or written.
#[derive(Clone, Copy, Debug, PartialEq, Eq, Error)]
pub enum LogFault {
    /// The disk failed.
    #[error("the disk failed")]
    DiskFailed,
    /// There was no memory.
    #[error("there is no memory")]
    NoMemory,
}

impl From<DiskFailed> for LogFault {
    ghost use Rattle.volt_disk.specs.declared.disk.LogFault.TheVariants.{DiskFailed};
    ghost use Rattle.std.specs.Prelude.{◌≡◌};

    ghost from_gives = { λ _ e. e ≡ DiskFailed };

    fn from(_failed: DiskFailed) -> LogFault {
        LogFault::DiskFailed
    }
}

impl From<AllocError> for LogFault {
    ghost use Rattle.volt_disk.specs.declared.disk.LogFault.TheVariants.{NoMemory};
    ghost use Rattle.std.specs.Prelude.{◌≡◌};

    ghost from_gives = { λ _ e. e ≡ NoMemory };

    fn from(_error: AllocError) -> LogFault {
        LogFault::NoMemory
    }
}

/// Numbered files, what a read gives of them, what a crash may leave, and how often a call failed.
///
/// A disk that knows its bytes tells them (`tells`), and then all that is said here of bytes,
/// lengths and images binds, the conditions too. A disk that doesn't, as one over real files, is
/// bound by what is said of faults and plans alone.
///
/// A crash is a loss of power at any moment, or a power cycle. It leaves an image of each file
/// (`IsImage` of the file as it is told).
///
/// Each disk counts its faults, and a call fails only where that count increased. A count that
/// stands at the greatest `u64` is taken as increased, since it can't increase further.
pub trait Disk {
    /// Such a disk tells its bytes.
    ghost tells: { Bool };

    /// What it tells of each file. A file that isn't there has no bytes.
    ghost told: { Self → ℕ → File };

    /// Whether it has power, and its plan for a loss.
    ghost power: { Self → Power };

    /// How many faults there were.
    ghost count: { Self → ℕ };

    /// The length of a file, 0 where it isn't there.
    fn size(&mut self, file: u64) -> Result<u64, DiskFailed>
        ensures len { IfOk result (λ n. IsTrue tells → n ≡ length (seen (told self.old file))) }
        ensures same { IsTrue tells → (n : ℕ) → told self.new n ≡ told self.old n }
        ensures counted { IsCounted result (power self.old) (power self.new) (count self.old) (count self.new) };

    /// The bytes of a file from an offset on, as many as `into` has room for. After an `Err` what
    /// stands in `into` is free.
    fn read_at(&mut self, file: u64, at: u64, into: &mut [u8]) -> Result<(), DiskFailed>
        requires { IsTrue tells → at + length into.old ≤ length (seen (told self.old file)) }

        ensures bytes { OnOk result (IsTrue tells
            → into.new ≡ slice_range (seen (told self.old file)) at (at + length into.old)) }
        ensures same { IsTrue tells → (n : ℕ) → told self.new n ≡ told self.old n }
        ensures counted { IsCounted result (power self.old) (power self.new) (count self.old) (count self.new) };

    /// Adds zeros to a file up to a length, and makes the file where it isn't there. It doesn't
    /// shrink a file, and a file that was removed isn't grown before its name was synced.
    fn grow(&mut self, file: u64, to: u64) -> Result<(), DiskFailed>
        requires listed { IsTrue tells → (told self.old file).listing ≡ Kept }
        requires no_shorter { IsTrue tells → length (seen (told self.old file)) ≤ to }

        ensures grown { OnOk result (IsTrue tells → told self.new file ≡ grown to (told self.old file)) }
        ensures failed { OnErr result (IsTrue tells → FailsAs (told self.old file)
            (growth_asked to (told self.old file)) (grown to (told self.old file)) (told self.new file)) }
        ensures others { IsTrue tells → (n : ℕ) → n ≢ file → told self.new n ≡ told self.old n }
        ensures dark { IsTrue tells → has_power (power self.old) ≡ false
            → (n : ℕ) → told self.new n ≡ told self.old n }
        ensures counted { IsCounted result (power self.old) (power self.new) (count self.old) (count self.new) };

    /// Puts bytes in the place of those of a file, within its length.
    fn write_at(&mut self, file: u64, at: u64, bytes: &[u8]) -> Result<(), DiskFailed>
        requires { IsTrue tells → at + length bytes.now ≤ length (seen (told self.old file)) }

        ensures written { OnOk result (IsTrue tells
            → told self.new file ≡ after_write at bytes.now (told self.old file)) }
        ensures failed { OnErr result (IsTrue tells → FailsAs (told self.old file)
            (write_asked at (length bytes.now) (told self.old file)) (after_write at bytes.now (told self.old file))
            (told self.new file)) }
        ensures others { IsTrue tells → (n : ℕ) → n ≢ file → told self.new n ≡ told self.old n }
        ensures dark { IsTrue tells → has_power (power self.old) ≡ false
            → (n : ℕ) → told self.new n ≡ told self.old n }
        ensures counted { IsCounted result (power self.old) (power self.new) (count self.old) (count self.new) };

    /// After it a crash leaves of this file what a read gives, as it might have before. A sync that
    /// fails settles nothing.
    fn sync(&mut self, file: u64) -> Result<(), DiskFailed>
        ensures synced { OnOk result (IsTrue tells → told self.new file ≡ synced (told self.old file)) }
        ensures image { OnOk result (IsTrue tells → IsImage (told self.old file) (seen (told self.old file))) }
        ensures failed { OnErr result (IsTrue tells → told self.new file ≡ told self.old file) }
        ensures others { IsTrue tells → (n : ℕ) → n ≢ file → told self.new n ≡ told self.old n }
        ensures counted { IsCounted result (power self.old) (power self.new) (count self.old) (count self.new) };

    /// Removes a file. Until the names are synced a crash may leave it as it was.
    fn remove(&mut self, file: u64) -> Result<(), DiskFailed>
        ensures removed { OnOk result (IsTrue tells → told self.new file ≡ removed (told self.old file)) }
        ensures failed { OnErr result (IsTrue tells → FailsAs (told self.old file)
            (removal_asked (told self.old file)) (removed (told self.old file)) (told self.new file)) }
        ensures others { IsTrue tells → (n : ℕ) → n ≢ file → told self.new n ≡ told self.old n }
        ensures dark { IsTrue tells → has_power (power self.old) ≡ false
            → (n : ℕ) → told self.new n ≡ told self.old n }
        ensures counted { IsCounted result (power self.old) (power self.new) (count self.old) (count self.new) };

    /// After it no removed file comes back. A sync that fails settles nothing.
    fn sync_names(&mut self) -> Result<(), DiskFailed>
        ensures synced { OnOk result (IsTrue tells
            → (n : ℕ) → told self.new n ≡ names_synced (told self.old n)) }
        ensures failed { OnErr result (IsTrue tells → (n : ℕ) → told self.new n ≡ told self.old n) }
        ensures counted { IsCounted result (power self.old) (power self.new) (count self.old) (count self.new) };

    /// Plans the loss of power at the `call`-th coming call, counted from 1. The calls above count,
    /// those below don't. The call at which the plan comes true fails, and each later one until
    /// `power_cycle`. A new plan takes the place of an old one, and a plan stays, over power cycles
    /// too, until it came true. What `choice` chooses is left to the disk.
    fn plan_cut(&mut self, call: u64, choice: u64)
        requires { 1 ≤ call }
        ensures planned { power self.new ≡ planned call choice (power self.old) }
        ensures same { IsTrue tells → (n : ℕ) → told self.new n ≡ told self.old n }
        ensures no_fault { count self.new ≡ count self.old };

    /// A loss of power, if there was none, and power again: each file reads as one of its images,
    /// and a further crash leaves the same.
    fn power_cycle(&mut self)
        ensures image { IsTrue tells → (n : ℕ) → CyclesTo (told self.old n) (told self.new n) }
        ensures cycled { power self.new ≡ cycled (power self.old) }
        ensures no_fault { count self.new ≡ count self.old };

    /// How many plans there were, up to the greatest `u64`.
    fn plans(&self) -> u64
        ensures { result ≡ (power self.now).plans };

    /// The call and the choice of the last plan, and zeros before the first.
    fn last_plan(&self) -> (u64, u64)
        ensures { result ≡ (power self.now).last };

    /// How many faults there were so far.
    fn faults(&self) -> u64
        ensures { result ≡ count self.now };
}
