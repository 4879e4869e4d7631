//! Tests of what no clause says: calls succeed where there is memory, and a log outlives real cuts.
ghost use Rattle.std.specs.Prelude.{◌≡◌, ◌+◌, ◌<◌, ◌≤◌, length, vec_len, IfOk, OnOk, IsTrue};
ghost use Rattle.volt_disk.specs.Memory.{told_of};
ghost use Rattle.volt_disk.specs.declared.listing.Listing.TheVariants.{Kept};
ghost use Rattle.gate_log.specs.Log.{IsReady};

use gate_log::log::GateLog;
use std::alloc::{AllocError, Global};
use std::fs;
use std::test::Fail;
use volt_disk::disk::{Disk, LogFault};
use volt_disk::folder::FileDisk;
use volt_disk::memory::MemDisk;

// Two batches, worked out by hand.
const TWO: [u8; 15] = [
    0xa5, 0, 0, 0, 2, b'a', b'b', 0xa5, 0, 0, 0, 3, b'c', b'd', b'e',
];

// Room for the length, and the body.
fn batch_of(alloc: Global, body: &[u8]) -> Result<Vec<u8>, AllocError>
    requires { length body.now < 1000 }
    ensures { IfOk result (λ batch. vec_len batch ≡ 4 + length body.now) }
{
    let mut batch = Vec::new(alloc);
    batch.extend_from_slice(&[0, 0, 0, 0])?;
    batch.extend_from_slice(body)?;
    Ok(batch)
}

fn append<D: Disk>(
    alloc: Global,
    log: &mut GateLog,
    disk: &mut D,
    body: &[u8],
) -> Result<(), LogFault>
    requires ready { IsTrue D.tells → IsReady log.old (D.told disk.old log.old.file) }
    requires short { length body.now < 1000 }
    ensures { OnOk result (IsTrue D.tells → IsReady log.new (D.told disk.new log.new.file)) }
{
    let mut batch = batch_of(alloc, body)?;
    if log.end() >= 1_000_000 {
        return Err(LogFault::NoMemory);
    }
    log.append(disk, &mut batch)?;
    Ok(())
}

fn holds<D: Disk>(alloc: Global, disk: &mut D, want: &[&str]) -> Result<bool, LogFault> {
    let bodies = GateLog::read_all(alloc, disk, 5)?;
    let mut same = bodies.len() == want.len();
    for (body, wanted) in bodies.iter().zip(want) {
        same = same && body.as_slice() == wanted.as_bytes();
    }
    Ok(same)
}

// A first batch, and then a second one; power is lost at this call after the first.
fn append_two(alloc: Global, disk: &mut MemDisk, call: u64, choice: u64) -> Result<(), LogFault>
    requires listed { (told_of disk.old 5).listing ≡ Kept }
    requires call { 1 ≤ call }
{
    let mut log = GateLog::open(alloc, disk, 5)?;
    append(alloc, &mut log, disk, b"one")?;
    disk.plan_cut(call, choice);
    append(alloc, &mut log, disk, b"two")
}

#[test]
fn cut_at_each_call_leaves_the_batch_or_not(rt: HostRuntime) -> Result<(), Fail> {
    let alloc = rt.alloc();
    for call in 1..6u64 {
        for choice in [0, 1, 7] {
            let mut disk = MemDisk::new(alloc, Vec::new(alloc));
            let done = append_two(alloc, &mut disk, call, choice);
            assert_eq!(rt; done, Err(LogFault::DiskFailed));
            disk.power_cycle();
            let mut log = GateLog::open(alloc, &mut disk, 5)?;
            append(alloc, &mut log, &mut disk, b"three")?;
            let whole = holds(alloc, &mut disk, &["one", "two", "three"])?;
            let without = holds(alloc, &mut disk, &["one", "three"])?;
            // The gate is written at the fourth call, and the choice 1 leaves it.
            let is_written = call >= 4 && choice == 1;
            assert_eq!(rt;
                (whole, without),
                (is_written, !is_written),
                "at {call} {choice}"
            );
        }
    }
    Ok(())
}

#[test]
fn each_call_that_fails_leaves_whole_batches(rt: HostRuntime) -> Result<(), Fail> {
    let alloc = rt.alloc();
    for number in 1..14u64 {
        let mut disk = MemDisk::new(alloc, [number].to_vec(alloc)?);
        let done = append_two(alloc, &mut disk, 100, 0);
        assert_eq!(rt; done, Err(LogFault::DiskFailed));
        assert_eq!(rt; disk.faults(), 1);
        disk.power_cycle();
        // Opening takes three calls and a batch five, of which the fourth writes the gate.
        let one = holds(alloc, &mut disk, &["one"])?;
        let two = holds(alloc, &mut disk, &["one", "two"])?;
        assert_eq!(rt;
            (one, two),
            ((8..13).contains(&number), number == 13),
            "at {number}"
        );
    }
    Ok(())
}

#[test]
fn cut_file_reads_as_its_whole_batches(rt: HostRuntime) -> Result<(), Fail> {
    let alloc = rt.alloc();
    for len in 0..16usize {
        let mut disk = MemDisk::new(alloc, Vec::new(alloc));
        disk.grow(5, len as u64)?;
        disk.write_at(5, 0, &TWO[..len])?;
        let none = holds(alloc, &mut disk, &[])?;
        let one = holds(alloc, &mut disk, &["ab"])?;
        let two = holds(alloc, &mut disk, &["ab", "cde"])?;
        assert_eq!(rt;
            (none, one, two),
            (len < 7, len >= 7 && len < 15, len == 15),
            "at {len}"
        );
    }
    Ok(())
}

#[test]
fn opening_clears_what_stands_behind(rt: HostRuntime) -> Result<(), Fail> {
    let alloc = rt.alloc();
    let mut disk = MemDisk::new(alloc, Vec::new(alloc));
    disk.grow(5, 15)?;
    disk.write_at(5, 0, &TWO)?;
    // The first gate is closed, so the second batch doesn't count, now or later.
    disk.write_at(5, 0, &[0])?;
    let mut log = GateLog::open(alloc, &mut disk, 5)?;
    assert_eq!(rt; log.end(), 0);
    append(alloc, &mut log, &mut disk, b"xy")?;
    assert_eq!(rt; log.end(), 7);
    assert!(rt; holds(alloc, &mut disk, &["xy"])?);
    Ok(())
}

#[test]
fn log_over_real_files(rt: HostRuntime) -> Result<(), Fail> {
    let alloc = rt.alloc();
    fs::create_dir_all(&rt, "gate-log-test")?;
    let folder = String::from_str(alloc, "gate-log-test")?;
    let mut disk = FileDisk::new(alloc, rt.clone()?, folder);
    disk.remove(5)?;
    let mut log = GateLog::open(alloc, &mut disk, 5)?;
    append(alloc, &mut log, &mut disk, b"ab")?;
    append(alloc, &mut log, &mut disk, b"cde")?;
    let folder = String::from_str(alloc, "gate-log-test")?;
    let mut again = FileDisk::new(alloc, rt.clone()?, folder);
    let mut bytes = [0; 15];
    again.read_at(5, 0, &mut bytes)?;
    assert_eq!(rt; bytes, TWO);
    assert!(rt; holds(alloc, &mut again, &["ab", "cde"])?);
    let mut log = GateLog::open(alloc, &mut again, 5)?;
    assert_eq!(rt; log.end(), 15);
    append(alloc, &mut log, &mut again, b"f")?;
    assert!(rt; holds(alloc, &mut again, &["ab", "cde", "f"])?);
    Ok(())
}
