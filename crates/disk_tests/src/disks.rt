//! Tests of what no clause says: that calls succeed where there is memory, and real files.
ghost use Rattle.std.specs.Prelude.{◌≡◌, ℕ, IsTrue};
ghost use Rattle.volt_disk.specs.File.{no_file};

use std::fs;
use std::test::Fail;
use volt_disk::disk::{Disk, DiskFailed};
use volt_disk::folder::FileDisk;
use volt_disk::memory::MemDisk;

// File 1 has six bytes that are synced, and then four more and a write that aren't. File 2, which is
// made before it, has a write that isn't synced, and is then removed.
fn unsettle<D: Disk>(disk: &mut D) -> Result<(), DiskFailed>
    requires { IsTrue D.tells → (n : ℕ) → D.told disk.old n ≡ no_file }
{
    disk.grow(2, 2)?;
    disk.write_at(2, 0, &[7, 7])?;
    disk.sync(2)?;
    disk.write_at(2, 0, &[8])?;
    disk.grow(1, 6)?;
    disk.write_at(1, 0, &[1, 2, 3, 4, 5, 6])?;
    disk.sync(1)?;
    disk.grow(1, 10)?;
    disk.write_at(1, 4, &[9, 9, 9, 9])?;
    disk.remove(2)
}

fn unsettled(rt: &HostRuntime, fail: Vec<u64>) -> Result<MemDisk, Fail> {
    let mut disk = MemDisk::new(rt.alloc(), fail);
    unsettle(&mut disk)?;
    Ok(disk)
}

#[test]
fn memory_keeps_what_is_written(rt: HostRuntime) -> Result<(), Fail> {
    let mut disk = unsettled(&rt, Vec::new(rt.alloc()))?;
    let one = bytes_of(&rt, &mut disk, 1)?;
    assert_eq!(rt; one.as_slice(), [1, 2, 3, 4, 9, 9, 9, 9, 0, 0].as_slice());
    assert_eq!(rt; disk.size(2)?, 0);
    disk.sync_names()?;
    assert_eq!(rt; disk.size(1)?, 10);
    assert_eq!(rt; disk.faults(), 0);
    assert_eq!(rt; disk.starved(), 0);
    assert_eq!(rt; disk.plans(), 0);
    assert_eq!(rt; disk.last_plan(), (0, 0));
    Ok(())
}

fn bytes_of<D: Disk>(rt: &HostRuntime, disk: &mut D, file: u64) -> Result<Vec<u8>, Fail> {
    let len = disk.size(file)?;
    let mut bytes = Vec::new(rt.alloc());
    bytes.resize(len as usize, 0)?;
    disk.read_at(file, 0, &mut bytes)?;
    Ok(bytes)
}

// The last image is worked out by the rule of the draws, beside this program.
#[test]
fn choice_of_a_loss_chooses_the_image(rt: HostRuntime) -> Result<(), Fail> {
    let cases = [
        (0, [1, 2, 3, 4, 5, 6].as_slice(), [7, 7].as_slice()),
        (1, [1, 2, 3, 4, 9, 9, 9, 9, 0, 0].as_slice(), [].as_slice()),
        (
            7,
            [1, 2, 3, 4, 63, 49, 145, 233, 0].as_slice(),
            [3, 7].as_slice(),
        ),
    ];
    for (choice, one, two) in cases {
        let mut disk = unsettled(&rt, Vec::new(rt.alloc()))?;
        disk.plan_cut(1, choice);
        assert_eq!(rt; disk.size(1), Err(DiskFailed));
        assert_eq!(rt; disk.size(2), Err(DiskFailed));
        disk.power_cycle();
        assert_eq!(rt; bytes_of(&rt, &mut disk, 1)?.as_slice(), one, "at {choice}");
        assert_eq!(rt; bytes_of(&rt, &mut disk, 2)?.as_slice(), two, "at {choice}");
        assert_eq!(rt; disk.faults(), 2);
    }
    Ok(())
}

#[test]
fn cycle_without_a_loss_leaves_what_a_read_gives(rt: HostRuntime) -> Result<(), Fail> {
    let mut disk = unsettled(&rt, Vec::new(rt.alloc()))?;
    disk.power_cycle();
    let one = bytes_of(&rt, &mut disk, 1)?;
    assert_eq!(rt; one.as_slice(), [1, 2, 3, 4, 9, 9, 9, 9, 0, 0].as_slice());
    assert_eq!(rt; disk.size(2)?, 0);
    Ok(())
}

#[test]
fn each_call_fails_by_its_number(rt: HostRuntime) -> Result<(), Fail> {
    let fail = [1, 2, 3, 4, 5, 6, 7].to_vec(rt.alloc())?;
    let mut disk = MemDisk::new(rt.alloc(), fail);
    assert_eq!(rt; disk.size(1), Err(DiskFailed));
    assert_eq!(rt; disk.read_at(1, 0, &mut []), Err(DiskFailed));
    assert_eq!(rt; disk.write_at(1, 0, &[]), Err(DiskFailed));
    assert_eq!(rt; disk.sync(1), Err(DiskFailed));
    assert_eq!(rt; disk.grow(2, 5), Err(DiskFailed));
    assert_eq!(rt; disk.remove(1), Err(DiskFailed));
    assert_eq!(rt; disk.sync_names(), Err(DiskFailed));
    assert_eq!(rt; disk.faults(), 7);
    assert_eq!(rt; disk.size(1), Ok(0));
    assert_eq!(rt; disk.size(2), Ok(0));
    assert_eq!(rt; disk.starved(), 0);
    Ok(())
}

#[test]
fn plan_stays_until_it_comes_true(rt: HostRuntime) -> Result<(), Fail> {
    let mut disk = MemDisk::new(rt.alloc(), Vec::new(rt.alloc()));
    disk.plan_cut(1, 5);
    disk.plan_cut(3, 9);
    assert_eq!(rt; disk.size(1), Ok(0));
    disk.power_cycle();
    assert_eq!(rt; disk.size(1), Ok(0));
    assert_eq!(rt; disk.size(1), Err(DiskFailed));
    assert_eq!(rt; disk.size(1), Err(DiskFailed));
    disk.power_cycle();
    assert_eq!(rt; disk.size(1), Ok(0));
    assert_eq!(rt; disk.plans(), 2);
    assert_eq!(rt; disk.last_plan(), (3, 9));
    Ok(())
}

#[test]
fn real_files_keep_what_is_written(rt: HostRuntime) -> Result<(), Fail> {
    fs::create_dir_all(&rt, "volt-disk-test")?;
    let folder = String::from_str(rt.alloc(), "volt-disk-test")?;
    let mut disk = FileDisk::new(rt.alloc(), rt.clone()?, folder);
    disk.remove(3)?;
    disk.sync_names()?;
    assert_eq!(rt; disk.size(3)?, 0);
    disk.sync(3)?;
    disk.grow(3, 6)?;
    disk.write_at(3, 2, &[5, 6, 7])?;
    disk.sync(3)?;
    let folder = String::from_str(rt.alloc(), "volt-disk-test")?;
    let mut again = FileDisk::new(rt.alloc(), rt.clone()?, folder);
    let bytes = bytes_of(&rt, &mut again, 3)?;
    assert_eq!(rt; bytes.as_slice(), [0, 0, 5, 6, 7, 0].as_slice());
    assert_eq!(rt; again.faults(), 0);
    // Outside of the file, a shorter file, and a file without room.
    let mut into = [0; 2];
    assert_eq!(rt; again.write_at(3, 5, &[1, 2]), Err(DiskFailed));
    assert_eq!(rt; again.read_at(3, 5, &mut into), Err(DiskFailed));
    assert_eq!(rt; again.grow(3, 5), Err(DiskFailed));
    assert_eq!(rt; again.grow(3, u64::MAX), Err(DiskFailed));
    assert_eq!(rt; again.faults(), 4);
    // A planned loss of power.
    again.plan_cut(2, 0);
    assert_eq!(rt; again.size(3), Ok(6));
    assert_eq!(rt; again.remove(3), Err(DiskFailed));
    assert_eq!(rt; again.size(3), Err(DiskFailed));
    again.power_cycle();
    assert_eq!(rt; again.size(3), Ok(6));
    again.remove(3)?;
    again.sync_names()?;
    assert_eq!(rt; again.size(3), Ok(0));
    assert_eq!(rt; again.plans(), 1);
    assert_eq!(rt; again.last_plan(), (2, 0));
    Ok(())
}

#[test]
fn missing_folder_is_a_fault(rt: HostRuntime) -> Result<(), Fail> {
    let folder = String::from_str(rt.alloc(), "volt-disk-nowhere")?;
    let mut disk = FileDisk::new(rt.alloc(), rt.clone()?, folder);
    assert_eq!(rt; disk.grow(0, 5), Err(DiskFailed));
    assert_eq!(rt; disk.sync(0), Err(DiskFailed));
    assert_eq!(rt; disk.sync_names(), Err(DiskFailed));
    assert_eq!(rt; disk.faults(), 3);
    Ok(())
}
