//! Tests of what no clause says: calls succeed where there is memory, and what was worked out by hand
//! is what is written and read.
ghost use Rattle.std.specs.Prelude.{◌≡◌, ◌+◌, ◌<◌, ◌≤◌, [], length, vec_len, IfOk, IsTrue};
ghost use Rattle.volt_disk.specs.Memory.{told_of};
ghost use Rattle.volt_disk.specs.declared.listing.Listing.TheVariants.{Kept};
ghost use Rattle.snapshot_io.specs.Base.{head_of, CanStart};

use snapshot_io::{BaseHead, BaseWriter, read_base};
use std::alloc::{AllocError, Global};
use std::test::Fail;
use volt_base::{Applied, Bytes, LastReply, Outcome};
use volt_disk::disk::{Disk, LogFault};
use volt_disk::memory::MemDisk;

// A row of table 0: the integer 7, and the text "a".
const CHUNK: [u8; 20] = [
    0, 0, 0, 1, 2, 1, 0, 0, 0, 0, 0, 0, 0, 7, 2, 0, 0, 0, 1, b'a',
];

// The base of `small_head` with that chunk twice, worked out by hand.
const BASE: [u8; 135] = [
    b'V', b'B', b'A', b'S', 2, 2, 1, 1, 3, 0, 0, 0, 1, b'D', 0, 0, 0, 0, 0, 0, 0, 7, 0, 0, 0, 0, 0,
    0, 0, 4, 0, 0, 0, 28, 5, 0, 0, 0, 0, 0, 0, 0, 5, 1, 0, 0, 0, 3, 1, 0, 0, 0, 0, 0, 0, 0, 9, 0,
    0, 0, 1, b'r', 0, 0, 0, 1, 0, 0, 0, 3, 0, 0, 0, 0, 0, 0, 0, 9, 1, 1, 0, 0, 0, 3, 0, 0, 0, 1,
    b'r', 0, 0, 0, 1, 2, 1, 0, 0, 0, 0, 0, 0, 0, 7, 2, 0, 0, 0, 1, b'a', 0, 0, 0, 1, 2, 1, 0, 0, 0,
    0, 0, 0, 0, 7, 2, 0, 0, 0, 1, b'a', 255, 255, b'V', b'E', b'N', b'D',
];

// A base of format 1 without chunks, whose last transaction was kept.
const OLD: [u8; 73] = [
    b'V', b'B', b'A', b'S', 1, 2, 1, 1, 3, 0, 0, 0, 1, b'D', 0, 0, 0, 0, 0, 0, 0, 7, 0, 0, 0, 0, 0,
    0, 0, 4, 0, 0, 0, 0, 0, 0, 0, 5, 1, 0, 0, 0, 3, 0, 0, 0, 0, 0, 0, 0, 9, 0, 0, 0, 1, 0, 0, 0, 3,
    0, 0, 0, 0, 0, 0, 0, 9, 255, 255, b'V', b'E', b'N', b'D',
];

// What they are read as.
const READ: &str =
    "Some((BaseHead { hosts: 2, sites: 1, k: 1, slot: 3, ddl: Bytes { held: [68] }, mark: 7, position: 4, last: Some((5, Kept { call: 3, client: 1, point: 9, reply: Bytes { held: [114] } })), applied: [Applied { call: 3, point: 9 }], replies: [LastReply { client: 1, call: 3, reply: Bytes { held: [114] } }] }, [Bytes { held: [0, 0, 0, 1, 2, 1, 0, 0, 0, 0, 0, 0, 0, 7, 2, 0, 0, 0, 1, 97] }, Bytes { held: [0, 0, 0, 1, 2, 1, 0, 0, 0, 0, 0, 0, 0, 7, 2, 0, 0, 0, 1, 97] }]))";

const READ_OLD: &str =
    "Some((BaseHead { hosts: 2, sites: 1, k: 1, slot: 3, ddl: Bytes { held: [68] }, mark: 7, position: 4, last: Some((5, Kept { call: 3, client: 0, point: 9, reply: Bytes { held: [] } })), applied: [Applied { call: 3, point: 9 }], replies: [] }, []))";

fn small_head(alloc: Global) -> Result<BaseHead, AllocError>
    ensures { IfOk result (λ head. CanStart (head_of head)) }
{
    let last = Outcome::Kept {
        call: 3,
        client: 1,
        point: 9,
        reply: Bytes::of(alloc, b"r")?,
    };
    let reply = LastReply {
        client: 1,
        call: 3,
        reply: Bytes::of(alloc, b"r")?,
    };
    let mut replies = Vec::new(alloc);
    replies.push(reply)?;
    Ok(BaseHead {
        hosts: 2,
        sites: 1,
        k: 1,
        slot: 3,
        ddl: Bytes::of(alloc, b"D")?,
        mark: 7,
        position: 4,
        last: Some((5, last)),
        applied: [Applied { call: 3, point: 9 }].to_vec(alloc)?,
        replies,
    })
}

fn write_small(alloc: Global, disk: &mut MemDisk) -> Result<(), LogFault>
    requires listed { (told_of disk.old 5).listing ≡ Kept }
    requires blank { (told_of disk.old 5).bytes ≡ [] }
{
    let head = small_head(alloc)?;
    let mut writer = BaseWriter::start(alloc, disk, 5, &head)?;
    if writer.end() >= 1_000_000 {
        return Err(LogFault::NoMemory);
    }
    writer.write_block(disk, &CHUNK)?;
    writer.write_block(disk, &CHUNK)?;
    writer.finish(disk)?;
    Ok(())
}

// A new disk, which loses power at this call.
fn write_on_new(alloc: Global, call: u64, choice: u64) -> Result<(MemDisk, bool), LogFault>
    requires { 1 ≤ call }
{
    let mut disk = MemDisk::new(alloc, Vec::new(alloc));
    disk.plan_cut(call, choice);
    let done = write_small(alloc, &mut disk);
    disk.power_cycle();
    Ok((disk, done.is_ok()))
}

// The base that bytes are, as a text.
fn text_of(alloc: Global, bytes: &[u8]) -> Result<String, LogFault> {
    let mut disk = MemDisk::new(alloc, Vec::new(alloc));
    disk.grow(5, bytes.len() as u64)?;
    disk.write_at(5, 0, bytes)?;
    let base = read_base(alloc, &mut disk, 5)?;
    Ok(format!(in alloc; "{base:?}")?)
}

fn zeros(alloc: Global, len: usize) -> Result<Vec<u8>, AllocError>
    ensures { IfOk result (λ bytes. vec_len bytes ≡ len) }
{
    vec![in alloc; 0u8; len]
}

fn bytes_of(alloc: Global, disk: &mut MemDisk) -> Result<Vec<u8>, LogFault> {
    let size = disk.size(5)?;
    let mut bytes = zeros(alloc, size as usize)?;
    disk.read_at(5, 0, &mut bytes)?;
    Ok(bytes)
}

#[test]
fn each_cut_fails_the_write(rt: HostRuntime) -> Result<(), Fail> {
    for call in 1..10u64 {
        for choice in [0, 1, 7] {
            let (_, done) = write_on_new(rt.alloc(), call, choice)?;
            assert!(rt; !done, "at {call} {choice}");
        }
    }
    Ok(())
}

#[test]
fn base_that_was_written_stays(rt: HostRuntime) -> Result<(), Fail> {
    for choice in [0, 1, 7] {
        let (mut disk, done) = write_on_new(rt.alloc(), 100, choice)?;
        let bytes = bytes_of(rt.alloc(), &mut disk)?;
        assert!(rt; done);
        assert_eq!(rt; bytes.as_slice(), BASE.as_slice());
    }
    Ok(())
}

#[test]
fn base_is_read(rt: HostRuntime) -> Result<(), Fail> {
    let text = text_of(rt.alloc(), &BASE)?;
    assert_eq!(rt; text.as_str(), READ);
    Ok(())
}

#[test]
fn base_of_format_1_is_read(rt: HostRuntime) -> Result<(), Fail> {
    let text = text_of(rt.alloc(), &OLD)?;
    assert_eq!(rt; text.as_str(), READ_OLD);
    Ok(())
}

#[test]
fn base_that_is_cut_is_none(rt: HostRuntime) -> Result<(), Fail> {
    for len in 0..BASE.len() {
        let text = text_of(rt.alloc(), &BASE[..len])?;
        assert_eq!(rt; text.as_str(), "None", "at {len}");
    }
    Ok(())
}

#[test]
fn base_with_a_byte_turned_is_another_or_none(rt: HostRuntime) -> Result<(), Fail> {
    let before = text_of(rt.alloc(), &BASE)?;
    for at in 0..BASE.len() {
        let mut bytes = BASE;
        bytes[at] = !bytes[at];
        let text = text_of(rt.alloc(), &bytes)?;
        assert!(rt; text.as_str() != before.as_str(), "at {at}");
    }
    Ok(())
}
