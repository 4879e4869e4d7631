//! Tests of records and manifests, worked out by hand.
ghost use Rattle.std.specs.Prelude.{◌≡◌, length, IfOk};
ghost use Rattle.std.specs.List.{AllByRecursion};
ghost use Rattle.log_records.specs.Records.{CanSpell};

use log_records::{encode_manifest, encode_records, read_manifest, read_records};
use std::alloc::{AllocError, Global};
use std::collections::VecDeque;
use std::test::Fail;
use volt_base::{Bytes, Entry};

// Call 1 of client 1 at point 4, at position 1: `Put 1 10`.
const PLACED: [u8; 48] = [
    0x11, 0, 0, 0, 0, 0, 0, 0, 1, 4, 0, 0, 0, 1, 1, 0, 0, 0, 0, 0, 0, 0, 4, 0, 0, 0, 0x15, 0, 0, 2,
    1, 0, 0, 0, 0, 0, 0, 0, 1, 1, 0, 0, 0, 0, 0, 0, 0, 10,
];

const BODY: [u8; 21] = [
    0, 0, 2, 1, 0, 0, 0, 0, 0, 0, 0, 1, 1, 0, 0, 0, 0, 0, 0, 0, 10,
];

// The mark of term 7, and a snapshot's end at position 2.
const MARKED: [u8; 40] = [
    0x10, 0, 0, 0, 0, 0, 0, 0, 7, 0x11, 0, 0, 0, 0, 0, 0, 0, 2, 3, 0, 0, 0, 0, 0, 0, 0, 6, 3, 0, 0,
    0, 0, 0, 0, 0, 0, 0, 0, 0, 0,
];

// Base 3, segments 2 and 258.
const NAMES: [u8; 27] = [
    1, 0, 0, 0, 0, 0, 0, 0, 3, 0, 2, 0, 0, 0, 0, 0, 0, 0, 2, 0, 0, 0, 0, 0, 0, 1, 2,
];

const READ_PLACED: &str =
    "Some([Placed { position: 1, entry: Sp { call: 1, client: 1, point: 4, body: Bytes { held: [0, 0, 2, 1, 0, 0, 0, 0, 0, 0, 0, 1, 1, 0, 0, 0, 0, 0, 0, 0, 10] } } }])";

const READ_MARKED: &str =
    "Some([Mark { term: 7 }, Placed { position: 2, entry: Done { transaction: 6, outcome: Snapshot } }])";

fn one_entry(alloc: Global) -> Result<VecDeque<Entry>, AllocError>
    ensures each { IfOk result (λ entries. AllByRecursion CanSpell entries.items) }
    ensures len { IfOk result (λ entries. length entries.items ≡ 1) }
{
    let mut entries = VecDeque::new(alloc);
    entries.push_back(Entry::Sp {
        call: 1,
        client: 1,
        point: 4,
        body: Bytes::of(alloc, &BODY)?,
    })?;
    Ok(entries)
}

// The records that bytes are, as a text.
fn records_in(alloc: Global, bytes: &[u8]) -> Result<String, AllocError> {
    let read = read_records(alloc, bytes)?;
    format!(in alloc; "{read:?}")
}

fn names_in(alloc: Global, bytes: &[u8]) -> Result<String, AllocError> {
    let read = read_manifest(alloc, bytes)?;
    format!(in alloc; "{read:?}")
}

#[test]
fn entry_is_written(rt: HostRuntime) -> Result<(), Fail> {
    let entries = one_entry(rt.alloc())?;
    let batch = encode_records(rt.alloc(), None, 1, &entries, 0)?;
    assert_eq!(rt; &batch[4..], PLACED.as_slice());
    Ok(())
}

#[test]
fn mark_is_written_first(rt: HostRuntime) -> Result<(), Fail> {
    let entries = one_entry(rt.alloc())?;
    let batch = encode_records(rt.alloc(), Some(7), 2, &entries, 1)?;
    assert_eq!(rt; &batch[4..], &MARKED[..9]);
    Ok(())
}

#[test]
fn records_are_read(rt: HostRuntime) -> Result<(), Fail> {
    let placed = records_in(rt.alloc(), &PLACED)?;
    let marked = records_in(rt.alloc(), &MARKED)?;
    assert_eq!(rt;
        (placed.as_str(), marked.as_str()),
        (READ_PLACED, READ_MARKED)
    );
    Ok(())
}

#[test]
fn records_that_are_cut_are_none(rt: HostRuntime) -> Result<(), Fail> {
    for len in 0..MARKED.len() {
        let text = records_in(rt.alloc(), &MARKED[..len])?;
        let is_whole = len == 0 || len == 9;
        assert_eq!(rt; text.as_str() != "None", is_whole, "at {len}");
    }
    Ok(())
}

#[test]
fn manifest_is_written(rt: HostRuntime) -> Result<(), Fail> {
    let batch = encode_manifest(rt.alloc(), 3, &[2, 258])?;
    assert_eq!(rt; &batch[4..], NAMES.as_slice());
    Ok(())
}

#[test]
fn manifest_is_read(rt: HostRuntime) -> Result<(), Fail> {
    let text = names_in(rt.alloc(), &NAMES)?;
    assert_eq!(rt;
        text.as_str(),
        "Some(Manifest { base: 3, segments: [2, 258] })"
    );
    Ok(())
}

#[test]
fn manifest_with_a_byte_turned_is_another_or_none(rt: HostRuntime) -> Result<(), Fail> {
    let before = names_in(rt.alloc(), &NAMES)?;
    for at in 0..NAMES.len() {
        let mut bytes = NAMES;
        bytes[at] = !bytes[at];
        let text = names_in(rt.alloc(), &bytes)?;
        assert!(rt; text.as_str() != before.as_str(), "at {at}");
    }
    Ok(())
}
