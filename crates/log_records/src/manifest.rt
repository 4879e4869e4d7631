//! Manifests: which files of a disk count.

ghost use Rattle.std.specs.Prelude.{◌≡◌, ◌+◌, ◌*◌, ◌++◌, ◌<◌, ◌^◌, length, drop, option_map, IfOk, OnOk};
ghost use Rattle.std.specs.Int.{w64};
ghost use Rattle.snapshot_io.specs.Reading.{many_at};
ghost use Rattle.volt_base.specs.Reading.{number_at};
ghost use Rattle.log_records.specs.Manifest.{named, files_bytes, manifest_bytes, NamesFit, files_at, names_at, manifest_of};
ghost use Rattle.log_records.specs.Reading.{Gives};

use crate::reading::{Unread, read_u16, read_u64};
use std::alloc::{AllocError, Global};

/// The files of a disk that count: that of its base, and the segments of its log in their order.
#[derive(Debug, Drop)]
pub struct Manifest {
    pub base: u64,
    pub segments: Vec<u64>,
}

/// The number of the format of a manifest.
const FORMAT: u8 = 1;

#[tactic(auto, unfolding(crate::specs::Manifest::files_bytes))]
fn put_files(out: &mut Vec<u8>, files: &[u64]) -> Result<(), AllocError>
    requires { length files.now < 2 ^ 16 }
    ensures { OnOk result (out.new.items ≡ out.old.items ++ files_bytes files.now) }
{
    out.extend_from_slice(&(files.len() as u16).to_be_bytes())?;
    let mut left = files;
    while let [file, rest @ ..] = left {
        out.extend_from_slice(&file.to_be_bytes())?;
        left = rest;
    }
    Ok(())
}

/// The batch of a manifest: room for the length of its body, which is four bytes, and the body. There
/// are 65,535 segments at most.
#[tactic(auto, unfolding(crate::specs::Manifest::manifest_bytes))]
pub fn encode_manifest(alloc: Global, base: u64, segments: &[u64]) -> Result<Vec<u8>, AllocError>
    requires { length segments.now < 2 ^ 16 }
    ensures room { IfOk result (λ batch. length batch.items ≡ 15 + 8 * length segments.now) }
    ensures spelled { IfOk result (λ batch. drop 4 batch.items
        ≡ manifest_bytes (record { base = base; segments = segments.now })) }
    ensures fits { OnOk result (NamesFit (record { base = base; segments = segments.now })) }
{
    let mut out = Vec::new(alloc);
    out.extend_from_slice(&[0, 0, 0, 0, FORMAT])?;
    out.extend_from_slice(&base.to_be_bytes())?;
    put_files(&mut out, segments)?;
    Ok(out)
}

fn read_so_many_files(alloc: Global, count: u16, bytes: &[u8]) -> Result<(Vec<u64>, &[u8]), Unread>
    ensures { Gives (λ x. (x.0.items, x.1.now)) result (many_at (number_at w64) count bytes.now) }
{
    let mut files = Vec::new(alloc);
    let mut rest = bytes;
    let mut left = count;
    while left > 0 {
        let (file, behind) = read_u64(rest)?;
        if files.push(file).is_err() {
            return Err(Unread::NoMemory);
        }
        rest = behind;
        left -= 1;
    }
    Ok((files, rest))
}

#[tactic(auto, unfolding(crate::specs::Manifest::files_at))]
fn read_files(alloc: Global, bytes: &[u8]) -> Result<(Vec<u64>, &[u8]), Unread>
    ensures { Gives (λ x. (x.0.items, x.1.now)) result (files_at bytes.now) }
{
    let (count, rest) = read_u16(bytes)?;
    read_so_many_files(alloc, count, rest)
}

#[tactic(auto, unfolding(crate::specs::Manifest::names_at))]
fn read_names(alloc: Global, bytes: &[u8]) -> Result<(Manifest, &[u8]), Unread>
    ensures { Gives (λ x. (named x.0, x.1.now)) result (names_at bytes.now) }
{
    let (base, rest) = read_u64(bytes)?;
    let (segments, rest) = read_files(alloc, rest)?;
    Ok((Manifest { base, segments }, rest))
}

#[tactic(auto, unfolding(crate::specs::Manifest::manifest_of))]
fn read_whole(alloc: Global, body: &[u8]) -> Result<Manifest, Unread>
    ensures { Gives named result (manifest_of body.now) }
{
    match body {
        [1, rest @ ..] => match read_names(alloc, rest)? {
            (manifest, []) => Ok(manifest),
            _ => Err(Unread::Other),
        },
        _ => Err(Unread::Other),
    }
}

/// The manifest that the body of a batch is. `None` comes exactly where it is none.
pub fn read_manifest(alloc: Global, body: &[u8]) -> Result<Option<Manifest>, AllocError>
    ensures { IfOk result (λ read. option_map named read ≡ manifest_of body.now) }
{
    match read_whole(alloc, body) {
        Ok(manifest) => Ok(Some(manifest)),
        Err(Unread::Other) => Ok(None),
        Err(Unread::NoMemory) => Err(AllocError),
    }
}
