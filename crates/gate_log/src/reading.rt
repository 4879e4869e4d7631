//! Batches from the beginning of bytes.
ghost use Rattle.std.specs.Prelude.{◌≡◌, option_map, IfOk};
ghost use Rattle.volt_base.specs.Reading.{body_at};
ghost use Rattle.gate_log.specs.Batches.{first_batch, batches};
ghost use Rattle.gate_log.specs.Log.{IsFound};

use crate::log::OPEN;
use std::alloc::{AllocError, Global};
use volt_base::Bytes;

// A body behind its length, and the bytes after it.
#[tactic(auto, unfolding(volt_base::specs::Reading::body_at))]
fn body_of(bytes: &[u8]) -> Option<(&[u8], &[u8])>
    ensures { option_map (λ x. (x.0.now, x.1.now)) result ≡ body_at bytes.now }
{
    if bytes.len() < 4 {
        return None;
    }
    let (prefix, rest) = bytes.split_at(4);
    let len = u32::from_be_bytes([prefix[0], prefix[1], prefix[2], prefix[3]]) as usize;
    if rest.len() < len {
        return None;
    }
    Some(rest.split_at(len))
}

// The body of the batch at the beginning of the bytes, and the bytes after it.
fn next_batch(bytes: &[u8]) -> Option<(&[u8], &[u8])>
    ensures { option_map (λ x. (x.0.now, x.1.now)) result ≡ first_batch bytes.now }
{
    match bytes {
        [] => None,
        [gate, rest @ ..] => { if *gate == OPEN { body_of(rest) } else { None } }
    }
}

/// How many bytes the batches take at the beginning of the bytes.
pub fn len_of_batches(bytes: &[u8]) -> usize
    ensures { IsFound result bytes.now }
{
    let mut rest = bytes;
    while let Some((_, behind)) = next_batch(rest) {
        rest = behind;
    }
    bytes.len() - rest.len()
}

/// The bodies of the batches at the beginning of the bytes.
pub fn bodies_of(alloc: Global, bytes: &[u8]) -> Result<Vec<Bytes>, AllocError>
    ensures { IfOk result (λ bodies. bodies.items ≡ batches bytes.now) }
{
    let mut bodies = Vec::new(alloc);
    let mut rest = bytes;
    while let Some((body, behind)) = next_batch(rest) {
        bodies.push(Bytes::of(alloc, body)?)?;
        rest = behind;
    }
    Ok(bodies)
}
