//! Reads a base from the bytes of a file.

ghost use Rattle.std.specs.Prelude.{◌≡◌, Some, IfOk};
ghost use Rattle.snapshot_io.specs.Base.{head_of, base_with};
ghost use Rattle.snapshot_io.specs.Reading.{Gives, as_head, head_by, both_at, head_at, old_head_at, last_at, old_last_at, all_applied_at, replies_at, no_replies_at, base_by, format_at, base_of};

use crate::chunks::{behind_bytes, read_chunks};
use crate::head::BaseHead;
use crate::parts::{
    read_all_applied, read_last, read_layout, read_old_last, read_place, read_replies,
};
use crate::reading::{Unread, read_u8};
use crate::spelling::SIGNATURE;
use std::alloc::{AllocError, Global};
use volt_base::{Applied, Bytes, LastReply, Outcome};

/// Hosts, sites, k and slot.
type Layout = (u8, (u8, (u8, u8)));

/// The transaction that ended last, the calls that were applied, and the last replies.
type Calls = (Option<(u64, Outcome)>, (Vec<Applied>, Vec<LastReply>));

fn read_calls(alloc: Global, bytes: &[u8]) -> Result<(Calls, &[u8]), Unread>
    ensures { Gives (λ x. ((x.0.0, (x.0.1.0.items, x.0.1.1.items)), x.1.now)) result
        (both_at last_at (both_at all_applied_at replies_at) bytes.now) }
{
    let (last, rest) = read_last(alloc, bytes)?;
    let (applied, rest) = read_all_applied(alloc, rest)?;
    let (replies, rest) = read_replies(alloc, rest)?;
    Ok(((last, (applied, replies)), rest))
}

/// As format 1 has them: without replies.
fn read_old_calls(alloc: Global, bytes: &[u8]) -> Result<(Calls, &[u8]), Unread>
    ensures { Gives (λ x. ((x.0.0, (x.0.1.0.items, x.0.1.1.items)), x.1.now)) result
        (both_at old_last_at (both_at all_applied_at no_replies_at) bytes.now) }
{
    let (last, rest) = read_old_last(alloc, bytes)?;
    let (applied, rest) = read_all_applied(alloc, rest)?;
    Ok(((last, (applied, Vec::new(alloc))), rest))
}

fn make_head(
    alloc: Global,
    layout: Layout,
    place: (&[u8], (u64, u64)),
    calls: Calls,
) -> Result<BaseHead, AllocError>
    ensures { IfOk result (λ head. Some (head_of head)
        ≡ as_head (layout, ((place.entry.0.now, place.entry.1), (calls.0, (calls.1.0.items, calls.1.1.items))))) }
{
    let (hosts, (sites, (k, slot))) = layout;
    let (ddl, (mark, position)) = place;
    let (last, (applied, replies)) = calls;
    Ok(BaseHead {
        hosts,
        sites,
        k,
        slot,
        ddl: Bytes::of(alloc, ddl)?,
        mark,
        position,
        last,
        applied,
        replies,
    })
}

#[tactic(auto, unfolding(crate::specs::Reading::head_at))]
fn read_head(alloc: Global, bytes: &[u8]) -> Result<(BaseHead, &[u8]), Unread>
    ensures { Gives (λ x. (head_of x.0, x.1.now)) result (head_at bytes.now) }
{
    let (layout, rest) = read_layout(bytes)?;
    let (place, rest) = read_place(rest)?;
    let (calls, rest) = read_calls(alloc, rest)?;
    Ok((make_head(alloc, layout, place, calls)?, rest))
}

#[tactic(auto, unfolding(crate::specs::Reading::old_head_at))]
fn read_old_head(alloc: Global, bytes: &[u8]) -> Result<(BaseHead, &[u8]), Unread>
    ensures { Gives (λ x. (head_of x.0, x.1.now)) result (old_head_at bytes.now) }
{
    let (layout, rest) = read_layout(bytes)?;
    let (place, rest) = read_place(rest)?;
    let (calls, rest) = read_old_calls(alloc, rest)?;
    Ok((make_head(alloc, layout, place, calls)?, rest))
}

fn read_new(alloc: Global, bytes: &[u8]) -> Result<(BaseHead, Vec<Bytes>), Unread>
    ensures { Gives (λ x. base_with x.0 x.1.items) result (base_by head_at bytes.now) }
{
    let (head, rest) = read_head(alloc, bytes)?;
    let chunks = read_chunks(alloc, rest)?;
    Ok((head, chunks))
}

fn read_old(alloc: Global, bytes: &[u8]) -> Result<(BaseHead, Vec<Bytes>), Unread>
    ensures { Gives (λ x. base_with x.0 x.1.items) result (base_by old_head_at bytes.now) }
{
    let (head, rest) = read_old_head(alloc, bytes)?;
    let chunks = read_chunks(alloc, rest)?;
    Ok((head, chunks))
}

/// The number of the format, and what stands behind it.
#[tactic(auto, unfolding(crate::specs::Reading::format_at))]
fn read_format(bytes: &[u8]) -> Result<(u8, &[u8]), Unread>
    ensures { Gives (λ x. (x.0, x.1.now)) result (format_at bytes.now) }
{
    match behind_bytes(&SIGNATURE, bytes) {
        Some(rest) => read_u8(rest),
        None => Err(Unread::NoBase),
    }
}

/// The base that bytes are, of format 1 or 2.
#[tactic(auto, unfolding(crate::specs::Reading::base_of))]
pub(crate) fn read_bytes(alloc: Global, bytes: &[u8]) -> Result<(BaseHead, Vec<Bytes>), Unread>
    ensures { Gives (λ x. base_with x.0 x.1.items) result (base_of bytes.now) }
{
    let (format, rest) = read_format(bytes)?;
    match format {
        1 => read_old(alloc, rest),
        2 => read_new(alloc, rest),
        _ => Err(Unread::NoBase),
    }
}
