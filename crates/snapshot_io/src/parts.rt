//! Reads the parts of a head.

ghost use Rattle.std.specs.Prelude.{◌≡◌, List, ℕ, Option, Some, None, true, false, OnOk};
ghost use Rattle.volt_base.specs.Reading.{outcome_of, outcome_at, entry_at};
ghost use Rattle.snapshot_io.specs.Base.{rise_above};
ghost use Rattle.snapshot_io.specs.Reading.{Gives, layout_at, place_at, last_of, last_at, old_last_of, old_last_at, applied_at, many_at, all_applied_at, reply_at, replies_at, if_rising};

use crate::reading::{Unread, read_body, read_u8, read_u32, read_u64};
use std::alloc::{AllocError, Global};
use volt_base::{Applied, Bytes, CallNo, Entry, LastReply, Outcome, Stamp};

/// Hosts, sites, k and slot.
#[tactic(auto, unfolding(crate::specs::Reading::layout_at))]
pub(crate) fn read_layout(bytes: &[u8]) -> Result<((u8, (u8, (u8, u8))), &[u8]), Unread>
    ensures { Gives (λ x. (x.0, x.1.now)) result (layout_at bytes.now) }
{
    let (hosts, rest) = read_u8(bytes)?;
    let (sites, rest) = read_u8(rest)?;
    let (k, rest) = read_u8(rest)?;
    let (slot, rest) = read_u8(rest)?;
    Ok(((hosts, (sites, (k, slot))), rest))
}

/// The definitions, the mark and the position.
#[tactic(auto, unfolding(crate::specs::Reading::place_at))]
pub(crate) fn read_place(bytes: &[u8]) -> Result<((&[u8], (u64, u64)), &[u8]), Unread>
    ensures { Gives (λ x. ((x.0.0.now, x.0.1), x.1.now)) result (place_at bytes.now) }
{
    let (ddl, rest) = read_body(bytes)?;
    let (mark, rest) = read_u64(rest)?;
    let (position, rest) = read_u64(rest)?;
    Ok(((ddl, (mark, position)), rest))
}

/// The entry at the beginning of the bytes, and the bytes behind it.
fn read_entry(alloc: Global, bytes: &[u8]) -> Result<(Entry, &[u8]), Unread>
    ensures { Gives (λ x. (x.0, x.1.now)) result (entry_at bytes.now) }
{
    match Entry::decode(alloc, bytes)? {
        Some((entry, len)) => Ok((entry, &bytes[len..])),
        None => Err(Unread::NoBase),
    }
}

/// The transaction that an entry ends; the entry is all of the bytes. None where there are none.
fn read_ended(alloc: Global, bytes: &[u8]) -> Result<Option<(u64, Outcome)>, Unread>
    ensures { Gives (λ x. x) result (last_of bytes.now) }
{
    if bytes.is_empty() {
        return Ok(None);
    }
    match read_entry(alloc, bytes)? {
        (
            Entry::Done {
                transaction,
                outcome,
            },
            [],
        ) => {
            if transaction == 0 {
                Err(Unread::NoBase)
            } else {
                Ok(Some((transaction, outcome)))
            }
        }
        _ => Err(Unread::NoBase),
    }
}

/// The transaction that ended last.
#[tactic(auto, unfolding(crate::specs::Reading::last_at))]
pub(crate) fn read_last(
    alloc: Global,
    bytes: &[u8],
) -> Result<(Option<(u64, Outcome)>, &[u8]), Unread>
    ensures { Gives (λ x. (x.0, x.1.now)) result (last_at bytes.now) }
{
    let (entry, rest) = read_body(bytes)?;
    let last = read_ended(alloc, entry)?;
    Ok((last, rest))
}

/// The outcome of a transaction of format 1. The call that it applies is of no client.
fn known_outcome(alloc: Global, kind: u8, call: CallNo, point: Stamp) -> Option<Outcome>
    ensures { result ≡ outcome_of kind call point }
{
    let client = 0;
    let reply = Bytes::from_vec(Vec::new(alloc));
    match (kind, call, point) {
        (0, 0, 0) => Some(Outcome::Dropped),
        (1, _, _) => Some(Outcome::Kept {
            call,
            client,
            point,
            reply,
        }),
        (2, _, _) => Some(Outcome::Aborted {
            call,
            client,
            point,
            reply,
        }),
        (3, 0, 0) => Some(Outcome::Snapshot),
        _ => None,
    }
}

#[tactic(auto, unfolding(volt_base::specs::Reading::outcome_at, volt_base::specs::Reading::mark_at))]
fn read_outcome(alloc: Global, bytes: &[u8]) -> Result<(Outcome, &[u8]), Unread>
    ensures { Gives (λ x. (x.0, x.1.now)) result (outcome_at bytes.now) }
{
    let (kind, rest) = read_u8(bytes)?;
    let (call, rest) = read_u32(rest)?;
    let (point, rest) = read_u64(rest)?;
    match known_outcome(alloc, kind, call, point) {
        Some(outcome) => Ok((outcome, rest)),
        None => Err(Unread::NoBase),
    }
}

/// A transaction of format 1: none where its number and its outcome are zeros.
fn known_last(transaction: u64, outcome: Outcome) -> Result<Option<(u64, Outcome)>, Unread>
    ensures { Gives (λ x. x) result (old_last_of (transaction, outcome)) }
{
    if transaction > 0 {
        return Ok(Some((transaction, outcome)));
    }
    match outcome {
        Outcome::Dropped => Ok(None),
        _ => Err(Unread::NoBase),
    }
}

/// The transaction that ended last, as format 1 has it.
#[tactic(auto, unfolding(crate::specs::Reading::old_last_at))]
pub(crate) fn read_old_last(
    alloc: Global,
    bytes: &[u8],
) -> Result<(Option<(u64, Outcome)>, &[u8]), Unread>
    ensures { Gives (λ x. (x.0, x.1.now)) result (old_last_at bytes.now) }
{
    let (transaction, rest) = read_u64(bytes)?;
    let (outcome, rest) = read_outcome(alloc, rest)?;
    let last = known_last(transaction, outcome)?;
    Ok((last, rest))
}

#[tactic(auto, unfolding(crate::specs::Reading::applied_at))]
fn read_applied(bytes: &[u8]) -> Result<(Applied, &[u8]), Unread>
    ensures { Gives (λ x. (x.0, x.1.now)) result (applied_at bytes.now) }
{
    let (call, rest) = read_u32(bytes)?;
    let (point, rest) = read_u64(rest)?;
    Ok((Applied { call, point }, rest))
}

fn read_so_many_applied(
    alloc: Global,
    count: u32,
    bytes: &[u8],
) -> Result<(Vec<Applied>, &[u8]), Unread>
    ensures { Gives (λ x. (x.0.items, x.1.now)) result (many_at applied_at count bytes.now) }
{
    let mut applied = Vec::new(alloc);
    let mut rest = bytes;
    let mut left = count;
    while left > 0 {
        let (one, behind) = read_applied(rest)?;
        if applied.push(one).is_err() {
            return Err(Unread::NoMemory);
        }
        rest = behind;
        left -= 1;
    }
    Ok((applied, rest))
}

/// The calls that were applied.
#[tactic(auto, unfolding(crate::specs::Reading::all_applied_at))]
pub(crate) fn read_all_applied(alloc: Global, bytes: &[u8]) -> Result<(Vec<Applied>, &[u8]), Unread>
    ensures { Gives (λ x. (x.0.items, x.1.now)) result (all_applied_at bytes.now) }
{
    let (count, rest) = read_u32(bytes)?;
    read_so_many_applied(alloc, count, rest)
}

#[tactic(auto, unfolding(crate::specs::Reading::reply_at))]
fn read_reply(alloc: Global, bytes: &[u8]) -> Result<(LastReply, &[u8]), Unread>
    ensures { Gives (λ x. (x.0, x.1.now)) result (reply_at bytes.now) }
{
    let (client, rest) = read_u8(bytes)?;
    let (call, rest) = read_u32(rest)?;
    let (reply, rest) = read_body(rest)?;
    let reply = Bytes::of(alloc, reply)?;
    Ok((
        LastReply {
            client,
            call,
            reply,
        },
        rest,
    ))
}

fn read_so_many_replies(
    alloc: Global,
    count: u8,
    bytes: &[u8],
) -> Result<(Vec<LastReply>, &[u8]), Unread>
    ensures { Gives (λ x. (x.0.items, x.1.now)) result (many_at reply_at count bytes.now) }
{
    let mut replies = Vec::new(alloc);
    let mut rest = bytes;
    let mut left = count;
    while left > 0 {
        let (one, behind) = read_reply(alloc, rest)?;
        if replies.push(one).is_err() {
            return Err(Unread::NoMemory);
        }
        rest = behind;
        left -= 1;
    }
    Ok((replies, rest))
}

/// Whether the clients of replies rise from 1 on.
pub(crate) fn rise(replies: &[LastReply]) -> bool
    ensures { result ≡ rise_above 0 replies.now }
{
    let mut before = 0;
    let mut left = replies;
    while let [reply, rest @ ..] = left {
        if reply.client <= before {
            return false;
        }
        before = reply.client;
        left = rest;
    }
    true
}

/// The last replies.
#[tactic(auto, unfolding(crate::specs::Reading::replies_at))]
pub(crate) fn read_replies(alloc: Global, bytes: &[u8]) -> Result<(Vec<LastReply>, &[u8]), Unread>
    ensures { Gives (λ x. (x.0.items, x.1.now)) result (replies_at bytes.now) }
{
    let (count, rest) = read_u8(bytes)?;
    let (replies, rest) = read_so_many_replies(alloc, count, rest)?;
    if rise(&replies) {
        Ok((replies, rest))
    } else {
        Err(Unread::NoBase)
    }
}
