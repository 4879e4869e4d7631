//! Reads an entry from the beginning of bytes. Numbers have their high byte first.

ghost use Rattle.std.specs.Prelude.{◌≡◌, Some, None};
ghost use Rattle.std.specs.Int.{w16, w32, w64};
ghost use Rattle.volt_base.specs.Reading.{Gives, number_at, body_at, mark_at, client_at, of_client_at, sp_at, client_sp_at, frag_at, outcome_of, applied_of, outcome_at, applied_at, done_at, entry_at};

use crate::bytes::Bytes;
use crate::entry::{Entry, Outcome};
use crate::numbers::{CallNo, ClientNo, Stamp};
use std::alloc::{AllocError, Global};

/// Why nothing was read.
#[derive(Debug, Drop)]
pub(crate) enum Unread {
    /// No prefix of the bytes is what is read.
    NoEntry,
    NoMemory,
}

impl From<AllocError> for Unread {
    ghost use Rattle.volt_base.specs.declared.reading.Unread.TheVariants.{NoMemory};

    ghost from_gives = { λ _ e. e ≡ NoMemory };

    fn from(_e: AllocError) -> Unread {
        Unread::NoMemory
    }
}

fn read_u16(bytes: &[u8]) -> Result<(u16, &[u8]), Unread>
    ensures { Gives (λ x. (x.0, x.1.now)) result (number_at w16 bytes.now) }
{
    if bytes.len() < 2 {
        return Err(Unread::NoEntry);
    }
    let (prefix, rest) = bytes.split_at(2);
    let number = u16::from_be_bytes([prefix[0], prefix[1]]);
    Ok((number, rest))
}

fn read_u32(bytes: &[u8]) -> Result<(u32, &[u8]), Unread>
    ensures { Gives (λ x. (x.0, x.1.now)) result (number_at w32 bytes.now) }
{
    if bytes.len() < 4 {
        return Err(Unread::NoEntry);
    }
    let (prefix, rest) = bytes.split_at(4);
    let number = u32::from_be_bytes([prefix[0], prefix[1], prefix[2], prefix[3]]);
    Ok((number, rest))
}

fn read_u64(bytes: &[u8]) -> Result<(u64, &[u8]), Unread>
    ensures { Gives (λ x. (x.0, x.1.now)) result (number_at w64 bytes.now) }
{
    if bytes.len() < 8 {
        return Err(Unread::NoEntry);
    }
    let (prefix, rest) = bytes.split_at(8);
    let number = u64::from_be_bytes([
        prefix[0], prefix[1], prefix[2], prefix[3], prefix[4], prefix[5], prefix[6], prefix[7],
    ]);
    Ok((number, rest))
}

#[tactic(auto, unfolding(crate::specs::Reading::body_at))]
fn read_body(bytes: &[u8]) -> Result<(&[u8], &[u8]), Unread>
    ensures { Gives (λ x. (x.0.now, x.1.now)) result (body_at bytes.now) }
{
    let (len, rest) = read_u32(bytes)?;
    let len = len as usize;
    if rest.len() < len {
        return Err(Unread::NoEntry);
    }
    Ok(rest.split_at(len))
}

#[tactic(auto, unfolding(crate::specs::Reading::mark_at))]
fn read_mark(bytes: &[u8]) -> Result<(CallNo, Stamp, &[u8]), Unread>
    ensures { Gives (λ x. (x.0, x.1, x.2.now)) result (mark_at bytes.now) }
{
    let (call, rest) = read_u32(bytes)?;
    let (point, rest) = read_u64(rest)?;
    Ok((call, point, rest))
}

fn read_client(bytes: &[u8]) -> Result<(ClientNo, &[u8]), Unread>
    ensures { Gives (λ x. (x.0, x.1.now)) result (client_at bytes.now) }
{
    match bytes {
        [] | [0, ..] => Err(Unread::NoEntry),
        [client, rest @ ..] => Ok((*client, rest)),
    }
}

#[tactic(auto, unfolding(crate::specs::Reading::of_client_at))]
fn read_of_client(bytes: &[u8]) -> Result<(CallNo, ClientNo, Stamp, &[u8], &[u8]), Unread>
    ensures { Gives (λ x. (x.0, x.1, x.2, x.3.now, x.4.now)) result (of_client_at bytes.now) }
{
    let (call, rest) = read_u32(bytes)?;
    let (client, rest) = read_client(rest)?;
    let (point, rest) = read_u64(rest)?;
    let (body, rest) = read_body(rest)?;
    Ok((call, client, point, body, rest))
}

#[tactic(auto, unfolding(crate::specs::Reading::sp_at))]
fn read_sp(alloc: Global, bytes: &[u8]) -> Result<(Entry, &[u8]), Unread>
    ensures { Gives (λ x. (x.0, x.1.now)) result (sp_at bytes.now) }
{
    let (call, point, rest) = read_mark(bytes)?;
    let (body, rest) = read_body(rest)?;
    let body = Bytes::of(alloc, body)?;
    let client = 0;
    Ok((
        Entry::Sp {
            call,
            client,
            point,
            body,
        },
        rest,
    ))
}

#[tactic(auto, unfolding(crate::specs::Reading::client_sp_at))]
fn read_client_sp(alloc: Global, bytes: &[u8]) -> Result<(Entry, &[u8]), Unread>
    ensures { Gives (λ x. (x.0, x.1.now)) result (client_sp_at bytes.now) }
{
    let (call, client, point, body, rest) = read_of_client(bytes)?;
    let body = Bytes::of(alloc, body)?;
    Ok((
        Entry::Sp {
            call,
            client,
            point,
            body,
        },
        rest,
    ))
}

#[tactic(auto, unfolding(crate::specs::Reading::frag_at))]
fn read_frag(alloc: Global, bytes: &[u8]) -> Result<(Entry, &[u8]), Unread>
    ensures { Gives (λ x. (x.0, x.1.now)) result (frag_at bytes.now) }
{
    let (transaction, rest) = read_u64(bytes)?;
    let (round, rest) = read_u16(rest)?;
    let (body, rest) = read_body(rest)?;
    let body = Bytes::of(alloc, body)?;
    Ok((
        Entry::Frag {
            transaction,
            round,
            body,
        },
        rest,
    ))
}

fn known_outcome(alloc: Global, kind: u8, call: CallNo, point: Stamp) -> Option<Outcome>
    ensures { result ≡ outcome_of kind call point }
{
    let client = 0;
    let reply = Bytes::from_vec(Vec::new(alloc));
    match (kind, call, point) {
        (0, 0, 0) => Some(Outcome::Dropped),
        (1, _, _) => Some(Outcome::Kept {
            call,
            client,
            point,
            reply,
        }),
        (2, _, _) => Some(Outcome::Aborted {
            call,
            client,
            point,
            reply,
        }),
        (3, 0, 0) => Some(Outcome::Snapshot),
        _ => None,
    }
}

fn known_applied(
    kind: u8,
    call: CallNo,
    client: ClientNo,
    point: Stamp,
    reply: Bytes,
) -> Option<Outcome>
    ensures { result ≡ applied_of kind call client point reply }
{
    match kind {
        1 => Some(Outcome::Kept {
            call,
            client,
            point,
            reply,
        }),
        2 => Some(Outcome::Aborted {
            call,
            client,
            point,
            reply,
        }),
        _ => None,
    }
}

#[tactic(auto, unfolding(crate::specs::Reading::outcome_at))]
fn read_outcome(alloc: Global, bytes: &[u8]) -> Result<(Outcome, &[u8]), Unread>
    ensures { Gives (λ x. (x.0, x.1.now)) result (outcome_at bytes.now) }
{
    match bytes {
        [] => Err(Unread::NoEntry),
        [kind, rest @ ..] => {
            let (call, point, rest) = read_mark(rest)?;
            match known_outcome(alloc, *kind, call, point) {
                Some(outcome) => Ok((outcome, rest)),
                None => Err(Unread::NoEntry),
            }
        }
    }
}

#[tactic(auto, unfolding(crate::specs::Reading::applied_at))]
fn read_applied(alloc: Global, bytes: &[u8]) -> Result<(Outcome, &[u8]), Unread>
    ensures { Gives (λ x. (x.0, x.1.now)) result (applied_at bytes.now) }
{
    match bytes {
        [] => Err(Unread::NoEntry),
        [kind, rest @ ..] => {
            let (call, client, point, reply, rest) = read_of_client(rest)?;
            let reply = Bytes::of(alloc, reply)?;
            match known_applied(*kind, call, client, point, reply) {
                Some(outcome) => Ok((outcome, rest)),
                None => Err(Unread::NoEntry),
            }
        }
    }
}

#[tactic(auto, unfolding(crate::specs::Reading::done_at))]
fn read_done(alloc: Global, bytes: &[u8]) -> Result<(Entry, &[u8]), Unread>
    ensures { Gives (λ x. (x.0, x.1.now)) result (done_at outcome_at bytes.now) }
{
    let (transaction, rest) = read_u64(bytes)?;
    let (outcome, rest) = read_outcome(alloc, rest)?;
    Ok((
        Entry::Done {
            transaction,
            outcome,
        },
        rest,
    ))
}

#[tactic(auto, unfolding(crate::specs::Reading::done_at))]
fn read_client_done(alloc: Global, bytes: &[u8]) -> Result<(Entry, &[u8]), Unread>
    ensures { Gives (λ x. (x.0, x.1.now)) result (done_at applied_at bytes.now) }
{
    let (transaction, rest) = read_u64(bytes)?;
    let (outcome, rest) = read_applied(alloc, rest)?;
    Ok((
        Entry::Done {
            transaction,
            outcome,
        },
        rest,
    ))
}

/// The entry at the beginning of the bytes, and the bytes after it.
#[tactic(auto, unfolding(crate::specs::Reading::entry_at))]
pub(crate) fn read_entry(alloc: Global, bytes: &[u8]) -> Result<(Entry, &[u8]), Unread>
    ensures { Gives (λ x. (x.0, x.1.now)) result (entry_at bytes.now) }
{
    match bytes {
        [1, rest @ ..] => read_sp(alloc, rest),
        [2, rest @ ..] => read_frag(alloc, rest),
        [3, rest @ ..] => read_done(alloc, rest),
        [4, rest @ ..] => read_client_sp(alloc, rest),
        [5, rest @ ..] => read_client_done(alloc, rest),
        _ => Err(Unread::NoEntry),
    }
}
