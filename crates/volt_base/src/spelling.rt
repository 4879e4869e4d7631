//! An entry as bytes. Numbers are written with their high byte first.

ghost use Rattle.std.specs.Prelude.{◌≡◌, ℕ, ◌<◌, ◌^◌, List, [], ◌∷◌, ◌++◌, length, OnOk};
ghost use Rattle.std.specs.Int.{w16, w32, w64, to_be_bytes};
ghost use Rattle.volt_base.specs.declared.entry.Entry.{Entry};
ghost use Rattle.volt_base.specs.Spelling.{mark_bytes, client_bytes, sp_bytes, end_bytes, applied_bytes, done_bytes, body_bytes, entry_bytes, reply_of, bytes_of, HasClientOfReply, CallFits, OutcomeFits, NumbersFit, Fits};

use crate::bytes::Bytes;
use crate::entry::{Entry, Outcome};
use crate::numbers::{CallNo, ClientNo, Stamp};
use std::alloc::AllocError;

#[tactic(auto, unfolding(crate::specs::Spelling::body_bytes))]
fn put_body(out: &mut Vec<u8>, body: &Bytes) -> Result<(), AllocError>
    requires { length body.now < 2 ^ 32 }
    ensures { OnOk result (out.new.items ≡ out.old.items ++ body_bytes body.now) }
{
    let body = body.as_slice();
    out.extend_from_slice(&(body.len() as u32).to_be_bytes())?;
    out.extend_from_slice(body)
}

#[tactic(auto, unfolding(crate::specs::Spelling::mark_bytes))]
fn put_mark(out: &mut Vec<u8>, kind: u8, call: CallNo, point: Stamp) -> Result<(), AllocError>
    ensures { OnOk result (out.new.items ≡ out.old.items ++ mark_bytes kind call point) }
{
    out.push(kind)?;
    out.extend_from_slice(&call.to_be_bytes())?;
    out.extend_from_slice(&point.to_be_bytes())
}

// A client's call.
fn put_client(out: &mut Vec<u8>, kind: u8, call: CallNo, client: ClientNo) -> Result<(), AllocError>
    ensures { OnOk result (out.new.items ≡ out.old.items ++ kind ∷ (to_be_bytes w32 call ++ client ∷ [])) }
{
    out.push(kind)?;
    out.extend_from_slice(&call.to_be_bytes())?;
    out.push(client)?;
    Ok(())
}

fn put_point(out: &mut Vec<u8>, point: Stamp, bytes: &Bytes) -> Result<(), AllocError>
    requires { length bytes.now < 2 ^ 32 }
    ensures { OnOk result (out.new.items ≡ out.old.items ++ (to_be_bytes w64 point ++ body_bytes bytes.now)) }
{
    out.extend_from_slice(&point.to_be_bytes())?;
    put_body(out, bytes)
}

// A client's call, and the body or reply that belongs to it.
#[tactic(auto, unfolding(crate::specs::Spelling::client_bytes), using(crate::proofs::Fields::client_joined))]
fn put_of_client(
    out: &mut Vec<u8>,
    kind: u8,
    call: CallNo,
    client: ClientNo,
    point: Stamp,
    bytes: &Bytes,
) -> Result<(), AllocError>
    requires { length bytes.now < 2 ^ 32 }
    ensures { OnOk result (out.new.items ≡ out.old.items ++ client_bytes kind call client point bytes.now) }
{
    put_client(out, kind, call, client)?;
    put_point(out, point, bytes)
}

#[tactic(auto, unfolding(crate::specs::Spelling::sp_bytes))]
fn put_sp(
    out: &mut Vec<u8>,
    call: CallNo,
    client: ClientNo,
    point: Stamp,
    body: &Bytes,
) -> Result<(), AllocError>
    requires { length body.now < 2 ^ 32 }
    ensures { OnOk result (out.new.items ≡ out.old.items ++ sp_bytes call client point body.now) }
{
    if client == 0 {
        put_mark(out, 1, call, point)?;
        put_body(out, body)
    } else {
        put_of_client(out, 4, call, client, point, body)
    }
}

// The kind of the entry, and the number of its transaction.
fn put_head(out: &mut Vec<u8>, kind: u8, transaction: u64) -> Result<(), AllocError>
    ensures { OnOk result (out.new.items ≡ out.old.items ++ kind ∷ to_be_bytes w64 transaction) }
{
    out.push(kind)?;
    out.extend_from_slice(&transaction.to_be_bytes())
}

fn put_round(out: &mut Vec<u8>, transaction: u64, round: u16) -> Result<(), AllocError>
    ensures { OnOk result (out.new.items
        ≡ out.old.items ++ 2 ∷ (to_be_bytes w64 transaction ++ to_be_bytes w16 round)) }
{
    put_head(out, 2, transaction)?;
    out.extend_from_slice(&round.to_be_bytes())
}

#[tactic(auto, unfolding(crate::specs::Spelling::entry_bytes))]
fn put_frag(out: &mut Vec<u8>, transaction: u64, round: u16, body: &Bytes) -> Result<(), AllocError>
    requires { length body.now < 2 ^ 32 }
    ensures { OnOk result (out.new.items
        ≡ out.old.items ++ entry_bytes (Entry.Frag transaction round body.now)) }
{
    put_round(out, transaction, round)?;
    put_body(out, body)
}

// The end of a transaction that has no client's call.
#[tactic(auto, unfolding(crate::specs::Spelling::end_bytes))]
fn put_end(
    out: &mut Vec<u8>,
    transaction: u64,
    kind: u8,
    call: CallNo,
    point: Stamp,
) -> Result<(), AllocError>
    ensures { OnOk result (out.new.items ≡ out.old.items ++ end_bytes transaction kind call point) }
{
    put_head(out, 3, transaction)?;
    put_mark(out, kind, call, point)
}

// The end of one that applies a call.
#[tactic(auto, unfolding(crate::specs::Spelling::applied_bytes))]
fn put_applied(
    out: &mut Vec<u8>,
    transaction: u64,
    kind: u8,
    call: CallNo,
    client: ClientNo,
    point: Stamp,
    reply: &Bytes,
) -> Result<(), AllocError>
    requires { length reply.now < 2 ^ 32 }
    ensures { OnOk result (out.new.items ≡ out.old.items ++ applied_bytes transaction kind call client point reply.now) }
{
    if client == 0 {
        put_end(out, transaction, kind, call, point)
    } else {
        put_head(out, 5, transaction)?;
        put_of_client(out, kind, call, client, point, reply)
    }
}

#[tactic(auto, unfolding(crate::specs::Spelling::done_bytes))]
fn put_done(out: &mut Vec<u8>, transaction: u64, outcome: &Outcome) -> Result<(), AllocError>
    requires { length (reply_of outcome.now) < 2 ^ 32 }
    ensures spelled { OnOk result (out.new.items ≡ out.old.items ++ done_bytes transaction outcome.now) }
    ensures fits { OutcomeFits outcome.now }
{
    match outcome {
        Outcome::Dropped => put_end(out, transaction, 0, 0, 0),
        Outcome::Kept {
            call,
            client,
            point,
            reply,
        } => { put_applied(out, transaction, 1, *call, *client, *point, reply) }
        Outcome::Aborted {
            call,
            client,
            point,
            reply,
        } => { put_applied(out, transaction, 2, *call, *client, *point, reply) }
        Outcome::Snapshot => put_end(out, transaction, 3, 0, 0),
    }
}

/// Writes the spelling of an entry at the end.
#[tactic(auto, unfolding(crate::specs::Spelling::entry_bytes))]
pub(crate) fn put_entry(out: &mut Vec<u8>, entry: &Entry) -> Result<(), AllocError>
    requires { length (bytes_of entry.now) < 2 ^ 32 }
    ensures spelled { OnOk result (out.new.items ≡ out.old.items ++ entry_bytes entry.now) }
    ensures fits { OnOk result (NumbersFit entry.now) }
{
    match entry {
        Entry::Sp {
            call,
            client,
            point,
            body,
        } => put_sp(out, *call, *client, *point, body),
        Entry::Frag {
            transaction,
            round,
            body,
        } => put_frag(out, *transaction, *round, body),
        Entry::Done {
            transaction,
            outcome,
        } => put_done(out, *transaction, outcome),
    }
}

/// No spelling of an entry begins another's: bytes begin with the spelling of one entry at most.
pub fn one_spelling()
    ensures { (a b : Entry) (x y : List ℕ) → Fits a → Fits b
        → entry_bytes a ++ x ≡ entry_bytes b ++ y → (a ≡ b) × (x ≡ y) }
{}
