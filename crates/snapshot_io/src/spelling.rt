//! The head of a base as bytes. Numbers are written with their high byte first.

ghost use Rattle.std.specs.Prelude.{◌≡◌, ℕ, ◌+◌, ◌<◌, ◌^◌, List, [], ◌∷◌, ◌++◌, flat_map, length, Some, true, IfOk, OnOk};
ghost use Rattle.std.specs.Int.{w32, w64, to_be_bytes};
ghost use Rattle.std.specs.List.{AllByRecursion};
ghost use Rattle.volt_base.specs.Spelling.{body_bytes, done_bytes};
ghost use Rattle.snapshot_io.specs.Base.{head_of, signature, layout_bytes, place_bytes, ended_bytes, last_bytes, applied_bytes, all_applied_bytes, reply_bytes, replies_bytes, calls_bytes, head_bytes, AppliedFits, ReplyFits, LastFits, IfLastFits, HeadFits, CanEnd, IfCanEnd, CanStart};

use crate::head::BaseHead;
use std::alloc::{AllocError, Global};
use volt_base::{Applied, Bytes, CallNo, Entry, LastReply, Outcome, Pos, SlotNo, Stamp, Term};

/// What a base file begins with.
pub(crate) const SIGNATURE: [u8; 4] = [b'V', b'B', b'A', b'S'];

/// The number of the format that is written.
const FORMAT: u8 = 2;

/// A text of bytes behind its length.
#[tactic(auto, unfolding(volt_base::specs::Spelling::body_bytes))]
fn put_body(out: &mut Vec<u8>, body: &[u8]) -> Result<(), AllocError>
    requires { length body.now < 2 ^ 32 }
    ensures { OnOk result (out.new.items ≡ out.old.items ++ body_bytes body.now) }
{
    out.extend_from_slice(&(body.len() as u32).to_be_bytes())?;
    out.extend_from_slice(body)
}

fn copy_outcome(alloc: Global, outcome: &Outcome) -> Result<Outcome, AllocError>
    ensures { IfOk result (λ copy. copy ≡ outcome.now) }
{
    match outcome {
        Outcome::Dropped => Ok(Outcome::Dropped),
        Outcome::Kept {
            call,
            client,
            point,
            reply,
        } => Ok(Outcome::Kept {
            call: *call,
            client: *client,
            point: *point,
            reply: reply.copy(alloc)?,
        }),
        Outcome::Aborted {
            call,
            client,
            point,
            reply,
        } => Ok(Outcome::Aborted {
            call: *call,
            client: *client,
            point: *point,
            reply: reply.copy(alloc)?,
        }),
        Outcome::Snapshot => Ok(Outcome::Snapshot),
    }
}

/// The entry that ends a transaction.
#[tactic(auto, unfolding(volt_base::specs::Spelling::entry_bytes), using(crate::proofs::Ended::ended_short))]
fn encode_ended(alloc: Global, last: &(u64, Outcome)) -> Result<Bytes, AllocError>
    requires { CanEnd last.now }
    ensures spelled { IfOk result (λ bytes. bytes ≡ done_bytes last.now.0 last.now.1) }
    ensures fits { OnOk result (LastFits last.now) }
{
    let outcome = copy_outcome(alloc, &last.1)?;
    let transaction = last.0;
    Entry::Done {
        transaction,
        outcome,
    }
    .encode(alloc)
}

#[tactic(auto, unfolding(crate::specs::Base::last_bytes))]
fn put_last(
    alloc: Global,
    out: &mut Vec<u8>,
    last: &Option<(u64, Outcome)>,
) -> Result<(), AllocError>
    requires { IfCanEnd last.now }
    ensures spelled { OnOk result (out.new.items ≡ out.old.items ++ last_bytes last.now) }
    ensures fits { OnOk result (IfLastFits last.now) }
{
    match last {
        Some(last) => put_body(out, encode_ended(alloc, last)?.as_slice()),
        None => put_body(out, &[]),
    }
}

/// A call and its point.
fn put_call(out: &mut Vec<u8>, call: CallNo, point: Stamp) -> Result<(), AllocError>
    ensures spelled { OnOk result (out.new.items ≡ out.old.items ++ (to_be_bytes w32 call ++ to_be_bytes w64 point)) }
    ensures fits { (call < 2 ^ 32) × (point < 2 ^ 64) }
{
    out.extend_from_slice(&call.to_be_bytes())?;
    out.extend_from_slice(&point.to_be_bytes())
}

#[tactic(auto, unfolding(crate::specs::Base::all_applied_bytes))]
fn put_applied(out: &mut Vec<u8>, applied: &[Applied]) -> Result<(), AllocError>
    requires { length applied.now < 2 ^ 32 }
    ensures spelled { OnOk result (out.new.items ≡ out.old.items ++ all_applied_bytes applied.now) }
    ensures fits { OnOk result (AllByRecursion AppliedFits applied.now) }
{
    out.extend_from_slice(&(applied.len() as u32).to_be_bytes())?;
    let mut left = applied;
    while let [one, rest @ ..] = left {
        put_call(out, one.call, one.point)?;
        left = rest;
    }
    Ok(())
}

fn put_reply(out: &mut Vec<u8>, one: &LastReply) -> Result<(), AllocError>
    requires { length one.now.reply < 2 ^ 32 }
    ensures spelled { OnOk result (out.new.items ≡ out.old.items ++ reply_bytes one.now) }
    ensures fits { OnOk result (ReplyFits one.now) }
{
    out.push(one.client)?;
    out.extend_from_slice(&one.call.to_be_bytes())?;
    put_body(out, one.reply.as_slice())
}

#[tactic(auto, unfolding(crate::specs::Base::replies_bytes))]
fn put_replies(out: &mut Vec<u8>, replies: &[LastReply]) -> Result<(), AllocError>
    requires count { length replies.now < 2 ^ 8 }
    requires each { AllByRecursion (λ r. length r.reply < 2 ^ 32) replies.now }
    ensures spelled { OnOk result (out.new.items ≡ out.old.items ++ replies_bytes replies.now) }
    ensures fits { OnOk result (AllByRecursion ReplyFits replies.now) }
{
    out.push(replies.len() as u8)?;
    let mut left = replies;
    while let [one, rest @ ..] = left {
        put_reply(out, one)?;
        left = rest;
    }
    Ok(())
}

/// The signature, the number of the format, and the layout.
fn put_layout(
    out: &mut Vec<u8>,
    hosts: u8,
    sites: u8,
    k: u8,
    slot: SlotNo,
) -> Result<(), AllocError>
    ensures spelled { OnOk result (out.new.items
        ≡ out.old.items ++ (signature ++ 2 ∷ hosts ∷ sites ∷ k ∷ slot ∷ [])) }
    ensures fits { (hosts < 2 ^ 8) × (sites < 2 ^ 8) × (k < 2 ^ 8) × (slot < 2 ^ 8) }
{
    out.extend_from_slice(&SIGNATURE)?;
    out.extend_from_slice(&[FORMAT, hosts, sites, k, slot])
}

/// The mark and the position.
fn put_position(out: &mut Vec<u8>, mark: Term, position: Pos) -> Result<(), AllocError>
    ensures spelled { OnOk result (out.new.items ≡ out.old.items ++ (to_be_bytes w64 mark ++ to_be_bytes w64 position)) }
    ensures fits { (mark < 2 ^ 64) × (position < 2 ^ 64) }
{
    out.extend_from_slice(&mark.to_be_bytes())?;
    out.extend_from_slice(&position.to_be_bytes())
}

#[tactic(auto, unfolding(crate::specs::Base::place_bytes))]
fn put_place(out: &mut Vec<u8>, head: &BaseHead) -> Result<(), AllocError>
    requires { length head.now.ddl < 2 ^ 32 }
    ensures spelled { OnOk result (out.new.items ≡ out.old.items ++ place_bytes (head_of head.now)) }
    ensures fits { OnOk result ((head.now.mark < 2 ^ 64) × (head.now.position < 2 ^ 64)) }
{
    put_body(out, head.ddl.as_slice())?;
    put_position(out, head.mark, head.position)
}

/// What a file begins with that has a base of this head: the signature, the number of format 2, and
/// the head.
///
/// The number of the last transaction is above 0, and the clients of the last replies rise from 1 on.
/// A text, a reply, the calls and the entry of the last transaction have lengths that four bytes hold,
/// and there are 255 last replies at most.
#[tactic(auto, unfolding(crate::specs::Base::head_bytes, crate::specs::Base::layout_bytes, crate::specs::Base::calls_bytes))]
pub fn encode_head(alloc: Global, head: &BaseHead) -> Result<Vec<u8>, AllocError>
    requires { CanStart (head_of head.now) }
    ensures spelled { IfOk result (λ bytes. bytes.items ≡ head_bytes (head_of head.now)) }
    ensures fits { OnOk result (HeadFits (head_of head.now)) }
{
    let mut out = Vec::new(alloc);
    put_layout(&mut out, head.hosts, head.sites, head.k, head.slot)?;
    put_place(&mut out, head)?;
    put_last(alloc, &mut out, &head.last)?;
    put_applied(&mut out, &head.applied)?;
    put_replies(&mut out, &head.replies)?;
    Ok(out)
}
