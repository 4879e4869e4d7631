//! Writes records.

ghost use Rattle.std.specs.Prelude.{◌≡◌, ◌+◌, ◌-◌, ◌≤◌, ◌^◌, ℕ, Option, List, ◌++◌, length, drop, IfOk, OnOk};
ghost use Rattle.std.specs.List.{AllByRecursion};
ghost use Rattle.log_records.specs.Records.{CanSpell, RecordFits, record_bytes, records_bytes, placed, records_with};
ghost use Rattle.log_records.specs.declared.record.Record.TheVariants.{Mark, Placed};

use crate::record::{MARK, PLACED};
use std::alloc::{AllocError, Global};
use std::collections::VecDeque;
use volt_base::{Entry, Pos, Term};

#[tactic(auto, unfolding(crate::specs::Records::record_bytes))]
fn put_mark(out: &mut Vec<u8>, term: Term) -> Result<(), AllocError>
    ensures spelled { OnOk result (out.new.items ≡ out.old.items ++ record_bytes (Mark term)) }
    ensures fits { OnOk result (RecordFits (Mark term)) }
{
    out.push(MARK)?;
    out.extend_from_slice(&term.to_be_bytes())
}

#[tactic(auto, unfolding(crate::specs::Records::record_bytes))]
fn put_entry(
    alloc: Global,
    out: &mut Vec<u8>,
    position: Pos,
    entry: &Entry,
) -> Result<(), AllocError>
    requires { CanSpell entry.now }
    ensures spelled { OnOk result (out.new.items ≡ out.old.items ++ record_bytes (Placed position entry.now)) }
    ensures fits { OnOk result (RecordFits (Placed position entry.now)) }
{
    let spelled = entry.encode(alloc)?;
    out.push(PLACED)?;
    out.extend_from_slice(&position.to_be_bytes())?;
    out.extend_from_slice(spelled.as_slice())
}

/// Writes the entries from an index on, at positions that go on from the one given.
fn put_entries(
    alloc: Global,
    out: &mut Vec<u8>,
    from: Pos,
    entries: &VecDeque<Entry>,
    first: usize,
) -> Result<(), AllocError>
    requires each { AllByRecursion CanSpell (drop first entries.now.items) }
    requires within { first ≤ length entries.now.items }
    requires place { from + length (drop first entries.now.items) ≤ 2 ^ 64 - 1 }
    ensures spelled { OnOk result (out.new.items
        ≡ out.old.items ++ records_bytes (placed from (drop first entries.now.items))) }
    ensures fits { OnOk result (AllByRecursion RecordFits (placed from (drop first entries.now.items))) }
{
    let mut at = first;
    let mut position = from;
    while at < entries.len() {
        put_entry(alloc, out, position, &entries[at])?;
        at += 1;
        position += 1;
    }
    Ok(())
}

/// The batch of a mark, if there is one, and of the entries from an index on, at positions that go on
/// from the one given: room for the length of its body, which is four bytes, and the body. No entry is
/// copied but as its bytes.
pub fn encode_records(
    alloc: Global,
    mark: Option<Term>,
    from: Pos,
    entries: &VecDeque<Entry>,
    first: usize,
) -> Result<Vec<u8>, AllocError>
    requires each { AllByRecursion CanSpell (drop first entries.now.items) }
    requires within { first ≤ length entries.now.items }
    requires place { from + length (drop first entries.now.items) ≤ 2 ^ 64 - 1 }
    ensures room { IfOk result (λ batch. 4 ≤ length batch.items) }
    ensures spelled { IfOk result (λ batch. drop 4 batch.items
        ≡ records_bytes (records_with mark (placed from (drop first entries.now.items)))) }
    ensures fits { OnOk result (AllByRecursion RecordFits (records_with mark (placed from (drop first entries.now.items)))) }
{
    let mut out = Vec::new(alloc);
    out.extend_from_slice(&[0, 0, 0, 0])?;
    if let Some(term) = mark {
        put_mark(&mut out, term)?;
    }
    put_entries(alloc, &mut out, from, entries, first)?;
    Ok(out)
}
