//! The lines and sections of a report.

ghost use Rattle.std.specs.Prelude.{◌≡◌, [], ◌∷◌, ◌++◌, codes, decimal, OnOk};
ghost use Rattle.volt_report.specs.Spelling.{then_number, newline, section, applied_line};

use crate::parts::{put_applied_line, put_byte, put_decimal, put_number, put_pair};
use std::alloc::AllocError;
use volt_base::{Applied, CallNo, ClientNo, Pos, SlotNo, Stamp};

/// The first line of a report.
pub fn print_opening(into: &mut Vec<u8>) -> Result<(), AllocError>
    ensures { OnOk result (into.new.items ≡ into.old.items ++ codes "volt 1" ++ newline) }
{
    into.extend_from_slice(b"volt 1\n")
}

/// The line before a list: a word, how many things follow, and the end of the line.
pub fn print_head(into: &mut Vec<u8>, word: &[u8], count: usize) -> Result<(), AllocError>
    ensures { OnOk result (into.new.items
        ≡ into.old.items ++ word.now ++ then_number count ++ newline) }
{
    into.extend_from_slice(word)?;
    put_number(into, count as u64)?;
    put_byte(into, b'\n')
}

// The numbers of a call and of its client.
fn put_call_and_client(into: &mut Vec<u8>, call: CallNo, client: ClientNo) -> Result<(), AllocError>
    ensures { OnOk result (into.new.items
        ≡ into.old.items ++ decimal call ++ then_number client) }
{
    put_decimal(into, u64::from(call))?;
    put_number(into, u64::from(client))
}

/// The prefix of a call that ended, up to its end: its number, its client, the stamps of its
/// submission and of its end, and a space.
pub fn print_call_head(
    into: &mut Vec<u8>,
    call: CallNo,
    client: ClientNo,
    submitted: Stamp,
    ended: Stamp,
) -> Result<(), AllocError>
    ensures { OnOk result (into.new.items ≡ into.old.items ++ decimal call
        ++ then_number client ++ then_number submitted ++ then_number ended ++ 32 ∷ []) }
{
    put_call_and_client(into, call, client)?;
    put_pair(into, submitted, ended)?;
    put_byte(into, b' ')
}

/// The first line of a copy or a look: a word, the slot, the position, and how many rows follow.
pub fn print_copy_head(
    into: &mut Vec<u8>,
    word: &[u8],
    slot: SlotNo,
    position: Pos,
    rows: usize,
) -> Result<(), AllocError>
    ensures { OnOk result (into.new.items ≡ into.old.items ++ word.now
        ++ then_number slot ++ then_number position ++ then_number rows ++ newline) }
{
    into.extend_from_slice(word)?;
    put_pair(into, u64::from(slot), position)?;
    print_head(into, b"", rows)
}

/// The serial list of calls: how many there are, and a line for each.
pub fn print_serial(into: &mut Vec<u8>, serial: &[Applied]) -> Result<(), AllocError>
    ensures { OnOk result (into.new.items
        ≡ into.old.items ++ section (codes "serial") applied_line serial.now) }
{
    print_head(into, b"serial", serial.len())?;
    for applied in serial {
        put_applied_line(into, *applied)?;
    }
    Ok(())
}
