//! From the outcomes of a world to its report.

ghost use Rattle.std.specs.Prelude.{◌≡◌, true, [], ◌∷◌, ◌++◌, codes, map, List, OnOk, IfOk};
ghost use Rattle.std.specs.List.{AllByRecursion};
ghost use Rattle.volt_report.specs.Report.{Report, CallLine, CopyLine};
ghost use Rattle.volt_report.specs.Spelling.{spelling, newline, section, table_line, call_text, copy_text, applied_line, event_line};
ghost use Rattle.soundness.specs.Tied.{ended_line, copy_shown};
ghost use Rattle.account_engine.specs.Spelling.{reply_bytes};
ghost use Rattle.account_engine.specs.Answers.{is_given};
ghost use Rattle.volt_cmd.specs.Prints.{AreLines, Prints, last_lines, printed_text};

use account_engine::print_reply;
use cluster_core::Outcomes;
use one_host_model::{CopyRows, Ended};
use std::alloc::{AllocError, Global};
use volt_base::Applied;
use volt_report::{print_call_head, print_copy_head, print_head, print_opening, print_serial};
use volt_wire::Event;

/// A report, printed up to its events. These stay as they are, since each of their lines is made
/// as it is written.
#[derive(Drop)]
pub struct Printed {
    /// The bytes of the report, up to the line before its events, and with it.
    pub prefix: Vec<u8>,
    /// The events, in order.
    pub trace: Vec<Event>,
}

/// Prints the report of these outcomes, each of which but the events is let go once it is printed.
pub fn print_report(alloc: Global, outcomes: Outcomes) -> Result<Printed, AllocError>
    ensures { IfOk result (λ printed. (r : Report) → Prints outcomes r → printed_text printed ≡ spelling r) }
{
    let Outcomes {
        ends,
        copies,
        serial,
        trace,
    } = outcomes;
    let mut prefix = Vec::new(alloc);
    print_ends(&mut prefix, &ends)?;
    drop(ends);
    print_serial_and_copies(&mut prefix, &serial, &copies)?;
    drop((serial, copies));
    print_before_events(&mut prefix, &trace)?;
    Ok(Printed { prefix, trace })
}

// The first part of a report: its first line, its opening, and how the calls ended.
fn print_ends(into: &mut Vec<u8>, ends: &[Ended]) -> Result<(), AllocError>
    ensures { OnOk result ((calls : List CallLine) → map (ended_line reply_bytes) calls ≡ ends.now
        → AllByRecursion (λ line. is_given line.end ≡ true) calls
        → into.new.items ≡ into.old.items
        ++ codes "volt 1" ++ newline ++ section (codes "opening") table_line []
        ++ section (codes "calls") call_text calls) }
{
    print_opening(into)?;
    print_no_rows(into)?;
    print_calls(into, ends)
}

// The second part: the serial list, and the copies.
fn print_serial_and_copies(
    into: &mut Vec<u8>,
    serial: &[Applied],
    copies: &[CopyRows],
) -> Result<(), AllocError>
    ensures { OnOk result ((shown : List CopyLine) → map copy_shown shown ≡ copies.now
        → AllByRecursion (λ c. AreLines c.rows) shown
        → into.new.items ≡ into.old.items
        ++ section (codes "serial") applied_line serial.now
        ++ section (codes "copies") (copy_text (codes "copy")) shown) }
{
    print_serial(into, serial)?;
    print_copies(into, copies)
}

// The third part, behind which only the last lines are wanting: the looks, of which there are none,
// and how many events follow.
fn print_before_events(into: &mut Vec<u8>, trace: &[Event]) -> Result<(), AllocError>
    ensures { OnOk result (into.new.items ++ last_lines trace.now ≡ into.old.items
        ++ section (codes "looks") (copy_text (codes "look")) []
        ++ section (codes "trace") event_line trace.now ++ codes "end" ++ newline) }
{
    print_no_looks(into)?;
    print_head(into, b"trace", trace.len())
}

// The opening, which has no rows.
fn print_no_rows(into: &mut Vec<u8>) -> Result<(), AllocError>
    ensures { OnOk result (into.new.items
        ≡ into.old.items ++ section (codes "opening") table_line []) }
{
    print_head(into, b"opening", 0)
}

// The looks, of which there are none.
fn print_no_looks(into: &mut Vec<u8>) -> Result<(), AllocError>
    ensures { OnOk result (into.new.items
        ≡ into.old.items ++ section (codes "looks") (copy_text (codes "look")) []) }
{
    print_head(into, b"looks", 0)
}

// How many calls ended, and how each of them did.
fn print_calls(into: &mut Vec<u8>, ends: &[Ended]) -> Result<(), AllocError>
    ensures { OnOk result ((calls : List CallLine) → map (ended_line reply_bytes) calls ≡ ends.now
        → AllByRecursion (λ line. is_given line.end ≡ true) calls
        → into.new.items ≡ into.old.items ++ section (codes "calls") call_text calls) }
{
    print_head(into, b"calls", ends.len())?;
    for end in ends {
        print_call(into, end)?;
    }
    Ok(())
}

// How a call ended.
fn print_call(into: &mut Vec<u8>, end: &Ended) -> Result<(), AllocError>
    ensures { OnOk result ((line : CallLine) → ended_line reply_bytes line ≡ end.now
        → is_given line.end ≡ true → into.new.items ≡ into.old.items ++ call_text line) }
{
    print_call_head(into, end.call, end.client, end.submitted, end.ended)?;
    print_reply(end.reply.as_slice(), into)
}

// How many copies there are, and the rows of each.
fn print_copies(into: &mut Vec<u8>, copies: &[CopyRows]) -> Result<(), AllocError>
    ensures { OnOk result ((shown : List CopyLine) → map copy_shown shown ≡ copies.now
        → AllByRecursion (λ c. AreLines c.rows) shown
        → into.new.items ≡ into.old.items ++ section (codes "copies") (copy_text (codes "copy")) shown) }
{
    print_head(into, b"copies", copies.len())?;
    for copy in copies {
        print_copy(into, copy)?;
    }
    Ok(())
}

// The rows of a copy, each of them a line.
fn print_copy(into: &mut Vec<u8>, copy: &CopyRows) -> Result<(), AllocError>
    ensures { OnOk result ((shown : CopyLine) → copy_shown shown ≡ copy.now → AreLines shown.rows
        → into.new.items ≡ into.old.items ++ copy_text (codes "copy") shown) }
{
    let rows = copy.rows.as_slice();
    let count = rows.iter().filter(|b| **b == b'\n').count();
    print_copy_head(into, b"copy", copy.slot, copy.position, count)?;
    into.extend_from_slice(rows)
}
