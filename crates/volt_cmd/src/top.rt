//! The top call.

ghost use Rattle.std.specs.Prelude.{◌≡◌, ◌+◌, ◌≤◌, ◌↔◌, ℕ, decimal, true, false, List, map, Some, string_bytes, OnOk, OnErr, IfOk, IfErr};
ghost use Rattle.volt_base.specs.Faults.{Increased};
ghost use Rattle.volt_io.specs.States.{SourceGivesAtMost, SinkTakes, SinkTakesPrefixOf};
ghost use Rattle.volt_form.specs.Form.{longest_input, calls_of_text};
ghost use Rattle.volt_cmd.specs.Script.{IsAsked};
ghost use Rattle.volt_cmd.specs.Headline.{Explains, IsOfForm, IsWrongAt, ReadsAll, Reports, ReportsPartly, fault_line, is_command, is_ok_or_no_memory, is_refusal};
ghost use Rattle.volt_cmd.specs.Prints.{printed_text};

use crate::input::{InputFault, read_calls, world_input};
use crate::printing::{Printed, print_report};
use crate::run::run_input;
use crate::status::Status;
use crate::writing::write_report;
use itoa::Buffer;
use std::alloc::{AllocError, Global};
use std::thread::Threads;
use volt_form::ScriptCall;
use volt_io::sink::{Sink, WriteFailed};
use volt_io::source::Source;
use volt_io::transfer::write_all;

/// Runs a command: reads the input from the source, runs it to its end, and writes the report to
/// the sink; or writes the line of a fault. The words don't contain the program's name. Nothing
/// uses the runtime yet.
pub fn volt<R: Threads + Sync, S: Source, K: Sink>(
    _rt: &R,
    alloc: Global,
    words: &[String],
    source: &mut S,
    sink: &mut K,
) -> Status
    // The headline. With Ok the source's bytes have a meaning, and what was written is the spelling of
    // one report that is sound for it and tied to a run of it; with WriteFault it is a prefix of that.
    ensures sound { result ≡ Status.Ok
        → Reports (S.state source.old) (S.state source.new) (K.state sink.old) (K.state sink.new) }
    ensures partly { result ≡ Status.WriteFault
        → ReportsPartly (S.state source.old) (S.state source.new) (K.state sink.old) (K.state sink.new) }

    // The causes of the other statuses. NoMemory is free.
    ensures bad_use { (result ≡ Status.BadUse) ↔ (is_command (map string_bytes words.now) ≡ false) }
    ensures read_fault { result ≡ Status.ReadFault
        → Increased (S.state source.old).faults (S.state source.new).faults }
    ensures write_fault { result ≡ Status.WriteFault
        → Increased (K.state sink.old).faults (K.state sink.new).faults }
    ensures not_built { (line : ℕ) → result ≡ Status.NotBuilt line
        → IsWrongAt (S.state source.old) (S.state source.new) line }

    // Completeness: a command whose input is of the form ends so where no count of faults increased.
    ensures complete { is_command (map string_bytes words.now) ≡ true
        → IsOfForm (S.state source.old) (S.state source.new)
        → ¬ Increased (S.state source.old).faults (S.state source.new).faults
        → ¬ Increased (K.state sink.old).faults (K.state sink.new).faults
        → is_ok_or_no_memory result ≡ true }

    // The line of a refusal. A failure to write it leaves the status as it is.
    ensures line { is_refusal result ≡ true
        → SinkTakesPrefixOf (K.state sink.old) (K.state sink.new) (fault_line result) }
    ensures whole_line { is_refusal result ≡ true
        → ¬ Increased (K.state sink.old).faults (K.state sink.new).faults
        → SinkTakes (K.state sink.old) (K.state sink.new) (fault_line result) }

    // What is taken of the source: nothing where the words are no command, and never more than shows
    // that an input is too long.
    ensures untouched { result ≡ Status.BadUse → source.new ≡ source.old }
    ensures at_most { SourceGivesAtMost (S.state source.old) (S.state source.new) (longest_input + 1) }
{
    match read_and_run(alloc, words, source) {
        Ok(report) => match write_report(sink, report) {
            Ok(()) => Status::Ok,
            Err(WriteFailed) => Status::WriteFault,
        },
        Err(status) => {
            let _ = write_fault(sink, status);
            status
        }
    }
}

/// The report, or the status of a refusal.
fn read_and_run<S: Source>(
    alloc: Global,
    words: &[String],
    source: &mut S,
) -> Result<Printed, Status>
    ensures explained { IfOk result (λ report. (bytes : List ℕ)
        × ReadsAll (S.state source.old) (S.state source.new) bytes × Explains bytes (printed_text report)) }
    ensures refused { IfErr result (λ status. is_refusal status ≡ true) }
    ensures bad_use { (result ≡ Err Status.BadUse) ↔ (is_command (map string_bytes words.now) ≡ false) }
    ensures untouched { result ≡ Err Status.BadUse → source.new ≡ source.old }
    ensures read_fault { result ≡ Err Status.ReadFault
        → Increased (S.state source.old).faults (S.state source.new).faults }
    ensures not_built { (line : ℕ) → result ≡ Err (Status.NotBuilt line)
        → IsWrongAt (S.state source.old) (S.state source.new) line }
    ensures at_most { SourceGivesAtMost (S.state source.old) (S.state source.new) (longest_input + 1) }
{
    if !is_command(words) {
        return Err(Status::BadUse);
    }
    match read_calls(alloc, source) {
        Ok(calls) => match report_of(alloc, calls) {
            Ok(report) => Ok(report),
            Err(AllocError) => Err(Status::NoMemory),
        },
        Err(InputFault::ReadFailed) => Err(Status::ReadFault),
        Err(InputFault::NotOfForm { line }) => Err(Status::NotBuilt { line }),
        Err(InputFault::NoMemory) => Err(Status::NoMemory),
    }
}

/// Whether the words are a command.
fn is_command(words: &[String]) -> bool
    ensures { result ≡ is_command (map string_bytes words.now) }
{
    match words {
        [word] => word.as_str() == "run",
        _ => false,
    }
}

/// Runs the calls of a script, and answers the report.
fn report_of(alloc: Global, calls: Vec<ScriptCall>) -> Result<Printed, AllocError>
    requires { IsAsked calls.items }
    ensures { IfOk result (λ report. (bytes : List ℕ)
        → calls_of_text bytes ≡ Some calls.items → Explains bytes (printed_text report)) }
{
    let input = world_input(alloc, &calls)?;
    drop(calls);
    let outcomes = run_input(alloc, input)?;
    let report = print_report(alloc, outcomes)?;
    Ok(report)
}

/// Writes the line of a refusal.
fn write_fault<K: Sink>(sink: &mut K, status: Status) -> Result<(), WriteFailed>
    ensures whole { OnOk result (SinkTakes (K.state sink.old) (K.state sink.new) (fault_line status)) }
    ensures prefix { SinkTakesPrefixOf (K.state sink.old) (K.state sink.new) (fault_line status) }
    ensures increases { OnErr result (Increased (K.state sink.old).faults (K.state sink.new).faults) }
{
    match status {
        Status::BadUse => write_all(sink, b"fault BadUse\n"),
        Status::ReadFault => write_all(sink, b"fault ReadFault\n"),
        Status::NotBuilt { line } => write_not_built(sink, line),
        Status::Ok | Status::WriteFault | Status::NoMemory => Ok(()),
    }
}

fn write_not_built<K: Sink>(sink: &mut K, line: u32) -> Result<(), WriteFailed>
    ensures whole { OnOk result (SinkTakes (K.state sink.old) (K.state sink.new) (fault_line (Status.NotBuilt line))) }
    ensures prefix { SinkTakesPrefixOf (K.state sink.old) (K.state sink.new) (fault_line (Status.NotBuilt line)) }
    ensures increases { OnErr result (Increased (K.state sink.old).faults (K.state sink.new).faults) }
{
    write_all(sink, b"fault NotBuilt ")?;
    write_number(sink, line)?;
    write_all(sink, b"\n")?;
    Ok(())
}

fn write_number<K: Sink>(sink: &mut K, number: u32) -> Result<(), WriteFailed>
    ensures written { OnOk result (SinkTakes (K.state sink.old) (K.state sink.new) (decimal number)) }
    ensures partly { OnErr result (SinkTakesPrefixOf (K.state sink.old) (K.state sink.new) (decimal number)) }
    ensures increases { OnErr result (Increased (K.state sink.old).faults (K.state sink.new).faults) }
    ensures never_falls { (K.state sink.old).faults ≤ (K.state sink.new).faults }
{
    let mut buffer = Buffer::new();
    write_all(sink, buffer.format(number).as_bytes())
}
