//! From a printed report to the bytes in a sink. Nothing here takes memory.

ghost use Rattle.std.specs.Prelude.{◌≤◌, OnOk, OnErr};
ghost use Rattle.volt_base.specs.Faults.{Increased};
ghost use Rattle.volt_io.specs.States.{SinkTakes, SinkTakesPrefixOf};
ghost use Rattle.volt_cmd.specs.Prints.{last_lines, printed_text};

use crate::printing::Printed;
use volt_io::buffer::WriteBuffer;
use volt_io::sink::{Sink, WriteFailed};
use volt_io::transfer::write_all;
use volt_report::event_line;
use volt_wire::Event;

/// Writes a report, and lets its bytes go before the first event.
pub fn write_report<K: Sink>(sink: &mut K, report: Printed) -> Result<(), WriteFailed>
    ensures written { OnOk result (SinkTakes (K.state sink.old) (K.state sink.new) (printed_text report)) }
    ensures partly { OnErr result (SinkTakesPrefixOf (K.state sink.old) (K.state sink.new) (printed_text report)) }
    ensures increases { OnErr result (Increased (K.state sink.old).faults (K.state sink.new).faults) }
    ensures never_falls { (K.state sink.old).faults ≤ (K.state sink.new).faults }
{
    let Printed { prefix, trace } = report;
    write_all(sink, &prefix)?;
    drop(prefix);
    write_last_lines(sink, &trace)
}

// The lines of the events, each made as it is written, and the last line.
fn write_last_lines<K: Sink>(sink: &mut K, trace: &[Event]) -> Result<(), WriteFailed>
    ensures written { OnOk result (SinkTakes (K.state sink.old) (K.state sink.new) (last_lines trace.now)) }
    ensures partly { OnErr result (SinkTakesPrefixOf (K.state sink.old) (K.state sink.new) (last_lines trace.now)) }
    ensures increases { OnErr result (Increased (K.state sink.old).faults (K.state sink.new).faults) }
    ensures never_falls { (K.state sink.old).faults ≤ (K.state sink.new).faults }
{
    let mut buffer = WriteBuffer::new();
    for event in trace {
        buffer.push(sink, event_line(*event).as_bytes())?;
    }
    buffer.push(sink, b"end\n")?;
    buffer.flush(sink)
}
