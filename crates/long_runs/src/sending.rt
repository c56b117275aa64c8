// Writes the lines of a run to a sink, piece by piece.
ghost use Rattle.std.specs.Prelude.{◌<◌, ◌≤◌, ◌+◌, ◌++◌, All, OnErr, length, vec_len};
ghost use Rattle.ice_io.specs.Faults.{Rose};
ghost use Rattle.ice_io.specs.Put.{Sends};
ghost use Rattle.vlog_module.specs.Parts.{Parts};
ghost use Rattle.vlog_semantics.specs.Entries.{Entry};
ghost use Rattle.vlog_run.specs.Showing.{input_count};
ghost use Rattle.long_events.specs.Streams.{events_left};
ghost use Rattle.long_runs.specs.inside.Printing.{IsSendable, Prints, rest_text};

use crate::printer::Printer;
use ice_io::{PutFault, Sink};
use long_events::EventStream;
use run_pieces::write_piece;

/// Writes a head, the piece that a printer has, and what it shows of events and of the end. Returns how many bytes these have.
pub(crate) fn write_lines<K: Sink>(
    sink: &mut K,
    head: &[u8],
    events: &mut EventStream,
    printer: &mut Printer,
) -> Result<usize, PutFault>
    requires few { IsSendable printer.old (length head.now + vec_len printer.old.text) (events_left events.old) }
    requires inputs { All (λ event. event.pin < input_count printer.old.runner) (events_left events.old) }
    requires counted { length (events_left events.old) ≤ printer.old.count }
    ensures sends { (m : Parts) (entry : Entry) → Prints printer.old m entry
        → Sends (K.held sink.old) (K.held sink.new) 0 (head.now ++ (printer.old.text.items ++ rest_text printer.old m entry (events_left events.old))) result }
    ensures never_falls { K.faults sink.old ≤ K.faults sink.new }
    ensures failed { OnErr result (Rose (K.faults sink.old) (K.faults sink.new)) }
{
    let sent = write_piece(sink, head, 0)?;
    let sent = write_piece(sink, &printer.text, sent)?;
    write_rest(sink, events, printer, sent)
}

/// Writes what a printer shows of events and of the end after the first `before` bytes of a text, and returns how many bytes of it are written
/// then.
fn write_rest<K: Sink>(
    sink: &mut K,
    events: &mut EventStream,
    printer: &mut Printer,
    before: usize,
) -> Result<usize, PutFault>
    requires few { IsSendable printer.old before (events_left events.old) }
    requires inputs { All (λ event. event.pin < input_count printer.old.runner) (events_left events.old) }
    requires counted { length (events_left events.old) ≤ printer.old.count }
    ensures sends { (m : Parts) (entry : Entry) → Prints printer.old m entry
        → Sends (K.held sink.old) (K.held sink.new) before (rest_text printer.old m entry (events_left events.old)) result }
    ensures never_falls { K.faults sink.old ≤ K.faults sink.new }
    ensures failed { OnErr result (Rose (K.faults sink.old) (K.faults sink.new)) }
{
    let mut sent = before;
    let mut more = true;
    while more {
        more = printer.next_piece(events);
        sent = write_piece(sink, &printer.text, sent)?;
    }
    Ok(sent)
}
