// Writes a VCD to a sink, piece by piece.
ghost use Rattle.std.specs.Prelude.{◌≡◌, ◌+◌, ◌*◌, ◌<◌, ◌≤◌, ◌^◌, ◌++◌, ℕ, List, All, length, OnErr};
ghost use Rattle.ice_io.specs.Faults.{Rose};
ghost use Rattle.text_lines.specs.Written.{text_of};
ghost use Rattle.vlog_module.specs.Parts.{Parts};
ghost use Rattle.vlog_semantics.specs.Entries.{Entry};
ghost use Rattle.vlog_semantics.specs.Run.{start};
ghost use Rattle.vlog_run.specs.Showing.{input_count};
ghost use Rattle.vlog_waves.specs.Variables.{values_in};
ghost use Rattle.vlog_waves.specs.Waves.{head_lines, start_lines, waves_text};
ghost use Rattle.ice_io.specs.Put.{Sends};
ghost use Rattle.long_events.specs.Streams.{events_left};
ghost use Rattle.vlog_waves.specs.inside.Tracing.{Traces, lines_after};
ghost use Rattle.vlog_waves.specs.inside.Values.{event_room};

use crate::tracer::Tracer;
use ice_io::{PutFault, Sink};
use long_events::EventStream;
use run_pieces::write_piece;
use vlog_module::{Module, Port};

/// Writes the lines of events after the first `before` bytes of a text, and returns how many bytes of it are written then.
fn write_events<K: Sink>(
    sink: &mut K,
    ports: &[Port],
    events: &mut EventStream,
    tracer: &mut Tracer,
    before: usize,
) -> Result<usize, PutFault>
    requires inputs { All (λ event. event.pin < input_count tracer.old.runner) (events_left events.old) }
    requires few { before + length (events_left events.old) * event_room tracer.old.values < 2 ^ 64 }
    ensures sends { (m : Parts) (entry : Entry) → Traces tracer.old m entry → ports.now ≡ m.ports
        → Sends (K.held sink.old) (K.held sink.new) before (text_of (lines_after m 1 entry (events_left events.old))) result }
    ensures never_falls { K.faults sink.old ≤ K.faults sink.new }
    ensures failed { OnErr result (Rose (K.faults sink.old) (K.faults sink.new)) }
{
    let count = events.left();
    let mut sent = before;
    while let Some(event) = events.next_event() {
        tracer.event(ports, event, count - events.left());
        sent = write_piece(sink, &tracer.text, sent)?;
    }
    Ok(sent)
}

/// Writes the VCD of a run, whose lines before the first event are made already, and returns how many bytes it has.
pub(crate) fn write_run<K: Sink>(
    sink: &mut K,
    module: &Module,
    events: &mut EventStream,
    beginning: &[u8],
    tracer: &mut Tracer,
) -> Result<usize, PutFault>
    requires inputs { All (λ event. event.pin < input_count tracer.old.runner) (events_left events.old) }
    requires few { length beginning.now + length (events_left events.old) * event_room tracer.old.values < 2 ^ 64 }
    requires traces { Traces tracer.old «module».now (start «module».now) }
    ensures sends { (names : List (List ℕ × List ℕ)) → beginning.now ≡ text_of (head_lines names «module».now ++ start_lines (values_in «module».now (start «module».now)))
        → Sends (K.held sink.old) (K.held sink.new) 0 (waves_text names «module».now (events_left events.old)) result }
    ensures never_falls { K.faults sink.old ≤ K.faults sink.new }
    ensures failed { OnErr result (Rose (K.faults sink.old) (K.faults sink.new)) }
{
    let sent = write_piece(sink, beginning, 0)?;
    write_events(sink, module.ports(), events, tracer, sent)
}
