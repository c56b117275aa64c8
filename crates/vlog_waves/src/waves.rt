// The VCD of a run, made while it is written.
ghost use Rattle.std.proofs.Props.{props};
ghost use Rattle.std.specs.Prelude.{◌≡◌, ◌+◌, ◌*◌, ◌<◌, ◌^◌, ◌++◌, All, length, nat_lt, vec_len};
ghost use Rattle.text_lines.specs.Written.{text_of};
ghost use Rattle.long_events.specs.Streams.{events_left};
ghost use Rattle.vlog_semantics.specs.Run.{start};
ghost use Rattle.vlog_run.specs.Showing.{input_count};
ghost use Rattle.vlog_waves.specs.Variables.{values_in};
ghost use Rattle.vlog_waves.specs.Waves.{head_lines, start_lines};
ghost use Rattle.run_pieces.specs.Shapes.{in_range-prop, shaped-prop};
ghost use Rattle.vlog_waves.specs.inside.Tracing.{Traces};
ghost use Rattle.vlog_waves.specs.inside.Values.{event_room};

use crate::declarations::beginning;
use crate::fault::WavesFault;
use crate::sending::write_run;
use crate::tracer::Tracer;
use ice_io::{Content, PutFault, Sink};
use long_events::EventStream;
use std::alloc::Global;
use vlog_module::Module;
use wire_names::WireNames;

/// The VCD of a module's run over events, which is made while it is written. Only the lines before the first event and the lines of one
/// event are in memory at a time.
///
/// # Example
/// ```ignore
/// let events = read_long_events(alloc, &module, b"d 1\nc ~ 100\n")?;
/// let waves = Waves::new(alloc, module, WireNames::none(alloc), events)?;
/// let mut sink = MemSink::new(alloc, 4096, 512, Vec::new(alloc))?;
/// let done = waves.write_to(&mut sink);
/// assert!(done == Ok(()));
/// ```
#[derive(Drop)]
pub struct Waves {
    module: Module,
    names: WireNames,
    events: EventStream,
    /// The lines before the first event.
    beginning: Vec<u8>,
    tracer: Tracer,
    ghost inputs: { All (λ event. event.pin < input_count tracer.runner) (events_left events) },
    ghost few: { vec_len beginning + length (events_left events) * event_room tracer.values < 2 ^ 64 },
    ghost traces: { Traces tracer «module» (start «module») } by { Prim.hlevel (props, shaped-prop, in_range-prop) },
    ghost begun: { beginning.items ≡ text_of (head_lines names «module» ++ start_lines (values_in «module» (start «module»))) },
}

impl Waves {
    ghost use Rattle.std.specs.Prelude.{IfErr, IfOk, OnOk, true};
    ghost use Rattle.vlog_semantics.specs.Run.{input_names};
    ghost use Rattle.vlog_waves.specs.Sizes.{TellsWaves, waves_fit};
    ghost use Rattle.vlog_waves.specs.Waves.{waves_text};
    ghost use Rattle.vlog_waves.specs.Whole.{waves_in};

    /// Prepares the VCD of this module's run over these events. Wires have the names that are given to them, and all other variables their
    /// own. All memory is taken here.
    ///
    /// # Errors
    /// [`WavesFault::Long`] if the most bytes that the VCD may have don't fit 64 bits. Out of memory may come in place of any other answer.
    pub fn new(
        alloc: Global,
        module: Module,
        names: WireNames,
        events: EventStream,
    ) -> Result<Waves, WavesFault>
        requires { All (λ event. event.pin < length (input_names «module».ports)) (events_left events) }
        ensures waves { IfOk result (λ waves. waves_in waves ≡ waves_text names «module» (events_left events)) }
        ensures counted { OnOk result (waves_fit names «module» (length (events_left events)) ≡ true) }
        ensures refused { IfErr result (TellsWaves (waves_fit names «module» (length (events_left events)))) }
    {
        let tracer = Tracer::new(alloc, &module)?;
        let beginning = beginning(alloc, &module, &names, &tracer.values)?;
        if fits(beginning.len(), events.left() as usize, tracer.event_room()) {
            Ok(Waves {
                module,
                names,
                events,
                beginning,
                tracer,
            })
        } else {
            Err(WavesFault::Long)
        }
    }
}

/// Whether the most bytes of the VCD fit 64 bits: those of the beginning, and `room` for each event.
fn fits(beginning: usize, events: usize, room: usize) -> bool
    ensures { result ≡ nat_lt (beginning + events * room) (2 ^ 64) }
{
    match events.checked_mul(room) {
        Some(most) => most.checked_add(beginning).is_some(),
        None => false,
    }
}

/// The lines of an event are made when they are written, and each piece goes out in as many writes as the sink takes for it.
impl Content for Waves {
    ghost use Rattle.vlog_waves.specs.Whole.{waves_in};

    ghost bytes = { waves_in };

    fn write_to<K: Sink>(self, sink: &mut K) -> Result<(), PutFault> {
        let Waves {
            module,
            names: _,
            mut events,
            beginning,
            mut tracer,
        } = self;
        match write_run(sink, &module, &mut events, &beginning, &mut tracer) {
            Ok(_) => Ok(()),
            Err(fault) => Err(fault),
        }
    }
}
