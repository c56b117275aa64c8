// A run whose changes are dumped.
ghost use Rattle.std.specs.Prelude.{◌≤◌, vec_capacity};
ghost use Rattle.vlog_waves.specs.inside.Values.{AreAlike, event_room};

use crate::changes::push_event;
use crate::values::Values;
use std::alloc::{AllocError, Global};
use std::mem;
use vlog_module::{Module, Port};
use vlog_run::Runner;
use vlog_semantics::Event;

/// A run whose changes are dumped. All memory is taken when it is made.
#[derive(Drop)]
pub(crate) struct Tracer {
    runner: Runner,
    /// The values that were dumped last.
    pub(crate) values: Values,
    /// Room for the values after an event.
    next: Values,
    /// The lines of the last event.
    pub(crate) text: Vec<u8>,
    ghost alike: { AreAlike values next },
    ghost room: { event_room values ≤ vec_capacity text },
}

impl Tracer {
    ghost use Rattle.std.specs.Prelude.{◌≡◌, ◌<◌, ◌∷◌, IfOk, vec_len};
    ghost use Rattle.text_lines.specs.Written.{text_of};
    ghost use Rattle.vlog_module.specs.Parts.{Parts};
    ghost use Rattle.vlog_semantics.specs.Entries.{Entry};
    ghost use Rattle.vlog_semantics.specs.Run.{followed, start};
    ghost use Rattle.vlog_run.specs.Showing.{input_count};
    ghost use Rattle.vlog_waves.specs.Variables.{values_in};
    ghost use Rattle.vlog_waves.specs.Waves.{changed_lines, time_line};
    ghost use Rattle.vlog_waves.specs.inside.Tracing.{Traces};

    /// The run of a module at its start.
    pub(crate) fn new(alloc: Global, module: &Module) -> Result<Tracer, AllocError>
        ensures { IfOk result (λ tracer. Traces tracer «module».now (start «module».now)) }
    {
        let runner = Runner::new(alloc, module)?;
        let values = Values::new(alloc, module, &runner)?;
        let next = Values::new(alloc, module, &runner)?;
        let text = Vec::with_capacity(alloc, values.event_room())?;
        Ok(Tracer {
            runner,
            values,
            next,
            text,
        })
    }

    /// The most bytes that the lines of an event may have.
    pub(crate) fn event_room(&self) -> usize
        ensures { result ≡ event_room self.now.values }
    {
        self.values.event_room()
    }

    /// Gives an input a bit, and makes the lines of the event, whose number is its time. The ports are the module's.
    pub(crate) fn event(&mut self, ports: &[Port], event: Event, time: u64)
        requires { event.pin < input_count self.old.runner }
        ensures text { (m : Parts) (entry : Entry) → Traces self.old m entry → ports.now ≡ m.ports
            → self.new.text.items ≡ text_of (time_line time ∷ changed_lines 0 (values_in m entry) (values_in m (followed m entry event))) }
        ensures traces { (m : Parts) (entry : Entry) → Traces self.old m entry → ports.now ≡ m.ports → Traces self.new m (followed m entry event) }
        ensures inputs { input_count self.new.runner ≡ input_count self.old.runner }
        ensures room { event_room self.new.values ≡ event_room self.old.values }
        ensures most { vec_len self.new.text ≤ event_room self.old.values }
    {
        self.runner.event(event.pin, event.bit);
        self.next.take(ports, &self.runner);
        self.text.clear();
        push_event(&mut self.text, time, &self.values, &self.next).unwrap();
        mem::swap(&mut self.values, &mut self.next);
    }
}
