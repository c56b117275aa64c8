// Reads lists of events of the long form line by line.
ghost use Rattle.std.specs.Prelude.{All, ◌≡◌, ◌<◌, ◌++◌, ◌∷◌, ◌==◌, ◌+◌, [], IfErr, IfOk, List, None, Option, Some, OnOk, filter, flat_map, length, nat_lt, not, replicate, false, true, if◌then◌else◌};
ghost use Rattle.vlog_semantics.specs.Slots.{slot_of};
ghost use Rattle.vlog_semantics.specs.Run.{input_names};
ghost use Rattle.vlog_run.specs.Events.{cut_lines};
ghost use Rattle.long_events.specs.declared.step.Step.{Step as step_of};
ghost use Rattle.long_events.specs.Lists.{TellsLong, count_fault, is_repeat, level_fault, lines_fault, steps_of};
ghost use Rattle.long_events.specs.declared.fault.LongFault.TheVariants.{Repeat};
ghost use Rattle.long_events.specs.inside.Ends.{ended, last_steps};
ghost use Rattle.long_events.specs.Lists.{long_events, long_fault, start_bits};
ghost use Rattle.long_events.specs.Moves.{events_from, moves_of};
ghost use Rattle.long_events.specs.Streams.{events_left};
ghost use Rattle.long_events.specs.inside.Nesting.{nests};

use crate::counting::count_moves;
use crate::cursor::MOST_LEVELS;
use crate::fault::LongFault;
use crate::lines::step_of;
use crate::step::Step;
use crate::stream::EventStream;
use std::alloc::{AllocError, Global};
use text_lines::{first_line, trimmed};
use vlog_module::{Module, Port};
use vlog_semantics::{Slots, pins_of};

/// Whether the last of some steps is a `repeat`.
fn repeats_nothing(steps: &[Step]) -> bool
    ensures { result ≡ is_repeat (last_steps steps.now) }
{
    match steps.last() {
        Some(Step::Repeat { .. }) => true,
        _ => false,
    }
}

/// The steps of the lines that are read. A `repeat` of nothing isn't kept, so that each time that the steps of a `repeat` come takes some
/// events.
#[derive(Drop)]
pub(crate) struct Reading {
    pub(crate) steps: Vec<Step>,
    /// How many `repeat`s are open.
    pub(crate) level: usize,
    /// The line of the last `repeat` that is inside no other one.
    pub(crate) outermost: u64,
}

impl Reading {
    ghost use Rattle.long_events.specs.Lists.{fault_on};
    ghost use Rattle.long_events.specs.Steps.{line_step};
    ghost use Rattle.long_events.specs.inside.Reading.{IsCounted, Keeps, outermost_after};
    ghost use Rattle.long_events.specs.declared.fault.LongFault.{LongFault as fault_of};

    /// No lines.
    fn new(alloc: Global) -> Reading
        ensures keeps { Keeps result.steps.items result.level [] }
        ensures level { result.level ≡ 0 }
    {
        let steps = Vec::new(alloc);
        Reading {
            steps,
            level: 0,
            outermost: 0,
        }
    }

    /// Takes a line, which has no spaces and tabs at its end. An empty line has no step.
    fn take_line(&mut self, pins: &Slots, line: u64, content: &[u8]) -> Result<(), LongFault>
        ensures kept { (before : List step_of) → Keeps self.old.steps.items self.old.level before → OnOk result (Keeps self.new.steps.items self.new.level (before ++ line_step (slot_of pins.now) content.now)) }
        ensures outermost { OnOk result (self.new.outermost ≡ outermost_after self.old line (line_step (slot_of pins.now) content.now)) }
        ensures accepted { OnOk result (fault_on (slot_of pins.now) line self.old.level content.now ≡ None) }
        ensures refused { IfErr result (TellsLong (fault_on (slot_of pins.now) line self.old.level content.now)) }
    {
        if content.is_empty() {
            return Ok(());
        }
        match step_of(pins, line, content) {
            Ok(step) => self.take(line, step),
            Err(fault) => Err(LongFault::Event(fault)),
        }
    }

    /// Takes the step of a line.
    fn take(&mut self, line: u64, step: Step) -> Result<(), LongFault>
        requires { IsCounted step }
        ensures kept { (before : List step_of) → Keeps self.old.steps.items self.old.level before → OnOk result (Keeps self.new.steps.items self.new.level (before ++ step ∷ [])) }
        ensures outermost { OnOk result (self.new.outermost ≡ outermost_after self.old line (step ∷ [])) }
        ensures accepted { OnOk result (level_fault line self.old.level (step ∷ []) ≡ None) }
        ensures refused { IfErr result (TellsLong (level_fault line self.old.level (step ∷ []))) }
    {
        match step {
            Step::Give(_) | Step::Toggle { .. } => self.push(step),
            Step::Repeat { .. } => self.open(line, step),
            Step::End => self.close(line),
        }
    }

    /// Adds a step.
    fn push(&mut self, step: Step) -> Result<(), LongFault>
        ensures steps { OnOk result (self.new.steps.items ≡ self.old.steps.items ++ step ∷ []) }
        ensures level { self.new.level ≡ self.old.level }
        ensures outermost { self.new.outermost ≡ self.old.outermost }
        ensures memory { (told : Option fault_of) → IfErr result (TellsLong told) }
    {
        match self.steps.push(step) {
            Ok(()) => Ok(()),
            Err(e) => Err(LongFault::from(AllocError::from(e))),
        }
    }

    /// Takes a `repeat`.
    fn open(&mut self, line: u64, step: Step) -> Result<(), LongFault>
        ensures steps { OnOk result (self.new.steps.items ≡ self.old.steps.items ++ step ∷ []) }
        ensures level { OnOk result (self.new.level ≡ self.old.level + 1) }
        ensures outermost { OnOk result (self.new.outermost ≡ (if self.old.level == 0 then line else self.old.outermost)) }
        ensures accepted { OnOk result (self.old.level < 8) }
        ensures refused { IfErr result (TellsLong (if nat_lt self.old.level 8 then None else Some (Repeat line))) }
    {
        if self.level >= MOST_LEVELS {
            return Err(LongFault::Repeat { line });
        }
        if self.level == 0 {
            self.outermost = line;
        }
        self.push(step)?;
        self.level += 1;
        Ok(())
    }

    /// Takes an `end`. If it comes right after its `repeat`, both go.
    fn close(&mut self, line: u64) -> Result<(), LongFault>
        ensures steps { OnOk result (self.new.steps.items ≡ ended self.old.steps.items) }
        ensures level { OnOk result (self.new.level + 1 ≡ self.old.level) }
        ensures outermost { self.new.outermost ≡ self.old.outermost }
        ensures refused { IfErr result (TellsLong (if self.old.level == 0 then Some (Repeat line) else None)) }
    {
        if self.level == 0 {
            return Err(LongFault::Repeat { line });
        }
        self.level -= 1;
        if repeats_nothing(&self.steps) {
            let _ = self.steps.pop();
            Ok(())
        } else {
            self.push(Step::End)
        }
    }
}

/// The steps of lines. Their moves are those of all lines.
fn read_steps(alloc: Global, pins: &Slots, bytes: &[u8]) -> Result<Vec<Step>, LongFault>
    ensures nested { IfOk result (λ steps. nests 0 steps.items ≡ true) }
    ensures moves { IfOk result (λ steps. moves_of steps.items ≡ moves_of (steps_of (slot_of pins.now) (cut_lines bytes.now))) }
    ensures accepted { OnOk result (lines_fault (slot_of pins.now) (cut_lines bytes.now) ≡ None) }
    ensures refused { IfErr result (TellsLong (lines_fault (slot_of pins.now) (cut_lines bytes.now))) }
{
    let mut reading = Reading::new(alloc);
    let mut left = bytes;
    let mut count = 0;
    while let Some(line) = first_line(left) {
        reading.take_line(pins, count + 1, trimmed(line.content))?;
        count += 1;
        left = line.rest;
    }
    if reading.level == 0 {
        Ok(reading.steps)
    } else {
        Err(LongFault::Repeat {
            line: reading.outermost,
        })
    }
}

/// How many of the ports are inputs.
fn count_inputs(ports: &[Port]) -> usize
    ensures { result ≡ length (filter (λ port. not port.output) ports.now) }
{
    ports.iter().filter(|port| !port.output).count()
}

/// The bits of the inputs at the start.
#[tactic(auto, using(crate::proofs::Within::count_inputs))]
fn start_bits(alloc: Global, ports: &[Port]) -> Result<Vec<bool>, AllocError>
    ensures { IfOk result (λ bits. bits.items ≡ start_bits ports.now) }
{
    vec![in alloc; false; count_inputs(ports)]
}

/// A stream of the events of steps, if they aren't too many.
fn stream_of(steps: Vec<Step>, bits: Vec<bool>) -> Result<EventStream, LongFault>
    requires { nests 0 steps.items ≡ true }
    ensures events { IfOk result (λ stream. events_left stream ≡ events_from bits.items (moves_of steps.items)) }
    ensures accepted { OnOk result (count_fault (moves_of steps.items) ≡ None) }
    ensures refused { IfErr result (λ told. count_fault (moves_of steps.items) ≡ Some told) }
{
    let count = count_moves(&steps);
    if count < u64::MAX {
        Ok(EventStream::of_steps(steps, bits, count))
    } else {
        Err(LongFault::Long)
    }
}

/// The events that a text of the long form stands for. Each line is an event, as for [`vlog_run::read_events`]; `NAME ~ N`, where the input
/// gets the other bit N times; `repeat N`, which repeats the lines up to its `end`, inside at most seven others; or `end`. N is a decimal
/// number of 1 to 20 digits, from 1 to 4,294,967,295. At the start all inputs are 0. A line that begins with the word `repeat` is one, also in a module with an
/// input of that name.
///
/// # Errors
/// The first faulty line, counted from 1: [`LongFault::Event`] if it has none of the forms, or its name isn't an input of the module;
/// [`LongFault::Repeat`] if it is an `end` without a `repeat`, or a `repeat` inside eight others. If no line is faulty, [`LongFault::Repeat`]
/// with the line of the outermost `repeat` that has no `end`, else [`LongFault::Long`] if the text stands for 2^64 - 1 events or more. Out of
/// memory may come in place of any other answer.
pub fn read_long_events(
    alloc: Global,
    module: &Module,
    bytes: &[u8],
) -> Result<EventStream, LongFault>
    ensures read { IfOk result (λ stream. events_left stream ≡ long_events «module».now.ports bytes.now) }
    ensures inputs { IfOk result (λ stream. All (λ event. event.pin < length (input_names «module».now.ports)) (events_left stream)) }
    ensures accepted { OnOk result (long_fault «module».now.ports bytes.now ≡ None) }
    ensures refused { IfErr result (TellsLong (long_fault «module».now.ports bytes.now)) }
{
    let pins = pins_of(alloc, module)?;
    let steps = read_steps(alloc, &pins, bytes)?;
    let bits = start_bits(alloc, module.ports())?;
    stream_of(steps, bits)
}
