// Events that are given one after another.
ghost use Rattle.std.specs.Prelude.{◌≡◌, IfOk, length, map};
ghost use Rattle.long_events.specs.declared.step.Step.TheVariants.{Give};
ghost use Rattle.long_events.specs.inside.Cursors.{Stands, moves_left};

use crate::cursor::Cursor;
use crate::moves::{Move, event_by};
use crate::step::Step;
use std::alloc::{AllocError, Global};
use vlog_semantics::{Event, set_bit};

/// The events of a list, which are given one after another. Memory is taken by the steps and by the inputs of the module, not by the events.
///
/// # Example
/// ```ignore
/// let mut stream = read_long_events(alloc, &module, b"clk ~ 1000000\n")?;
/// while let Some(event) = stream.next_event() {
///     runner.event(event.pin, event.bit);
/// }
/// ```
#[derive(Drop)]
pub struct EventStream {
    steps: Vec<Step>,
    cursor: Cursor,
    /// The bits of the inputs after the events that are given.
    bits: Vec<bool>,
    /// How many events are left.
    left: u64,
    ghost stands: { Stands steps.items cursor },
    ghost counted: { length (moves_left steps.items cursor) ≡ left },
}

/// A step for each event of a plain list.
fn given_steps(alloc: Global, events: &[Event]) -> Result<Vec<Step>, AllocError>
    ensures { IfOk result (λ steps. steps.items ≡ map (λ event. Give event) events.now) }
{
    events.iter().map(|event| Step::Give(*event)).collect(alloc)
}

impl EventStream {
    ghost use Rattle.std.specs.Prelude.{◌++◌, [], IfNone, true};
    ghost use Rattle.std.specs.Option.{option_to_list};
    ghost use Rattle.long_events.specs.Moves.{events_from, moves_of};
    ghost use Rattle.long_events.specs.Streams.{events_left};
    ghost use Rattle.long_events.specs.inside.Nesting.{nests};

    /// The events of steps, from these bits of the inputs on. There are `left` of them.
    pub(crate) fn of_steps(steps: Vec<Step>, bits: Vec<bool>, left: u64) -> EventStream
        requires nested { nests 0 steps.items ≡ true }
        requires counted { length (moves_of steps.items) ≡ left }
        ensures { events_left result ≡ events_from bits.items (moves_of steps.items) }
    {
        let cursor = Cursor::new();
        EventStream {
            steps,
            cursor,
            bits,
            left,
        }
    }

    /// The events of a plain list.
    ///
    /// # Errors
    /// `AllocError` if memory is out, and for no other cause.
    pub fn of_list(alloc: Global, events: &[Event]) -> Result<EventStream, AllocError>
        ensures { IfOk result (λ stream. events_left stream ≡ events.now) }
    {
        let steps = given_steps(alloc, events)?;
        Ok(EventStream::of_steps(steps, Vec::new(alloc), events.len() as u64))
    }

    /// How many events are left.
    pub fn left(&self) -> u64
        ensures { result ≡ length (events_left self.now) }
    {
        self.left
    }

    /// The next event, if any is left.
    pub fn next_event(&mut self) -> Option<Event>
        ensures events { events_left self.old ≡ option_to_list result ++ events_left self.new }
        ensures ended { IfNone result (events_left self.old ≡ []) }
    {
        let found = self.cursor.next_move(&self.steps)?;
        let event = event_by(&self.bits, found);
        set_bit(&mut self.bits, event.pin, event.bit);
        self.left -= 1;
        Some(event)
    }
}
