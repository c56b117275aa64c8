// Reads lists of events line by line.
ghost use Rattle.std.specs.Prelude.{◌≡◌, ◌<◌, ◌++◌, ◌∷◌, [], All, Option, None, flat_map, length, IfErr, IfOk, OnOk};
ghost use Rattle.vlog_run.specs.Events.{bit_written, cut_lines, event_fault, pin_event, event_of, events_of, first_fault, line_event, line_fault, TellsEvent};
ghost use Rattle.vlog_run.specs.declared.event.EventFault.{EventFault as fault_of};
ghost use Rattle.vlog_semantics.specs.Run.{input_names};
ghost use Rattle.vlog_semantics.specs.Slots.{slot_of};

use crate::event::EventFault;
use std::alloc::{AllocError, Global};
use text_lines::{first_line, trimmed};
use vlog_module::{Module, is_word};
use vlog_semantics::{Event, Slots, pins_of};

/// The events of a text. Each line has the name of an input, one space, and `0` or `1`. Spaces and tabs at a line's end don't count, and
/// an empty line is skipped.
///
/// # Errors
/// The first faulty line, counted from 1: [`EventFault::Form`] if it isn't a name, one space, and `0` or `1`, else [`EventFault::Pin`] if
/// its name isn't an input of the module. [`EventFault::Memory`] if memory is out; it may come in place of any other answer.
pub fn read_events(alloc: Global, module: &Module, bytes: &[u8]) -> Result<Vec<Event>, EventFault>
    ensures read { IfOk result (λ events. events.items ≡ events_of «module».now.ports bytes.now) }
    ensures inputs { IfOk result (λ events. All (λ event. event.pin < length (input_names «module».now.ports)) events.items) }
    ensures accepted { OnOk result (event_fault «module».now.ports bytes.now ≡ None) }
    ensures refused { IfErr result (TellsEvent (event_fault «module».now.ports bytes.now)) }
{
    let pins = pins_of(alloc, module)?;
    read_lines(alloc, &pins, bytes)
}

/// The events of lines.
pub(crate) fn read_lines(
    alloc: Global,
    pins: &Slots,
    bytes: &[u8],
) -> Result<Vec<Event>, EventFault>
    ensures read { IfOk result (λ events. events.items ≡ flat_map (line_event (slot_of pins.now)) (cut_lines bytes.now)) }
    ensures accepted { OnOk result (first_fault (slot_of pins.now) (cut_lines bytes.now) ≡ None) }
    ensures refused { IfErr result (TellsEvent (first_fault (slot_of pins.now) (cut_lines bytes.now))) }
{
    let mut events = Vec::new(alloc);
    let mut left = bytes;
    let mut count = 0;
    while let Some(line) = first_line(left) {
        take_line(&mut events, pins, count + 1, trimmed(line.content))?;
        count += 1;
        left = line.rest;
    }
    Ok(events)
}

/// Adds the event of a line, which has no spaces and tabs at its end. An empty line has none.
fn take_line(
    events: &mut Vec<Event>,
    pins: &Slots,
    line: u64,
    content: &[u8],
) -> Result<(), EventFault>
    ensures taken { OnOk result (events.new.items ≡ events.old.items ++ line_event (slot_of pins.now) content.now) }
    ensures accepted { OnOk result (line_fault (slot_of pins.now) line content.now ≡ None) }
    ensures refused { IfErr result (TellsEvent (line_fault (slot_of pins.now) line content.now)) }
{
    if content.is_empty() {
        return Ok(());
    }
    let event = event_of(pins, line, content)?;
    push_event(events, event)
}

/// Adds an event.
fn push_event(events: &mut Vec<Event>, event: Event) -> Result<(), EventFault>
    ensures pushed { OnOk result (events.new.items ≡ events.old.items ++ event ∷ []) }
    ensures memory { (fault : Option fault_of) → IfErr result (TellsEvent fault) }
{
    match events.push(event) {
        Ok(()) => Ok(()),
        Err(e) => Err(EventFault::from(AllocError::from(e))),
    }
}

/// The event of a line that isn't empty and has no spaces and tabs at its end. `pins` are the inputs by their names, and `line` is the
/// line's number.
///
/// # Errors
/// [`EventFault::Form`] if the line isn't a name, one space, and `0` or `1`, else [`EventFault::Pin`] if its name isn't an input.
#[tactic(auto, unfolding(crate::specs::Events::event_of))]
pub fn event_of(pins: &Slots, line: u64, content: &[u8]) -> Result<Event, EventFault>
    ensures { result ≡ event_of (slot_of pins.now) line content.now }
{
    let end = content.len().saturating_sub(2);
    let (name, bit) = (&content[..end], &content[end..]);
    if !is_word(name) {
        return Err(EventFault::Form { line });
    }
    match bit_written(bit) {
        Some(bit) => pin_event(line, pins.slot(name), bit),
        None => Err(EventFault::Form { line }),
    }
}

/// The event of a line whose name is the input with this index; a fault if its name is no input.
fn pin_event(line: u64, pin: Option<usize>, bit: bool) -> Result<Event, EventFault>
    ensures { result ≡ pin_event line pin bit }
{
    match pin {
        Some(pin) => Ok(Event { pin, bit }),
        None => Err(EventFault::Pin { line }),
    }
}

/// The bit that a space and a digit spell.
fn bit_written(bytes: &[u8]) -> Option<bool>
    ensures { result ≡ bit_written bytes.now }
{
    if bytes == b" 0".as_slice() {
        Some(false)
    } else if bytes == b" 1".as_slice() {
        Some(true)
    } else {
        None
    }
}
