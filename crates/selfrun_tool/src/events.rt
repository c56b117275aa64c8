// The generated events, as events of the module that runs.
ghost use Rattle.std.specs.Prelude.{◌≡◌, ◌<◌, ◌++◌, All, IfOk, OnOk, length, map, position};
ghost use Rattle.fabric_module.specs.Matching.{module_event};
ghost use Rattle.selfrun_tool.specs.Counted.{event_for, events_for, is_port_of, pin_row};

use fabric_model::InputPort;
use ice_gen::PinEvent;
use std::alloc::{AllocError, Global};
use vlog_run::Event;

/// The row of the tile whose pin gets the bit.
fn pin_row(event: PinEvent) -> u8
    ensures { result ≡ pin_row event }
{
    if event.second { 2 } else { 1 }
}

/// Whether an input port is the one that gets the bit.
fn is_port_of(event: PinEvent, port: InputPort) -> bool
    ensures { result ≡ is_port_of event port }
{
    match port {
        InputPort::Pad { x, y, n } => x == 0 && y == pin_row(event) && n == 0,
        InputPort::Outside { .. } | InputPort::Pll { .. } => false,
    }
}

/// The index of the port among the input ports, if it is one of them.
fn place_of(event: PinEvent, inputs: &[InputPort]) -> Option<usize>
    ensures { result ≡ position (is_port_of event) inputs.now }
{
    inputs.iter().position(|port| is_port_of(event, *port))
}

/// Appends an event, if its port is among the input ports.
fn push_event(
    events: &mut Vec<Event>,
    inputs: &[InputPort],
    event: PinEvent,
) -> Result<(), AllocError>
    ensures { OnOk result (events.new.items ≡ events.old.items ++ map module_event (event_for inputs.now event)) }
{
    if let Some(pin) = place_of(event, inputs) {
        events.push(Event {
            pin,
            bit: event.bit,
        })?;
    }
    Ok(())
}

/// The events whose port is among the input ports, for the module. The others are left out.
#[tactic(auto, unfolding(crate::specs::Counted::events_for))]
pub(crate) fn events_for(
    alloc: Global,
    inputs: &[InputPort],
    made: &[PinEvent],
) -> Result<Vec<Event>, AllocError>
    ensures { IfOk result (λ events. events.items ≡ map module_event (events_for inputs.now made.now)) }
{
    let mut events = Vec::new(alloc);
    for event in made {
        push_event(&mut events, inputs, *event)?;
    }
    Ok(events)
}
