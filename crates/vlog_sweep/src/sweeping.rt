// The runs of a module over many lists of events at once.
ghost use Rattle.std.specs.Prelude.{◌≡◌, ◌<◌, ◌≤◌, All, IfOk, flat_map, length};
ghost use Rattle.vlog_semantics.specs.Run.{input_names};
ghost use Rattle.vlog_sweep.specs.Sweep.{last_text, list_text};

use crate::beginning::{at_start, begin};
use crate::calls::call_next;
use crate::ending::last_lines;
use crate::lines::lane_line;
use crate::list::EventList;
use crate::taking::take_events;
use crate::turns::take_turns;
use std::alloc::{AllocError, Global};
use vlog_lanes::Lanes;
use vlog_module::Module;

/// Runs a module over up to sixty-four lists of events, and returns the texts of the runs one after another, each after its heading. A run
/// has one line after the start and one after each event; a line has the bits of the outputs in the order of the ports.
///
/// The lists run side by side, each in a bit-parallel lane. All memory is taken before the first event.
///
/// # Errors
/// `AllocError` if memory is out (which it is for a text whose length doesn't fit 64 bits), and for no other cause.
///
/// # Example
/// ```ignore
/// let mut lists = Vec::new(alloc);
/// for (heading, events) in [(b"first\n", b"a 1\n"), (b"again\n", b"a 0\n")] {
///     let heading = Vec::from_slice(alloc, heading)?;
///     let events = read_events(alloc, &module, events)?;
///     lists.push(EventList { heading, events })?;
/// }
/// let text = sweep(alloc, &module, &lists)?;
/// ```
pub fn sweep(alloc: Global, module: &Module, lists: &[EventList]) -> Result<Vec<u8>, AllocError>
    requires few { length lists.now ≤ 64 }
    requires inputs { All (λ list. All (λ event. event.pin < length (input_names «module».now.ports)) list.events.items) lists.now }
    ensures { IfOk result (λ text. text.items ≡ flat_map (list_text «module».now) lists.now) }
{
    let mut lanes = Lanes::new(alloc, module)?;
    let line = lane_line(alloc, lanes.outputs(), 0)?;
    let (mut strands, mut text) = begin(alloc, lists, &line)?;
    while let Some(active) = call_next(&mut lanes, &strands) {
        take_turns(&mut text, &mut strands, active, lanes.outputs());
    }
    Ok(text)
}

/// Runs a module over up to sixty-four lists of events, and returns the last line of each run after its heading: the bits of the outputs
/// after all events of the list, in the order of the ports. A list without events has the line of the start.
///
/// The lists run side by side, each in a bit-parallel lane. No memory is taken for the lines before the last ones.
///
/// # Errors
/// `AllocError` if memory is out, and for no other cause.
///
/// # Example
/// ```ignore
/// // Each list has its heading and one line.
/// let text = sweep_last(alloc, &module, &lists)?;
/// ```
pub fn sweep_last(
    alloc: Global,
    module: &Module,
    lists: &[EventList],
) -> Result<Vec<u8>, AllocError>
    requires few { length lists.now ≤ 64 }
    requires inputs { All (λ list. All (λ event. event.pin < length (input_names «module».now.ports)) list.events.items) lists.now }
    ensures { IfOk result (λ text. text.items ≡ flat_map (last_text «module».now) lists.now) }
{
    let mut lanes = Lanes::new(alloc, module)?;
    let mut strands = at_start(alloc, lists)?;
    while let Some(active) = call_next(&mut lanes, &strands) {
        take_events(&mut strands, active);
    }
    last_lines(alloc, lists, lanes.outputs())
}
