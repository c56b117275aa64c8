// The lines of a run as a text.
ghost use Rattle.std.specs.Prelude.{◌≡◌, ◌<◌, ◌≤◌, ◌++◌, All, OnOk, length};
ghost use Rattle.vlog_module.specs.Parts.{Parts};
ghost use Rattle.vlog_semantics.specs.Entries.{Entry};
ghost use Rattle.vlog_semantics.specs.Run.{input_names};
ghost use Rattle.vlog_run.specs.Showing.{input_count};
ghost use Rattle.long_events.specs.Streams.{events_left};
ghost use Rattle.long_runs.specs.Shown.{shown_text};
ghost use Rattle.long_runs.specs.inside.Printing.{IsPrinting, Prints, rest_text};

use crate::form::LineForm;
use crate::head::head_of;
use crate::printer::Printer;
use long_events::EventStream;
use std::alloc::{AllocError, Global};
use vlog_module::Module;

/// Adds the lines of a module's run over events that are shown.
///
/// # Errors
/// `AllocError` if memory is out, and for no other cause. Some of the lines may be added then.
pub fn push_shown(
    alloc: Global,
    text: &mut Vec<u8>,
    module: &Module,
    events: EventStream,
    form: LineForm,
) -> Result<(), AllocError>
    requires { All (λ event. event.pin < length (input_names «module».now.ports)) (events_left events) }
    ensures { OnOk result (text.new.items ≡ text.old.items ++ shown_text «module».now (events_left events) form) }
{
    let head = head_of(alloc, module, form)?;
    let mut printer = Printer::new(alloc, module, events.left(), form)?;
    let mut events = events;
    text.extend_from_slice(&head)?;
    text.extend_from_slice(&printer.text)?;
    push_rest(text, &mut printer, &mut events)
}

/// Adds what a printer shows of events and of the end.
fn push_rest(
    text: &mut Vec<u8>,
    printer: &mut Printer,
    events: &mut EventStream,
) -> Result<(), AllocError>
    requires printing { IsPrinting printer.old }
    requires inputs { All (λ event. event.pin < input_count printer.old.runner) (events_left events.old) }
    requires counted { length (events_left events.old) ≤ printer.old.count }
    ensures { (m : Parts) (entry : Entry) → Prints printer.old m entry
        → OnOk result (text.new.items ≡ text.old.items ++ rest_text printer.old m entry (events_left events.old)) }
{
    let mut more = true;
    while more {
        more = printer.next_piece(events);
        text.extend_from_slice(&printer.text)?;
    }
    Ok(())
}
