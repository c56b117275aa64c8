// Reads lists of events, in the plain form and in the long one.
ghost use Rattle.std.specs.Prelude.{◌≡◌, ◌<◌, All, IfErr, IfOk, None, OnOk, length};
ghost use Rattle.vlog_semantics.specs.Run.{input_names};
ghost use Rattle.long_events.specs.Lists.{TellsLong};
ghost use Rattle.long_events.specs.Streams.{events_left};
ghost use Rattle.module_tools.specs.Events.{events_in, list_fault};
ghost use Rattle.module_tools.specs.declared.told.EventsForm.TheVariants.{Plain};

use crate::told::EventsForm;
use long_events::{EventStream, LongFault, read_long_events};
use std::alloc::Global;
use vlog_parser::Module;
use vlog_run::{EventFault, read_events};

/// The events of a list that is written in this form.
///
/// # Errors
/// The fault of the list, and out of memory in place of any other answer.
pub(crate) fn read_list(
    alloc: Global,
    module: &Module,
    bytes: &[u8],
    form: EventsForm,
) -> Result<EventStream, LongFault>
    ensures read { IfOk result (λ stream. events_left stream ≡ events_in form «module».now.ports bytes.now) }
    ensures inputs { IfOk result (λ stream. All (λ event. event.pin < length (input_names «module».now.ports)) (events_left stream)) }
    ensures accepted { OnOk result (list_fault form «module».now.ports bytes.now ≡ None) }
    ensures refused { IfErr result (TellsLong (list_fault form «module».now.ports bytes.now)) }
{
    match form {
        EventsForm::Plain => read_plain(alloc, module, bytes),
        EventsForm::Long => read_long_events(alloc, module, bytes),
    }
}

// The events of a plain list.
fn read_plain(alloc: Global, module: &Module, bytes: &[u8]) -> Result<EventStream, LongFault>
    ensures read { IfOk result (λ stream. events_left stream ≡ events_in Plain «module».now.ports bytes.now) }
    ensures inputs { IfOk result (λ stream. All (λ event. event.pin < length (input_names «module».now.ports)) (events_left stream)) }
    ensures accepted { OnOk result (list_fault Plain «module».now.ports bytes.now ≡ None) }
    ensures refused { IfErr result (TellsLong (list_fault Plain «module».now.ports bytes.now)) }
{
    match read_events(alloc, module, bytes) {
        Ok(events) => Ok(EventStream::of_list(alloc, &events)?),
        Err(fault) => Err(LongFault::Event(fault)),
    }
}
