// Runs a module over lists of events, one after the other.
ghost use Rattle.std.specs.Prelude.{◌≡◌, ◌<◌, ◌++◌, All, flat_map, length, map, vec_items, IfErr, IfOk, None, Ok, OnOk};
ghost use Rattle.tool_run.specs.Stops.{StopsWith};
ghost use Rattle.tool_run.specs.Tasks.{Done};
ghost use Rattle.vlog_semantics.specs.Run.{input_names};
ghost use Rattle.long_events.specs.Streams.{events_left};
ghost use Rattle.module_tools.specs.Events.{events_in};
ghost use Rattle.module_tools.specs.Vlogsweep.{TellsRefusal, file_refusal, file_text, files_of, first_refusal, heading_of, names_of, outputs_in, sweep_of};
ghost use Rattle.long_runs.specs.Shown.{shown_text};

use crate::events::read_list;
use crate::faults::file_refusal;
use crate::sweeping::heading_of;
use crate::told::SweepForm;
use long_events::{EventStream, LongFault};
use long_runs::{LineForm, Shown, push_shown};
use std::alloc::{AllocError, Global};
use tool_run::Stop;
use vlog_parser::Module;
use vlog_run::EventFault;

/// The lines that are shown of the runs of a module over lists of events, from their texts. All lists are judged before the first run.
pub(crate) fn show_lists<'a>(
    alloc: Global,
    module: &Module,
    names: &[&'a str],
    texts: &[Vec<u8>],
    form: SweepForm,
) -> Result<Vec<u8>, Stop<'a>>
    ensures bytes { IfOk result (λ bytes. sweep_of form (Ok «module».now) (files_of (names_of names.now) (map vec_items texts.now)) ≡ Done bytes.items) }
    ensures stops { IfErr result (StopsWith (sweep_of form (Ok «module».now) (files_of (names_of names.now) (map vec_items texts.now)))) }
{
    let mut text = Vec::new(alloc);
    judge_files(alloc, module, names, texts, form)?;
    show_files(alloc, module, names, texts, form, &mut text)?;
    Ok(text)
}

// Tells the first list that is refused, of the files of these names.
fn judge_files<'a>(
    alloc: Global,
    module: &Module,
    names: &[&'a str],
    texts: &[Vec<u8>],
    form: SweepForm,
) -> Result<(), Stop<'a>>
    ensures accepted { OnOk result (first_refusal form «module».now.ports (files_of (names_of names.now) (map vec_items texts.now)) ≡ None) }
    ensures refused { IfErr result (TellsRefusal (first_refusal form «module».now.ports (files_of (names_of names.now) (map vec_items texts.now)))) }
{
    match names {
        [] => Ok(()),
        [name, names @ ..] => match texts {
            [] => Ok(()),
            [text, texts @ ..] => {
                let _ = read_stream(alloc, module, name, text, form)?;
                judge_files(alloc, module, names, texts, form)
            }
        },
    }
}

// Adds what is shown of the lists of the files of these names, up to the first that is refused.
fn show_files<'a>(
    alloc: Global,
    module: &Module,
    names: &[&'a str],
    texts: &[Vec<u8>],
    form: SweepForm,
    shown: &mut Vec<u8>,
) -> Result<(), Stop<'a>>
    ensures texts { OnOk result (shown.new.items ≡ shown.old.items ++ flat_map (file_text form «module».now) (files_of (names_of names.now) (map vec_items texts.now))) }
    ensures refused { IfErr result (TellsRefusal (first_refusal form «module».now.ports (files_of (names_of names.now) (map vec_items texts.now)))) }
{
    match names {
        [] => Ok(()),
        [name, names @ ..] => match texts {
            [] => Ok(()),
            [text, texts @ ..] => {
                let events = read_stream(alloc, module, name, text, form)?;
                show_file(alloc, module, name, events, form.shown, shown)?;
                show_files(alloc, module, names, texts, form, shown)
            }
        },
    }
}

// The events of the list of a file.
fn read_stream<'a>(
    alloc: Global,
    module: &Module,
    name: &'a str,
    bytes: &[u8],
    form: SweepForm,
) -> Result<EventStream, Stop<'a>>
    ensures read { IfOk result (λ stream. events_left stream ≡ events_in form.events «module».now.ports bytes.now) }
    ensures inputs { IfOk result (λ stream. All (λ event. event.pin < length (input_names «module».now.ports)) (events_left stream)) }
    ensures accepted { OnOk result (file_refusal form «module».now.ports (record { name = name.now; bytes = bytes.now }) ≡ None) }
    ensures refused { IfErr result (TellsRefusal (file_refusal form «module».now.ports (record { name = name.now; bytes = bytes.now }))) }
{
    match read_list(alloc, module, bytes, form.events) {
        Ok(events) => Ok(events),
        Err(LongFault::Event(EventFault::Memory(_))) => Err(Stop::Memory),
        Err(fault) => Err(Stop::Refused(file_refusal(name, fault))),
    }
}

// Adds the heading of a file, and what is shown of the module's run over its events.
fn show_file(
    alloc: Global,
    module: &Module,
    name: &str,
    events: EventStream,
    shown: Shown,
    text: &mut Vec<u8>,
) -> Result<(), AllocError>
    requires { All (λ event. event.pin < length (input_names «module».now.ports)) (events_left events) }
    ensures { OnOk result (text.new.items ≡ text.old.items ++ (heading_of name.now ++ shown_text «module».now (events_left events) (outputs_in shown))) }
{
    let heading = heading_of(alloc, name)?;
    text.extend_from_slice(&heading)?;
    let form = LineForm {
        shown,
        registers: false,
        head: false,
    };
    push_shown(alloc, text, module, events, form)
}
