// `vlogsweep`: runs a module over several lists of events.
ghost use Rattle.std.specs.Prelude.{◌≡◌, ◌≤◌, ◌<◌, ◌+◌, ◌++◌, ◌∷◌, [], All, drop, flat_map, length, map, string_bytes, vec_items, IfOk, IfErr, None, OnOk, Some};
ghost use Rattle.tool_run.specs.Needs.{IsSound, need_of};
ghost use Rattle.tool_run.specs.Runs.{Does};
ghost use Rattle.tool_run.specs.Stops.{StopsWith};
ghost use Rattle.tool_run.specs.Tasks.{Done};
ghost use Rattle.vlog_forms.specs.Outcome.{outcome_of};
ghost use Rattle.vlog_semantics.specs.Run.{input_names};
ghost use Rattle.vlog_sweep.specs.Sweep.{last_text, list_text};
ghost use Rattle.module_tools.specs.declared.told.EventsForm.TheVariants.{Plain};
ghost use Rattle.module_tools.specs.Vlogsweep.{TellsRefusal, file_refusal, file_text, files_of, first_refusal, heading_of, last_form, names_of, plain_form, sweep_needs, sweep_of, sweep_over, task_over, vlogsweep_outcome, vlogsweep_task_for};

use crate::faults::{file_refusal, vlog_refusal};
use crate::listing::show_lists;
use crate::running::MODULE_LIMIT;
use crate::sweep_request::{SweepRequest, VLOGSWEEP_HELP, VLOGSWEEP_USAGE, command, request_in};
use crate::told::{EventsForm, SweepForm};
use clap::{ArgMatches, Command};
use long_events::LongFault;
use long_runs::Shown;
use std::alloc::{AllocError, Global};
use tool_inputs::{CommandLine, Words, run_tool};
use tool_run::{Host, Job, Load, Stop, Tool, loaded_at};
use vlog_parser::{Module, VlogFault, parse};
use vlog_run::{EventFault, read_events};
use vlog_sweep::{EventList, sweep, sweep_last};

/// The most bytes that a list of events may have.
const LIST_LIMIT: usize = 65_536;

/// Loads a module and lists of events, from files of these names, and runs the module over each list. If the lists are plain, and all lines
/// are shown or the last ones alone, all lists run at once, each in a bit-parallel lane of its own.
#[derive(Drop)]
pub(crate) struct Sweeping<'a> {
    names: Vec<&'a str>,
    form: SweepForm,
    ghost few: { length names.items ≤ 64 },
}

impl Tool for Sweeping<'_> {
    ghost use Rattle.module_tools.specs.Vlogsweep.{names_of, vlogsweep_answer};

    ghost answer_of = { λ tool texts. vlogsweep_answer tool.form (names_of tool.names.items) texts };

    type Made = Vec<u8>;

    fn answer(&self, alloc: Global, loaded: &Vec<Vec<u8>>) -> Result<Vec<u8>, Stop<'_>> {
        let (text, texts) = (loaded_at(loaded, 0), after_first(loaded));
        sweep_texts(alloc, text, &self.names, texts, self.form)
    }
}

// What was loaded after the module.
fn after_first(loaded: &[Vec<u8>]) -> &[Vec<u8>]
    ensures { result.now ≡ drop 1 loaded.now }
{
    match loaded {
        [] => loaded,
        [_, others @ ..] => others,
    }
}

// The lines of the runs of a module over lists of events, from the texts of all.
#[tactic(auto, using(crate::proofs::Outcomes::outcome_spelled, crate::proofs::Outcomes::outcome_faulty))]
fn sweep_texts<'a>(
    alloc: Global,
    text: &[u8],
    names: &[&'a str],
    texts: &[Vec<u8>],
    form: SweepForm,
) -> Result<Vec<u8>, Stop<'a>>
    requires { length names.now ≤ 64 }
    ensures bytes { IfOk result (λ bytes. sweep_of form (outcome_of text.now) (files_of (names_of names.now) (map vec_items texts.now)) ≡ Done bytes.items) }
    ensures stops { IfErr result (StopsWith (sweep_of form (outcome_of text.now) (files_of (names_of names.now) (map vec_items texts.now)))) }
{
    match parse(alloc, text) {
        Ok(module) => sweep_module(alloc, &module, names, texts, form),
        Err(VlogFault::At { offset, cause }) => Err(Stop::Refused(vlog_refusal(offset, cause))),
        Err(VlogFault::Memory(_)) => Err(Stop::Memory),
    }
}

// The lines of the runs of a module over lists of events, from their texts.
fn sweep_module<'a>(
    alloc: Global,
    module: &Module,
    names: &[&'a str],
    texts: &[Vec<u8>],
    form: SweepForm,
) -> Result<Vec<u8>, Stop<'a>>
    requires { length names.now ≤ 64 }
    ensures bytes { IfOk result (λ bytes. sweep_of form (Ok «module».now) (files_of (names_of names.now) (map vec_items texts.now)) ≡ Done bytes.items) }
    ensures stops { IfErr result (StopsWith (sweep_of form (Ok «module».now) (files_of (names_of names.now) (map vec_items texts.now)))) }
{
    match form.events {
        EventsForm::Plain => sweep_plain_lists(alloc, module, names, texts, form.shown),
        EventsForm::Long => show_lists(alloc, module, names, texts, form),
    }
}

// The lines that are shown of the runs of a module over plain lists of events, from their texts.
fn sweep_plain_lists<'a>(
    alloc: Global,
    module: &Module,
    names: &[&'a str],
    texts: &[Vec<u8>],
    shown: Shown,
) -> Result<Vec<u8>, Stop<'a>>
    requires { length names.now ≤ 64 }
    ensures bytes { IfOk result (λ bytes. sweep_of (record { events = Plain; shown = shown }) (Ok «module».now) (files_of (names_of names.now) (map vec_items texts.now)) ≡ Done bytes.items) }
    ensures stops { IfErr result (StopsWith (sweep_of (record { events = Plain; shown = shown }) (Ok «module».now) (files_of (names_of names.now) (map vec_items texts.now)))) }
{
    match shown {
        Shown::All => sweep_plain(alloc, module, names, texts),
        Shown::Last => sweep_plain_last(alloc, module, names, texts),
        Shown::Changes => {
            let form = SweepForm {
                events: EventsForm::Plain,
                shown: Shown::Changes,
            };
            show_lists(alloc, module, names, texts, form)
        }
    }
}

// All lines of the runs of a module over plain lists of events, from their texts.
fn sweep_plain<'a>(
    alloc: Global,
    module: &Module,
    names: &[&'a str],
    texts: &[Vec<u8>],
) -> Result<Vec<u8>, Stop<'a>>
    requires { length names.now ≤ 64 }
    ensures bytes { IfOk result (λ bytes. sweep_of plain_form (Ok «module».now) (files_of (names_of names.now) (map vec_items texts.now)) ≡ Done bytes.items) }
    ensures stops { IfErr result (StopsWith (sweep_of plain_form (Ok «module».now) (files_of (names_of names.now) (map vec_items texts.now)))) }
{
    let mut lists = Vec::new(alloc);
    read_files(alloc, module, names, texts, &mut lists)?;
    Ok(sweep(alloc, module, &lists)?)
}

// The last lines of the runs of a module over plain lists of events, from their texts.
#[tactic(auto, using(crate::proofs::LastLines::refusal_same))]
fn sweep_plain_last<'a>(
    alloc: Global,
    module: &Module,
    names: &[&'a str],
    texts: &[Vec<u8>],
) -> Result<Vec<u8>, Stop<'a>>
    requires { length names.now ≤ 64 }
    ensures bytes { IfOk result (λ bytes. sweep_of last_form (Ok «module».now) (files_of (names_of names.now) (map vec_items texts.now)) ≡ Done bytes.items) }
    ensures stops { IfErr result (StopsWith (sweep_of last_form (Ok «module».now) (files_of (names_of names.now) (map vec_items texts.now)))) }
{
    let mut lists = Vec::new(alloc);
    read_files(alloc, module, names, texts, &mut lists)?;
    Ok(sweep_last(alloc, module, &lists)?)
}

// Reads the lists of the files of these names and appends them, up to the first that is refused.
fn read_files<'a>(
    alloc: Global,
    module: &Module,
    names: &[&'a str],
    texts: &[Vec<u8>],
    lists: &mut Vec<EventList>,
) -> Result<(), Stop<'a>>
    ensures texts { OnOk result (flat_map (list_text «module».now) lists.new.items
        ≡ flat_map (list_text «module».now) lists.old.items ++ flat_map (file_text plain_form «module».now) (files_of (names_of names.now) (map vec_items texts.now))) }
    ensures lasts { OnOk result (flat_map (last_text «module».now) lists.new.items
        ≡ flat_map (last_text «module».now) lists.old.items ++ flat_map (file_text last_form «module».now) (files_of (names_of names.now) (map vec_items texts.now))) }
    ensures few { OnOk result (length lists.new.items ≤ length lists.old.items + length names.now) }
    ensures inputs { OnOk result (All (λ list. All (λ event. event.pin < length (input_names «module».now.ports)) list.events.items) lists.old.items
        → All (λ list. All (λ event. event.pin < length (input_names «module».now.ports)) list.events.items) lists.new.items) }
    ensures accepted { OnOk result (first_refusal plain_form «module».now.ports (files_of (names_of names.now) (map vec_items texts.now)) ≡ None) }
    ensures refused { IfErr result (TellsRefusal (first_refusal plain_form «module».now.ports (files_of (names_of names.now) (map vec_items texts.now)))) }
{
    match names {
        [] => Ok(()),
        [name, names @ ..] => match texts {
            [] => Ok(()),
            [text, texts @ ..] => {
                let list = read_file(alloc, module, name, text)?;
                push_list(lists, list)?;
                read_files(alloc, module, names, texts, lists)
            }
        },
    }
}

// Appends a list.
fn push_list(lists: &mut Vec<EventList>, list: EventList) -> Result<(), AllocError>
    ensures { OnOk result (lists.new.items ≡ lists.old.items ++ list ∷ []) }
{
    lists.push(list)?;
    Ok(())
}

// The list of events of a file, with its heading.
#[tactic(auto, using(crate::proofs::Plain::shown_plain))]
fn read_file<'a>(
    alloc: Global,
    module: &Module,
    name: &'a str,
    bytes: &[u8],
) -> Result<EventList, Stop<'a>>
    ensures text { IfOk result (λ list. list_text «module».now list ≡ file_text plain_form «module».now (record { name = name.now; bytes = bytes.now })) }
    ensures last { IfOk result (λ list. last_text «module».now list ≡ file_text last_form «module».now (record { name = name.now; bytes = bytes.now })) }
    ensures inputs { IfOk result (λ list. All (λ event. event.pin < length (input_names «module».now.ports)) list.events.items) }
    ensures accepted { OnOk result (file_refusal plain_form «module».now.ports (record { name = name.now; bytes = bytes.now }) ≡ None) }
    ensures refused { IfErr result (TellsRefusal (file_refusal plain_form «module».now.ports (record { name = name.now; bytes = bytes.now }))) }
{
    match read_events(alloc, module, bytes) {
        Ok(events) => Ok(EventList {
            heading: heading_of(alloc, name)?,
            events,
        }),
        Err(EventFault::Memory(_)) => Err(Stop::Memory),
        Err(fault) => Err(Stop::Refused(file_refusal(name, LongFault::Event(fault)))),
    }
}

/// The heading of a run, the line before its lines: the name of the file.
pub(crate) fn heading_of(alloc: Global, name: &str) -> Result<Vec<u8>, AllocError>
    ensures { IfOk result (λ heading. heading.items ≡ heading_of name.now) }
{
    let mut heading = b"events ".to_vec(alloc)?;
    heading.extend_from_slice(name.as_bytes())?;
    heading.push(b'\n')?;
    Ok(heading)
}

// The loads of a request: the module, then the lists in their order.
fn loads_of<'a>(
    alloc: Global,
    module: &'a str,
    names: &[&'a str],
) -> Result<Vec<Load<'a>>, AllocError>
    ensures needs { IfOk result (λ loads. map need_of loads.items ≡ sweep_needs «module».now (names_of names.now)) }
    ensures sound { IfOk result (λ loads. IsSound (map need_of loads.items)) }
{
    let mut loads = Vec::new(alloc);
    loads.push(Load {
        name: Some(module),
        limit: MODULE_LIMIT,
    })?;
    for name in names {
        loads.push(Load {
            name: Some(*name),
            limit: LIST_LIMIT,
        })?;
    }
    Ok(loads)
}

// Performs the job of these loads, which are the module and then the lists of the tool's names.
fn sweep_loads<H: Host>(alloc: Global, tool: &Sweeping<'_>, loads: &[Load<'_>], host: &mut H) -> u8
    requires { IsSound (map need_of loads.now) }
    ensures { Does H.outside (task_over (map need_of loads.now) tool.now.form (names_of tool.now.names.items)) result (H.scene host.old) (H.scene host.new) }
{
    let job = Job {
        tool_name: "vlogsweep",
        loads,
        target: None,
    };
    host.perform(alloc, tool, &job)
}

// Does a request: loads its files and runs the module.
fn sweep_files<H: Host>(alloc: Global, request: SweepRequest<'_>, host: &mut H) -> u8
    requires { length request.names.items ≤ 64 }
    ensures { Does H.outside (vlogsweep_task_for (Some request.entry)) result (H.scene host.old) (H.scene host.new) }
{
    let SweepRequest {
        form,
        module,
        names,
    } = request;
    match loads_of(alloc, module, &names) {
        Ok(loads) => {
            let tool = Sweeping { names, form };
            sweep_loads(alloc, &tool, &loads, host)
        }
        Err(AllocError) => host.give_up("vlogsweep"),
    }
}

/// `vlogsweep` by its command line.
#[derive(Clone, Copy, Debug, PartialEq, Eq)]
pub(crate) struct Vlogsweep;

impl CommandLine for Vlogsweep {
    ghost use Rattle.module_tools.specs.Vlogsweep.{vlogsweep};
    ghost use Rattle.module_tools.specs.Laws.{vlogsweep-simple, vlogsweep-speaks};

    ghost manual = { vlogsweep };

    fn words(&self) -> Words {
        Words {
            name: "vlogsweep",
            usage: VLOGSWEEP_USAGE,
            help: VLOGSWEEP_HELP,
        }
    }

    fn command<'a>(&self, alloc: Global) -> Result<Command<'a>, AllocError> {
        command(alloc)
    }

    fn perform<H: Host>(
        &self,
        alloc: Global,
        matches: &ArgMatches<'_>,
        host: &mut H,
    ) -> Option<u8> {
        match request_in(alloc, matches) {
            Ok(Some(request)) => Some(sweep_files(alloc, request, host)),
            Ok(None) => None,
            Err(AllocError) => Some(host.give_up("vlogsweep")),
        }
    }

    ghost simple = { vlogsweep-simple };

    ghost speaks = { vlogsweep-speaks };
}

/// Runs `vlogsweep` with these arguments, the first of which is its name, and answers the exit status.
pub fn run_vlogsweep<H: Host>(alloc: Global, args: &[String], host: &mut H) -> u8
    ensures { Does H.outside (vlogsweep_outcome (map string_bytes args.now)) result (H.scene host.old) (H.scene host.new) }
{
    run_tool(alloc, &Vlogsweep, args, host)
}
