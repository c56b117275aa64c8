// `vlogrun`: runs a module over a list of events.
ghost use Rattle.std.specs.Prelude.{◌≡◌, [], map, string_bytes, IfOk, IfErr, Some};
ghost use Rattle.tool_run.specs.Runs.{Does};
ghost use Rattle.tool_run.specs.Stops.{StopsWith};
ghost use Rattle.tool_run.specs.Tasks.{Done};
ghost use Rattle.long_runs.specs.Whole.{lines_in};
ghost use Rattle.vlog_forms.specs.Outcome.{outcome_of};
ghost use Rattle.tool_run.specs.Needs.{text_of};
ghost use Rattle.module_tools.specs.Events.{list_fault};
ghost use Rattle.module_tools.specs.Vlogrun.{run_of, run_over, run_task, vlogrun_outcome, vlogrun_task_for, waves_task};
ghost use Rattle.module_tools.specs.declared.told.Told.TheVariants.{Lines};

use crate::events::read_list;
use crate::faults::{list_refusal, vlog_refusal};
use crate::request::{Request, VLOGRUN_HELP, VLOGRUN_USAGE, command, request_in};
use crate::told::{EventsForm, Told};
use crate::tracing::{NamedTracing, Tracing};
use clap::{ArgMatches, Command};
use long_events::LongFault;
use long_runs::{LineForm, LinesFault, RunLines};
use std::alloc::{AllocError, Global};
use tool_inputs::{CommandLine, Words, run_tool};
use tool_run::{Host, Job, Load, Stop, Tool, loaded_at};
use vlog_parser::{Module, VlogFault, parse};
use vlog_run::EventFault;

/// The most bytes that the text of a module may have.
pub(crate) const MODULE_LIMIT: usize = 67_108_864;

/// The most bytes that a list of events may have.
const EVENTS_LIMIT: usize = 1_048_576;

/// The most bytes that a list of names may have.
const NAMES_LIMIT: usize = 16_777_216;

/// Loads a module and a list of events, runs the module over the events, and tells the lines of the run.
#[derive(Clone, Copy, Debug, PartialEq, Eq)]
pub(crate) struct Running {
    pub(crate) lines: LineForm,
    pub(crate) form: EventsForm,
}

impl Tool for Running {
    ghost use Rattle.module_tools.specs.Vlogrun.{vlogrun_answer};
    ghost use Rattle.module_tools.specs.declared.told.Told.TheVariants.{Lines};

    ghost answer_of = { λ tool texts. vlogrun_answer (Lines tool.lines) tool.form texts };

    type Made = RunLines;

    fn answer(&self, alloc: Global, loaded: &Vec<Vec<u8>>) -> Result<RunLines, Stop<'_>> {
        let (text, events) = (loaded_at(loaded, 0), loaded_at(loaded, 1));
        run_texts(alloc, text, events, self.lines, self.form)
    }
}

// The lines of the run of a module over events, from the texts of both.
#[tactic(auto, using(crate::proofs::Outcomes::outcome_spelled, crate::proofs::Outcomes::outcome_faulty))]
fn run_texts(
    alloc: Global,
    text: &[u8],
    events: &[u8],
    lines: LineForm,
    form: EventsForm,
) -> Result<RunLines, Stop<'static>>
    ensures bytes { IfOk result (λ made. run_of (Lines lines) form (outcome_of text.now) events.now ≡ Done (lines_in made)) }
    ensures stops { IfErr result (StopsWith (run_of (Lines lines) form (outcome_of text.now) events.now)) }
{
    match parse(alloc, text) {
        Ok(module) => run_module(alloc, module, events, lines, form),
        Err(VlogFault::At { offset, cause }) => Err(Stop::Refused(vlog_refusal(offset, cause))),
        Err(VlogFault::Memory(_)) => Err(Stop::Memory),
    }
}

// The lines of the run of a module over events.
fn run_module(
    alloc: Global,
    module: Module,
    events: &[u8],
    lines: LineForm,
    form: EventsForm,
) -> Result<RunLines, Stop<'static>>
    ensures bytes { IfOk result (λ made. run_over (Lines lines) form [] «module» events.now (list_fault form «module».ports events.now) ≡ Done (lines_in made)) }
    ensures stops { IfErr result (StopsWith (run_over (Lines lines) form [] «module» events.now (list_fault form «module».ports events.now))) }
{
    match read_list(alloc, &module, events, form) {
        Ok(events) => match RunLines::new(alloc, module, events, lines) {
            Ok(made) => Ok(made),
            Err(LinesFault::Long) => Err(Stop::Refused(list_refusal(LongFault::Long))),
            Err(LinesFault::Memory(_)) => Err(Stop::Memory),
        },
        Err(LongFault::Event(EventFault::Memory(_))) => Err(Stop::Memory),
        Err(fault) => Err(Stop::Refused(list_refusal(fault))),
    }
}

// Loads a module and a list of events, and tells the run of the module.
fn run_plain<H: Host>(
    alloc: Global,
    told: Told,
    form: EventsForm,
    module: &str,
    events: Option<&str>,
    host: &mut H,
) -> u8
    ensures { Does H.outside (run_task told form «module».now (text_of events.entry)) result (H.scene host.old) (H.scene host.new) }
{
    let loads = [
        Load {
            name: Some(module),
            limit: MODULE_LIMIT,
        },
        Load {
            name: events,
            limit: EVENTS_LIMIT,
        },
    ];
    let job = Job {
        tool_name: "vlogrun",
        loads: &loads,
        target: None,
    };
    match told {
        Told::Lines(lines) => {
            let tool = Running { lines, form };
            host.perform(alloc, &tool, &job)
        }
        Told::Waves => {
            let tool = Tracing { form };
            host.perform(alloc, &tool, &job)
        }
    }
}

// Loads a module, a list of names and a list of events, and tells the waves of the module's run with these names.
fn trace_named<H: Host>(
    alloc: Global,
    form: EventsForm,
    names: &str,
    module: &str,
    events: Option<&str>,
    host: &mut H,
) -> u8
    ensures { Does H.outside (waves_task form names.now «module».now (text_of events.entry)) result (H.scene host.old) (H.scene host.new) }
{
    let loads = [
        Load {
            name: Some(module),
            limit: MODULE_LIMIT,
        },
        Load {
            name: Some(names),
            limit: NAMES_LIMIT,
        },
        Load {
            name: events,
            limit: EVENTS_LIMIT,
        },
    ];
    let job = Job {
        tool_name: "vlogrun",
        loads: &loads,
        target: None,
    };
    let tool = NamedTracing { form };
    host.perform(alloc, &tool, &job)
}

// Does a request: loads its files and runs the module.
fn run_files<H: Host>(alloc: Global, request: Request<'_>, host: &mut H) -> u8
    ensures { Does H.outside (vlogrun_task_for (Some request.entry)) result (H.scene host.old) (H.scene host.new) }
{
    let Request {
        told,
        form,
        names,
        module,
        events,
    } = request;
    match told {
        Told::Waves => match names {
            Some(names) => trace_named(alloc, form, names, module, events, host),
            None => run_plain(alloc, Told::Waves, form, module, events, host),
        },
        Told::Lines(lines) => run_plain(alloc, Told::Lines(lines), form, module, events, host),
    }
}

/// `vlogrun` by its command line.
#[derive(Clone, Copy, Debug, PartialEq, Eq)]
pub(crate) struct Vlogrun;

impl CommandLine for Vlogrun {
    ghost use Rattle.module_tools.specs.Vlogrun.{vlogrun};
    ghost use Rattle.module_tools.specs.Laws.{vlogrun-simple, vlogrun-speaks};

    ghost manual = { vlogrun };

    fn words(&self) -> Words {
        Words {
            name: "vlogrun",
            usage: VLOGRUN_USAGE,
            help: VLOGRUN_HELP,
        }
    }

    fn command<'a>(&self, alloc: Global) -> Result<Command<'a>, AllocError> {
        command(alloc)
    }

    fn perform<H: Host>(
        &self,
        alloc: Global,
        matches: &ArgMatches<'_>,
        host: &mut H,
    ) -> Option<u8> {
        let request = request_in(matches)?;
        Some(run_files(alloc, request, host))
    }

    ghost simple = { vlogrun-simple };

    ghost speaks = { vlogrun-speaks };
}

/// Runs `vlogrun` with these arguments, the first of which is its name, and answers the exit status.
pub fn run_vlogrun<H: Host>(alloc: Global, args: &[String], host: &mut H) -> u8
    ensures { Does H.outside (vlogrun_outcome (map string_bytes args.now)) result (H.scene host.old) (H.scene host.new) }
{
    run_tool(alloc, &Vlogrun, args, host)
}
