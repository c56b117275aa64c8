// What the command line of `vlogsweep` asks for.
ghost use Rattle.std.specs.Prelude.{◌≡◌, ◌≤◌, [], IfOk, IfSome, length, option_map, unwrap_or};
ghost use Rattle.clap.specs.Words.{app_of, found_of, rows_of};
ghost use Rattle.tool_run.specs.Needs.{text_of};
ghost use Rattle.module_tools.specs.Vlogsweep.{IsFew, counted_task, names_of, sweep_form, sweep_form_in, vlogsweep_command, vlogsweep_task_by, vlogsweep_task_for, vlogsweep_task_of};

use crate::request::{events_form, shown_by};
use crate::told::SweepForm;
use clap::{ArgMatches, Command};
use long_runs::Shown;
use std::alloc::{AllocError, Global};
use tool_inputs::{has_flag, long_flag, required, several, value, values, with};

/// The command line of `vlogsweep`.
pub const VLOGSWEEP_USAGE: &str =
    "vlogsweep [--long] [--changes | --last] MODULE EVENTS [EVENTS ...]";

/// The help of `vlogsweep`, at most 80 columns wide.
pub const VLOGSWEEP_HELP: &str = "\
vlogsweep: runs a module of the Verilog subset over several lists of events.

Usage: vlogsweep [--long] [--changes | --last] MODULE EVENTS [EVENTS ...]

  MODULE      the text of a module, as icebox_vlog writes it
  EVENTS      a list of events; one to 64 of them
  --long      takes the long form of events
  --changes   writes a line only where it differs from the one before, with the
              number of its event
  --last      writes the last line of each list alone

Each list is a run of its own: all of them begin at the start, and none sees the
events of another. A list is written as for vlogrun: a line for each event, the
name of an input, one space, and 0 or 1; or in the long form of vlogrun --long.

For each list, in the order of the command line, vlogsweep writes a line with
the word events, a space and the name of the file, and then the lines that
vlogrun writes of it: the bits of the outputs at the start and after each event.
--changes and --last are those of vlogrun. With --long or --changes the lists
run one after the other, and else side by side. What is written is in memory as
a whole before, so take --changes or --last for long runs.

Example: vlogsweep counter.v up.events down.events

Limits: a module has at most 67108864 bytes, a list of events 65536.

Exit status: 0 done; 1 the module is refused, with the offset of its first
fault, or a list of events, with its name and its first faulty line, or with
Long if it has too many events; 2 the command line isn't taken; 3 reading
failed; 4 writing failed; 5 out of memory; 6 a file is longer than its limit.

icestorm --explain CAUSE tells what the cause in a message means.
";

/// The most lists of events that a run takes: each is one of 64 bit-parallel lanes.
const MOST_LISTS: usize = 64;

/// What the arguments ask for: the form of the lists and of what is shown, the module, and the names of one to sixty-four lists of events.
#[derive(Drop)]
pub(crate) struct SweepRequest<'a> {
    pub(crate) form: SweepForm,
    pub(crate) module: &'a str,
    pub(crate) names: Vec<&'a str>,
}

// The names that were found, if there were any.
fn names_found<'a>(alloc: Global, names: Option<&[&'a str]>) -> Result<Vec<&'a str>, AllocError>
    ensures { IfOk result (λ found. names_of found.items ≡ unwrap_or (option_map (λ names. names_of names.now) names.entry) []) }
{
    match names {
        Some(names) => names.to_vec(alloc),
        None => Ok(Vec::new(alloc)),
    }
}

// The request for these lists, if there are 1 to 64 of them.
fn counted<'a>(form: SweepForm, module: &'a str, names: Vec<&'a str>) -> Option<SweepRequest<'a>>
    ensures task { vlogsweep_task_for result ≡ counted_task form «module».entry.now (names_of names.entry.items) }
    ensures few { IfSome result (λ request. length request.names.items ≤ 64) }
{
    if 1 <= names.len() && names.len() <= MOST_LISTS {
        Some(SweepRequest {
            form,
            module,
            names,
        })
    } else {
        None
    }
}

// The form by the flags, if these lines are shown.
fn sweep_form(long: bool, shown: Option<Shown>) -> Option<SweepForm>
    ensures { result ≡ sweep_form long shown }
{
    let shown = shown?;
    Some(SweepForm {
        events: events_form(long),
        shown,
    })
}

// The form by the arguments.
fn sweep_form_in(matches: &ArgMatches<'_>) -> Option<SweepForm>
    ensures { result ≡ sweep_form_in (rows_of (found_of matches.now)) }
{
    let shown = shown_by(has_flag(matches, "changes"), has_flag(matches, "last"));
    sweep_form(has_flag(matches, "long"), shown)
}

// The request, from what was found in the arguments: there must be a module and at least one list.
fn wanted<'a>(
    form: Option<SweepForm>,
    module: Option<&'a str>,
    names: Vec<&'a str>,
) -> Option<SweepRequest<'a>>
    ensures task { vlogsweep_task_for result ≡ vlogsweep_task_of form (text_of «module».entry) (names_of names.entry.items) }
    ensures few { IfSome result (λ request. length request.names.items ≤ 64) }
{
    match (form, module) {
        (Some(form), Some(module)) => counted(form, module, names),
        _ => None,
    }
}

/// The command line as `clap` reads it.
pub(crate) fn command<'a>(alloc: Global) -> Result<Command<'a>, AllocError>
    ensures { IfOk result (λ command. app_of command ≡ vlogsweep_command) }
{
    let command = Command::new(alloc, "vlogsweep");
    let command = with(command, long_flag(alloc, "long"))?;
    let command = with(command, long_flag(alloc, "changes"))?;
    let command = with(command, long_flag(alloc, "last"))?;
    let command = with(command, required(alloc, "module"))?;
    with(command, several(alloc, "events"))
}

/// The request of the arguments, or `None` if they aren't taken.
pub(crate) fn request_in<'a>(
    alloc: Global,
    matches: &ArgMatches<'a>,
) -> Result<Option<SweepRequest<'a>>, AllocError>
    ensures task { IfOk result (λ request. vlogsweep_task_for request ≡ vlogsweep_task_by (rows_of (found_of matches.now))) }
    ensures few { IfOk result IsFew }
{
    let names = names_found(alloc, values(matches, "events"))?;
    let form = sweep_form_in(matches);
    Ok(wanted(form, value(matches, "module"), names))
}
