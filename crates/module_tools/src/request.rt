// What the command line of `vlogrun` asks for.
ghost use Rattle.std.specs.Prelude.{◌≡◌, IfOk, None, Some, if◌then◌else◌};
ghost use Rattle.clap.specs.Words.{app_of, found_of, rows_of};
ghost use Rattle.tool_run.specs.Needs.{text_of};
ghost use Rattle.module_tools.specs.declared.told.Told.TheVariants.{Waves};
ghost use Rattle.module_tools.specs.Vlogrun.{events_form, has_lines, line_flags, lines_by, shown_by, told_by, vlogrun_command, vlogrun_task_by, vlogrun_task_for, vlogrun_task_of};

use crate::told::{EventsForm, Told};
use clap::{ArgMatches, Command};
use long_runs::{LineForm, Shown};
use std::alloc::{AllocError, Global};
use tool_inputs::{flag, has_flag, long_flag, long_option, positional, required, value, with};

/// The command line of `vlogrun`.
pub const VLOGRUN_USAGE: &str =
    "vlogrun [--long] [[-s] [--changes | --last] [--head] | --vcd [--names FILE]] MODULE [EVENTS]";

/// The help of `vlogrun`, at most 80 columns wide.
pub const VLOGRUN_HELP: &str = "\
vlogrun: runs a module of the Verilog subset over a list of events.

Usage: vlogrun [--long] [[-s] [--changes | --last] [--head] |
               --vcd [--names FILE]] MODULE [EVENTS]

  MODULE         the text of a module, as icebox_vlog writes it
  EVENTS         the events; standard input if it is missing
  --long         takes the long form of events
  -s             shows the registers too
  --changes      writes a line only where it differs from the one before, with
                 the number of its event
  --last         writes the last line alone
  --head         writes the names of what a line shows before all lines
  --vcd          writes the waves of the run, for a wave viewer, in place of
                 lines
  --names FILE   shows wires by the names of a list, as icebox_vlog writes it

Each line of EVENTS is the name of an input, one space, and 0 or 1: that input
gets that bit. At the start all inputs are 0. Where the bit is the old one
nothing changes. Else all registers whose clock it is, and whose edge, take
their new values at once, from the values before; then wires and outputs follow.
A register that changed may be a clock itself. What it clocks then changes in
the same way, in a further step of the event, and so on, until no clock has its
edge.

With --long a line may also be NAME ~ N: the input gets the other bit N times,
each an event, so clk ~ 10 is five cycles of a clock. Or it is repeat N, with a
line end further below: the lines between them come N times. Repeats may stand
inside one another, at most eight deep. N is from 1 to 4294967295, in up to 20
digits. No line begins with a blank. Memory is taken by the text, and time by
the events.

vlogrun writes a line at the start and one after each event: the bits of the
outputs, in the order of the ports. With -s a space follows, the registers of
one bit, and for each register of 16 bits a space and four hexadecimal digits,
in the order of their declarations. With --changes each line has a number and a
space before it: 0 for the line of the start, which is always written, and k
for that of event k. The line of --last has no number. Lines are written in
pieces of 64 KiB, so those of a quiet run come late.

With --vcd vlogrun writes a value change dump, which GTKWave and other viewers
show: at time 0 the values of all ports, registers and wires at the start, and
at time k those that event k changed. Each event has its time there, also one
that changes nothing, so clk ~ 4294967295 makes more than 60 GB. -s, --changes,
--last and --head aren't taken with it.

Each line of a list of names is the name of a wire, spaces or tabs, and the
name that the waves show for it, of printable ASCII characters. Names that
aren't simple identifiers of Verilog are written as escaped ones.

Examples: vlogrun counter.v counter.events
          vlogrun --vcd counter.v counter.events >counter.vcd
          vlogrun --vcd --names counter.names counter.v counter.events
          vlogrun --long --changes --head counter.v counter.long

Limits: a module has at most 67108864 bytes, a list of names 16777216, a list of
events 1048576.

Exit status: 0 done; 1 the module is refused, with the offset of its first
fault, or the list of names or of events, with its first faulty line, or with
Long if the run would be too long; 2 the command line isn't taken; 3 reading
failed; 4 writing failed; 5 out of memory; 6 an input is longer than its limit.

icestorm --explain CAUSE tells what the cause in a message means.
";

/// What the arguments ask for: what the run tells, the form of the events, the list of names for wires, which is for waves, the module, and
/// the events.
#[derive(Clone, Copy)]
pub(crate) struct Request<'a> {
    pub(crate) told: Told,
    pub(crate) form: EventsForm,
    pub(crate) names: Option<&'a str>,
    pub(crate) module: &'a str,
    pub(crate) events: Option<&'a str>,
}

/// The flags that are for lines only.
#[derive(Clone, Copy)]
pub(crate) struct LineFlags {
    pub(crate) registers: bool,
    pub(crate) changes: bool,
    pub(crate) last: bool,
    pub(crate) head: bool,
}

// What the run tells, by the flags, and by whether there is a list of names. Waves aren't taken with what only lines have, and lines have no
// names of wires.
fn told_by(waves: bool, has_names: bool, flags: LineFlags) -> Option<Told>
    ensures { result ≡ told_by waves has_names flags }
{
    match (waves, has_names) {
        (false, false) => lines_by(flags, shown_by(flags.changes, flags.last)),
        (false, true) => None,
        (true, _) => waves_by(flags),
    }
}

// Lines, if these are shown.
fn lines_by(flags: LineFlags, shown: Option<Shown>) -> Option<Told>
    ensures { result ≡ lines_by flags shown }
{
    let shown = shown?;
    Some(Told::Lines(LineForm {
        shown,
        registers: flags.registers,
        head: flags.head,
    }))
}

// Waves, if nothing is asked for that only lines have.
fn waves_by(flags: LineFlags) -> Option<Told>
    ensures { result ≡ (if has_lines flags then None else Some Waves) }
{
    if flags.registers || flags.changes || flags.last || flags.head {
        None
    } else {
        Some(Told::Waves)
    }
}

/// The lines that are shown, unless both flags are there.
pub(crate) fn shown_by(changes: bool, last: bool) -> Option<Shown>
    ensures { result ≡ shown_by changes last }
{
    match (changes, last) {
        (false, false) => Some(Shown::All),
        (true, false) => Some(Shown::Changes),
        (false, true) => Some(Shown::Last),
        (true, true) => None,
    }
}

/// The form of lists of events.
pub(crate) fn events_form(long: bool) -> EventsForm
    ensures { result ≡ events_form long }
{
    if long {
        EventsForm::Long
    } else {
        EventsForm::Plain
    }
}

// The request, from what was found in the arguments: there must be a module.
fn wanted<'a>(
    told: Option<Told>,
    form: EventsForm,
    names: Option<&'a str>,
    module: Option<&'a str>,
    events: Option<&'a str>,
) -> Option<Request<'a>>
    ensures { vlogrun_task_for result ≡ vlogrun_task_of told form (text_of names.entry) (text_of «module».entry) (text_of events.entry) }
{
    match (told, module) {
        (Some(told), Some(module)) => Some(Request {
            told,
            form,
            names,
            module,
            events,
        }),
        _ => None,
    }
}

/// The command line as `clap` reads it.
pub(crate) fn command<'a>(alloc: Global) -> Result<Command<'a>, AllocError>
    ensures { IfOk result (λ command. app_of command ≡ vlogrun_command) }
{
    let command = Command::new(alloc, "vlogrun");
    let command = with(command, long_flag(alloc, "long"))?;
    let command = with(command, flag(alloc, "registers", 's'))?;
    let command = with(command, long_flag(alloc, "changes"))?;
    let command = with(command, long_flag(alloc, "last"))?;
    let command = with(command, long_flag(alloc, "head"))?;
    let command = with(command, long_flag(alloc, "vcd"))?;
    let command = with(command, long_option(alloc, "names"))?;
    let command = with(command, required(alloc, "module"))?;
    with(command, positional(alloc, "events"))
}

// The flags that are for lines only.
fn line_flags(matches: &ArgMatches<'_>) -> LineFlags
    ensures { result ≡ line_flags (rows_of (found_of matches.now)) }
{
    LineFlags {
        registers: has_flag(matches, "registers"),
        changes: has_flag(matches, "changes"),
        last: has_flag(matches, "last"),
        head: has_flag(matches, "head"),
    }
}

// The request of the arguments, or `None` if they aren't taken.
pub(crate) fn request_in<'a>(matches: &ArgMatches<'a>) -> Option<Request<'a>>
    ensures { vlogrun_task_for result ≡ vlogrun_task_by (rows_of (found_of matches.now)) }
{
    let names = value(matches, "names");
    let told = told_by(
        has_flag(matches, "vcd"),
        names.is_some(),
        line_flags(matches),
    );
    let form = events_form(has_flag(matches, "long"));
    let module = value(matches, "module");
    let events = value(matches, "events");
    wanted(told, form, names, module, events)
}
