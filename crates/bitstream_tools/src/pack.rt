// `icepack`: packs a text into a bitstream.
ghost use Rattle.std.specs.Prelude.{◌≡◌, Some, map, string_bytes, IfOk};
ghost use Rattle.clap.specs.Words.{app_of, found_of, rows_of};
ghost use Rattle.tool_run.specs.Needs.{text_of};
ghost use Rattle.tool_run.specs.Runs.{Does};
ghost use Rattle.bitstream_tools.specs.Pack.{icepack_command, icepack_outcome, icepack_task_by, icepack_task_for, icepack_task_of, pack_task};

use crate::packing::packed;
use crate::reading::First;
use crate::unpack::{FileNames, names_in, unpack_between};
use asc_text::AscReader;
use clap::{ArgMatches, Command};
use std::alloc::{AllocError, Global};
use tool_inputs::{
    CommandLine, Words, flag, has_flag, layouts_for, long_option, positional, run_tool, with,
};
use tool_run::{Host, Job, Load, PieceTool, Stop};

/// The most bytes that a text may have.
pub(crate) const TEXT_LIMIT: usize = 16_777_216;

/// The command line of `icepack`.
pub const ICEPACK_USAGE: &str = "icepack [-u] [-s] [--layout FILE] [INPUT [OUTPUT]]";

/// The help of `icepack`, at most 80 columns wide.
pub const ICEPACK_HELP: &str = "\
icepack: packs a text (.asc) into a bitstream (.bin) for an iCE40.

Usage: icepack [-u] [-s] [--layout FILE] [INPUT [OUTPUT]]

  INPUT     the text of an LP384, HX1K or HX8K; standard input if it is missing
  OUTPUT    the bitstream; standard output if it is missing
  -s        sets the flag that keeps the flash awake after the configuration
  -u        unpacks instead, as iceunpack does; not together with -s
  --layout FILE
            the layout file; the standard layout if it is missing

The standard layout isn't that of chips at two kinds of places: io tiles in the
right half of the top and bottom row, and contents of RAMs in the top half. For
chips give layouts/silicon.layout, which the installed icepack does by
itself.

Example: icepack --layout silicon.layout blink.asc blink.bin

Limits: a text has at most 16777216 bytes, a bitstream 4194304, FILE 65536.

Exit status: 0 done; 1 FILE or the input is refused, with its first faulty line
or the offset of its first fault; 2 the command line isn't taken; 3 reading
failed; 4 writing failed; 5 out of memory; 6 FILE or the input is longer than
its limit.

icestorm --explain CAUSE tells what the cause in a message means.
";

/// Packs the text that it takes, under the layouts of a layout file if one is named. If `no_sleep` is true, the flash stays awake,
/// whatever the text says.
#[derive(Clone, Copy, Debug, PartialEq, Eq)]
pub(crate) struct Pack {
    pub(crate) no_sleep: bool,
}

impl PieceTool for Pack {
    ghost use Rattle.asc_text.specs.Feeding.{StandsFor, fed_to};
    ghost use Rattle.bitstream_tools.specs.Pack.{pack_answer};
    ghost use Rattle.bitstream_tools.specs.Reading.{TakesFirst, fed_first};

    type Intake = First<AscReader>;

    type Made = Vec<u8>;

    ghost answer_of = { λ tool layout texts. pack_answer tool.no_sleep layout texts };

    ghost takes = { λ tool layout texts intake bytes. TakesFirst StandsFor layout texts intake bytes };

    ghost fed = { fed_first fed_to };

    fn begin(
        &self,
        alloc: Global,
        layout: Option<&[u8]>,
    ) -> Result<First<AscReader>, Stop<'static>> {
        match layouts_for(layout) {
            Ok(layouts) => Ok(First {
                reader: AscReader::with(alloc, layouts),
                is_open: true,
            }),
            Err(stop) => Err(stop),
        }
    }

    fn feed(&self, intake: &mut First<AscReader>, piece: &[u8]) {
        if intake.is_open {
            // The reader keeps what it refuses.
            let _ = intake.reader.feed(piece);
        }
    }

    fn close(&self, intake: &mut First<AscReader>) {
        intake.is_open = false;
    }

    fn finish(&self, alloc: Global, intake: First<AscReader>) -> Result<Vec<u8>, Stop<'_>> {
        packed(alloc, self.no_sleep, intake.reader)
    }
}

// What the arguments ask for, if they are taken: to pack, or to unpack.
#[derive(Clone, Copy)]
pub(crate) enum Request<'a> {
    Pack {
        no_sleep: bool,
        names: FileNames<'a>,
    },
    Unpack(FileNames<'a>),
}

// The command line as `clap` reads it.
fn command<'a>(alloc: Global) -> Result<Command<'a>, AllocError>
    ensures { IfOk result (λ command. app_of command ≡ icepack_command) }
{
    let command = Command::new(alloc, "icepack");
    let command = with(command, flag(alloc, "unpack", 'u'))?;
    let command = with(command, flag(alloc, "no_sleep", 's'))?;
    let command = with(command, long_option(alloc, "layout"))?;
    let command = with(command, positional(alloc, "input"))?;
    with(command, positional(alloc, "output"))
}

// The request, from what was found in the arguments. With `-u` it is to unpack, and then `-s` may not be there.
fn wanted<'a>(unpacks: bool, no_sleep: bool, names: FileNames<'a>) -> Option<Request<'a>>
    ensures { icepack_task_for result ≡ icepack_task_of unpacks no_sleep (text_of names.entry.layout) (text_of names.entry.input) (text_of names.entry.output) }
{
    match (unpacks, no_sleep) {
        (false, no_sleep) => Some(Request::Pack { no_sleep, names }),
        (true, false) => Some(Request::Unpack(names)),
        (true, true) => None,
    }
}

// The request of the arguments, or `None` if they aren't taken.
fn request_in<'a>(matches: &ArgMatches<'a>) -> Option<Request<'a>>
    ensures { icepack_task_for result ≡ icepack_task_by (rows_of (found_of matches.now)) }
{
    let unpacks = has_flag(matches, "unpack");
    let no_sleep = has_flag(matches, "no_sleep");
    let names = names_in(matches);
    wanted(unpacks, no_sleep, names)
}

// Packs from a file or standard input to a file or standard output.
fn pack_between<H: Host>(alloc: Global, no_sleep: bool, names: FileNames<'_>, host: &mut H) -> u8
    ensures { Does H.outside (pack_task no_sleep (text_of names.entry.layout) (text_of names.entry.input) (text_of names.entry.output)) result (H.scene host.old) (H.scene host.new) }
{
    let loads = [Load {
        name: names.input,
        limit: TEXT_LIMIT,
    }];
    let job = Job {
        tool_name: "icepack",
        loads: &loads,
        target: names.output,
    };
    host.perform_in_pieces(alloc, &Pack { no_sleep }, names.layout, &job)
}

// Does what the arguments ask for.
fn do_request<H: Host>(alloc: Global, request: Request<'_>, host: &mut H) -> u8
    ensures { Does H.outside (icepack_task_for (Some request.entry)) result (H.scene host.old) (H.scene host.new) }
{
    match request {
        Request::Pack { no_sleep, names } => pack_between(alloc, no_sleep, names, host),
        Request::Unpack(names) => unpack_between(alloc, "icepack", names, host),
    }
}

/// `icepack` by its command line.
#[derive(Clone, Copy, Debug, PartialEq, Eq)]
pub(crate) struct Icepack;

impl CommandLine for Icepack {
    ghost use Rattle.bitstream_tools.specs.Pack.{icepack};
    ghost use Rattle.bitstream_tools.specs.Laws.{icepack-simple, icepack-speaks};

    ghost manual = { icepack };

    fn words(&self) -> Words {
        Words {
            name: "icepack",
            usage: ICEPACK_USAGE,
            help: ICEPACK_HELP,
        }
    }

    fn command<'a>(&self, alloc: Global) -> Result<Command<'a>, AllocError> {
        command(alloc)
    }

    fn perform<H: Host>(
        &self,
        alloc: Global,
        matches: &ArgMatches<'_>,
        host: &mut H,
    ) -> Option<u8> {
        let request = request_in(matches)?;
        Some(do_request(alloc, request, host))
    }

    ghost simple = { icepack-simple };

    ghost speaks = { icepack-speaks };
}

/// Runs `icepack` with these arguments, the first of which is its name, and answers the exit status: 0 if all was done, and else as
/// `ICEPACK_HELP` says.
///
/// # Example
/// ```ignore
/// // Packs blink.asc into blink.bin. `rt` is the `HostRuntime` that `main` is given.
/// let mut host = FilesAndStreams {
///     files: DirFiles::new(&rt),
///     input: StdSource::new(rt.stdin()),
///     output: StdSink::new(rt.stdout()),
///     errors: StdSink::new(rt.stderr()),
/// };
/// let mut args = Vec::new(rt.alloc());
/// for word in ["icepack", "blink.asc", "blink.bin"] {
///     args.push(String::from_str(rt.alloc(), word)?)?;
/// }
/// let status = run_icepack(rt.alloc(), &args, &mut host);
/// ```
pub fn run_icepack<H: Host>(alloc: Global, args: &[String], host: &mut H) -> u8
    ensures { Does H.outside (icepack_outcome (map string_bytes args.now)) result (H.scene host.old) (H.scene host.new) }
{
    run_tool(alloc, &Icepack, args, host)
}
