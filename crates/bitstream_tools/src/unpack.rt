// `iceunpack`, and `icepack -u`, which does the same: unpacks a bitstream to a text.
ghost use Rattle.std.specs.Prelude.{◌≡◌, codes, map, string_bytes, IfOk};
ghost use Rattle.clap.specs.Words.{app_of, first_of, found_of, rows_of};
ghost use Rattle.tool_run.specs.Runs.{Does};
ghost use Rattle.tool_run.specs.Needs.{text_of};
ghost use Rattle.bitstream_tools.specs.Unpack.{iceunpack_command, iceunpack_outcome, unpack_task};

use crate::reading::First;
use crate::unpacking::{Unpacked, unpacked_text};
use bin_stream::Decoder;
use clap::{ArgMatches, Command};
use std::alloc::{AllocError, Global};
use tool_inputs::{
    CommandLine, Words, layouts_for, long_option, positional, run_tool, value, with,
};
use tool_run::{Host, Job, Load, PieceTool, Stop};

/// The command line of `iceunpack`.
pub const ICEUNPACK_USAGE: &str = "iceunpack [--layout FILE] [INPUT [OUTPUT]]";

/// The help of `iceunpack`, at most 80 columns wide.
pub const ICEUNPACK_HELP: &str = "\
iceunpack: unpacks a bitstream (.bin) of an iCE40 to a text (.asc).

Usage: iceunpack [--layout FILE] [INPUT [OUTPUT]]

  INPUT     the bitstream of an LP384, HX1K or HX8K; standard input if it is
            missing
  OUTPUT    the text; standard output if it is missing
  --layout FILE
            the layout file; the standard layout if it is missing

The standard layout isn't that of chips at two kinds of places: io tiles in the
right half of the top and bottom row, and contents of RAMs in the top half. For
chips give layouts/silicon.layout, which the installed iceunpack does by
itself.

Example: iceunpack --layout silicon.layout blink.bin blink.asc

Limits: a bitstream has at most 4194304 bytes, FILE 65536.

Exit status: 0 done; 1 FILE or the input is refused, with its first faulty line
or the offset of its first fault; 2 the command line isn't taken; 3 reading
failed; 4 writing failed; 5 out of memory; 6 FILE or the input is longer than
its limit.

icestorm --explain CAUSE tells what the cause in a message means.
";

/// The most bytes that a bitstream may have.
pub(crate) const STREAM_LIMIT: usize = 4_194_304;

/// Unpacks the bitstream that it takes, under the layouts of a layout file if one is named.
#[derive(Clone, Copy, Debug, PartialEq, Eq)]
pub(crate) struct Unpack;

impl PieceTool for Unpack {
    ghost use Rattle.bin_stream.specs.Decoding.{StandsFor, fed_to};
    ghost use Rattle.bitstream_tools.specs.Reading.{TakesFirst, fed_first};
    ghost use Rattle.bitstream_tools.specs.Unpack.{unpack_answer};

    type Intake = First<Decoder>;

    type Made = Unpacked;

    ghost answer_of = { λ tool layout texts. unpack_answer layout texts };

    ghost takes = { λ tool layout texts intake bytes. TakesFirst StandsFor layout texts intake bytes };

    ghost fed = { fed_first fed_to };

    fn begin(&self, alloc: Global, layout: Option<&[u8]>) -> Result<First<Decoder>, Stop<'static>> {
        match layouts_for(layout) {
            Ok(layouts) => Ok(First {
                reader: Decoder::with(alloc, layouts),
                is_open: true,
            }),
            Err(stop) => Err(stop),
        }
    }

    fn feed(&self, intake: &mut First<Decoder>, piece: &[u8]) {
        if intake.is_open {
            // The decoder keeps what it refuses.
            let _ = intake.reader.feed(piece);
        }
    }

    fn close(&self, intake: &mut First<Decoder>) {
        intake.is_open = false;
    }

    fn finish(&self, alloc: Global, intake: First<Decoder>) -> Result<Unpacked, Stop<'_>> {
        unpacked_text(alloc, intake.reader)
    }
}

// The file names that the arguments give.
#[derive(Clone, Copy)]
pub(crate) struct FileNames<'a> {
    pub(crate) layout: Option<&'a str>,
    pub(crate) input: Option<&'a str>,
    pub(crate) output: Option<&'a str>,
}

/// The file names that were found in the arguments.
pub(crate) fn names_in<'a>(matches: &ArgMatches<'a>) -> FileNames<'a>
    ensures layout { text_of result.layout ≡ first_of (codes "layout") (rows_of (found_of matches.now)) }
    ensures input { text_of result.input ≡ first_of (codes "input") (rows_of (found_of matches.now)) }
    ensures output { text_of result.output ≡ first_of (codes "output") (rows_of (found_of matches.now)) }
{
    FileNames {
        layout: value(matches, "layout"),
        input: value(matches, "input"),
        output: value(matches, "output"),
    }
}

// The command line as `clap` reads it.
fn command<'a>(alloc: Global) -> Result<Command<'a>, AllocError>
    ensures { IfOk result (λ command. app_of command ≡ iceunpack_command) }
{
    let command = Command::new(alloc, "iceunpack");
    let command = with(command, long_option(alloc, "layout"))?;
    let command = with(command, positional(alloc, "input"))?;
    with(command, positional(alloc, "output"))
}

/// Unpacks from a file or standard input to a file or standard output.
pub(crate) fn unpack_between<H: Host>(
    alloc: Global,
    tool_name: &'static str,
    names: FileNames<'_>,
    host: &mut H,
) -> u8
    ensures { Does H.outside (unpack_task tool_name.now (text_of names.entry.layout) (text_of names.entry.input) (text_of names.entry.output)) result (H.scene host.old) (H.scene host.new) }
{
    let loads = [Load {
        name: names.input,
        limit: STREAM_LIMIT,
    }];
    let job = Job {
        tool_name,
        loads: &loads,
        target: names.output,
    };
    host.perform_in_pieces(alloc, &Unpack, names.layout, &job)
}

/// `iceunpack` by its command line.
#[derive(Clone, Copy, Debug, PartialEq, Eq)]
pub(crate) struct Iceunpack;

impl CommandLine for Iceunpack {
    ghost use Rattle.bitstream_tools.specs.Unpack.{iceunpack};
    ghost use Rattle.bitstream_tools.specs.Laws.{iceunpack-simple, iceunpack-speaks};

    ghost manual = { iceunpack };

    fn words(&self) -> Words {
        Words {
            name: "iceunpack",
            usage: ICEUNPACK_USAGE,
            help: ICEUNPACK_HELP,
        }
    }

    fn command<'a>(&self, alloc: Global) -> Result<Command<'a>, AllocError> {
        command(alloc)
    }

    fn perform<H: Host>(
        &self,
        alloc: Global,
        matches: &ArgMatches<'_>,
        host: &mut H,
    ) -> Option<u8> {
        let names = names_in(matches);
        Some(unpack_between(alloc, "iceunpack", names, host))
    }

    ghost simple = { iceunpack-simple };

    ghost speaks = { iceunpack-speaks };
}

/// Runs `iceunpack` with these arguments, the first of which is its name, and answers the exit status.
pub fn run_iceunpack<H: Host>(alloc: Global, args: &[String], host: &mut H) -> u8
    ensures { Does H.outside (iceunpack_outcome (map string_bytes args.now)) result (H.scene host.old) (H.scene host.new) }
{
    run_tool(alloc, &Iceunpack, args, host)
}
