// `icesplit`: tells the images of a boot file, or takes one out.
ghost use Rattle.std.specs.Prelude.{◌≡◌, None, Some, map, slice_get, string_bytes, IfOk, IfErr};
ghost use Rattle.clap.specs.Words.{app_of, found_of, rows_of};
ghost use Rattle.boot_file.specs.Meaning.{placed_of};
ghost use Rattle.boot_file.specs.Reading.{boot_read_of};
ghost use Rattle.tool_run.specs.Needs.{text_of};
ghost use Rattle.tool_run.specs.Runs.{Does};
ghost use Rattle.tool_run.specs.Stops.{StopsWith};
ghost use Rattle.tool_run.specs.Tasks.{Done};
ghost use Rattle.bitstream_tools.specs.Split.{extracted, icesplit_command, icesplit_outcome, icesplit_task_by, icesplit_task_for, icesplit_task_of, split_answer};

use crate::boot_lines::listed;
use crate::multi::number_given;
use crate::split_faults::split_stop;
use bin_stream::encode;
use boot_file::{BootImage, split};
use clap::{ArgMatches, Command};
use std::alloc::{AllocError, Global};
use tool_inputs::{
    CommandLine, Words, positional, refusal, required, run_tool, short_option, value, with,
};
use tool_run::{Host, Job, Load, Stop, Tool, decimal, loaded_at, text};

/// The command line of `icesplit`.
pub const ICESPLIT_USAGE: &str = "icesplit [-x N] BOOT [OUTPUT]";

/// The help of `icesplit`, at most 80 columns wide.
pub const ICESPLIT_HELP: &str = "\
icesplit: tells what a boot file has, or takes one bitstream (.bin) out of it.

Usage: icesplit [-x N] BOOT [OUTPUT]

  BOOT      a boot file, as icemulti writes it
  OUTPUT    the lines or the bitstream; standard output if it is missing
  -x N      takes image N out, from 0; without it lines are written

The lines are `cold yes` or `cold no` (whether the pins choose the image at a
cold boot), `power N` (the image that is booted at power-on), and for each image
`image N at ADDRESS device NAME`. Images are counted in the order of the headers
that name them; one that several headers name is one image.

A bitstream is written anew, in the canonical bytes of its configuration.

Example: icesplit -x 1 boot.bin update.bin

Limits: a boot file has at most 67108864 bytes, N has at most 3 digits.

Exit status: 0 done; 1 the boot file is refused, or it has no image N; 2 the
command line isn't taken; 3 reading failed; 4 writing failed; 5 out of memory; 6
the boot file is longer than its limit.

icestorm --explain CAUSE tells what the cause in a message means.
";

/// The most bytes that a boot file may have.
const BOOT_LIMIT: usize = 67_108_864;

/// Tells what is in the boot file that it loads, or takes an image out of it.
#[derive(Clone, Copy, Debug, PartialEq, Eq)]
pub(crate) struct Splitting {
    pub(crate) wanted: Option<u32>,
}

impl Tool for Splitting {
    ghost use Rattle.bitstream_tools.specs.Split.{icesplit_answer};

    ghost answer_of = { λ tool texts. icesplit_answer tool.wanted texts };

    type Made = Vec<u8>;

    fn answer(&self, alloc: Global, loaded: &Vec<Vec<u8>>) -> Result<Vec<u8>, Stop<'_>> {
        split_bytes(alloc, loaded_at(loaded, 0), self.wanted)
    }
}

// The lines of a boot file, or the bitstream of the wanted image.
fn split_bytes(alloc: Global, bytes: &[u8], wanted: Option<u32>) -> Result<Vec<u8>, Stop<'static>>
    ensures bytes { IfOk result (λ answer. split_answer wanted (boot_read_of bytes.now) ≡ Done answer.items) }
    ensures stops { IfErr result (StopsWith (split_answer wanted (boot_read_of bytes.now))) }
{
    match split(alloc, bytes) {
        Ok(file) => match wanted {
            Some(index) => image_bytes(alloc, file.images.as_slice(), index),
            None => Ok(listed(alloc, &file)?),
        },
        Err(fault) => Err(split_stop(fault)),
    }
}

// The canonical bytes of the image of that number, or a refusal if there is none.
fn image_bytes(alloc: Global, images: &[BootImage], index: u32) -> Result<Vec<u8>, Stop<'static>>
    ensures bytes { IfOk result (λ bytes. extracted index (slice_get (map placed_of images.now) index) ≡ Done bytes.items) }
    ensures stops { IfErr result (StopsWith (extracted index (slice_get (map placed_of images.now) index))) }
{
    if (index as usize) < images.len() {
        Ok(encode(alloc, &images[index as usize].image)?)
    } else {
        Err(Stop::Refused(refusal(decimal("NoImage ", u64::from(index)), text(""))))
    }
}

// What the arguments ask for: the number of an image if one is wanted, the boot file, and the target.
#[derive(Clone, Copy)]
pub(crate) struct SplitRequest<'a> {
    wanted: Option<u32>,
    boot: &'a str,
    output: Option<&'a str>,
}

// The request, from what was found in the arguments: the number, if it is there, must be one, and there must be a boot file.
fn request_of<'a>(
    wanted: Option<Option<u32>>,
    boot: Option<&'a str>,
    output: Option<&'a str>,
) -> Option<SplitRequest<'a>>
    ensures { icesplit_task_for result ≡ icesplit_task_of wanted (text_of boot.entry) (text_of output.entry) }
{
    match (wanted, boot) {
        (Some(wanted), Some(boot)) => Some(SplitRequest {
            wanted,
            boot,
            output,
        }),
        _ => None,
    }
}

// The command line as `clap` reads it.
fn command<'a>(alloc: Global) -> Result<Command<'a>, AllocError>
    ensures { IfOk result (λ command. app_of command ≡ icesplit_command) }
{
    let command = Command::new(alloc, "icesplit");
    let command = with(command, short_option(alloc, "image", 'x'))?;
    let command = with(command, required(alloc, "boot"))?;
    with(command, positional(alloc, "output"))
}

// The request of the arguments, or `None` if they aren't taken.
fn request_in<'a>(matches: &ArgMatches<'a>) -> Option<SplitRequest<'a>>
    ensures { icesplit_task_for result ≡ icesplit_task_by (rows_of (found_of matches.now)) }
{
    let wanted = number_given(value(matches, "image"));
    let boot = value(matches, "boot");
    let output = value(matches, "output");
    request_of(wanted, boot, output)
}

// Does a request.
fn split_file<H: Host>(alloc: Global, request: SplitRequest<'_>, host: &mut H) -> u8
    ensures { Does H.outside (icesplit_task_for (Some request.entry)) result (H.scene host.old) (H.scene host.new) }
{
    let loads = [Load {
        name: Some(request.boot),
        limit: BOOT_LIMIT,
    }];
    let tool = Splitting {
        wanted: request.wanted,
    };
    let job = Job {
        tool_name: "icesplit",
        loads: &loads,
        target: request.output,
    };
    host.perform(alloc, &tool, &job)
}

/// `icesplit` by its command line.
#[derive(Clone, Copy, Debug, PartialEq, Eq)]
pub(crate) struct Icesplit;

impl CommandLine for Icesplit {
    ghost use Rattle.bitstream_tools.specs.Split.{icesplit};
    ghost use Rattle.bitstream_tools.specs.SplitLaws.{icesplit-simple, icesplit-speaks};

    ghost manual = { icesplit };

    fn words(&self) -> Words {
        Words {
            name: "icesplit",
            usage: ICESPLIT_USAGE,
            help: ICESPLIT_HELP,
        }
    }

    fn command<'a>(&self, alloc: Global) -> Result<Command<'a>, AllocError> {
        command(alloc)
    }

    fn perform<H: Host>(
        &self,
        alloc: Global,
        matches: &ArgMatches<'_>,
        host: &mut H,
    ) -> Option<u8> {
        let request = request_in(matches)?;
        Some(split_file(alloc, request, host))
    }

    ghost simple = { icesplit-simple };

    ghost speaks = { icesplit-speaks };
}

/// Runs `icesplit` with these arguments, the first of which is its name, and answers the exit status.
pub fn run_icesplit<H: Host>(alloc: Global, args: &[String], host: &mut H) -> u8
    ensures { Does H.outside (icesplit_outcome (map string_bytes args.now)) result (H.scene host.old) (H.scene host.new) }
{
    run_tool(alloc, &Icesplit, args, host)
}
