// `icemulti`: joins several bitstreams to one boot file.
ghost use Rattle.std.specs.Prelude.{◌≡◌, ◌<◌, ◌≤◌, None, Some, codes, length, map, string_bytes, IfOk};
ghost use Rattle.clap.specs.Words.{app_of, found_of, rows_of};
ghost use Rattle.boot_file.specs.Refusals.{check_fault};
ghost use Rattle.tool_run.specs.Needs.{text_of};
ghost use Rattle.tool_run.specs.Runs.{Does};
ghost use Rattle.tool_inputs.specs.Commands.{values_of};
ghost use Rattle.bitstream_tools.specs.Multi.{aligned_by, icemulti_command, icemulti_outcome, icemulti_task_by, icemulti_task_for, number_given, options_by, options_in, powered_by, short_number};

use crate::faults::multi_refusal;
use crate::stored::planned;
use boot_file::{MultiFault, Options, check, join};
use clap::{ArgMatches, Command};
use std::alloc::{AllocError, Global};
use text_lines::number;
use tool_inputs::{
    CommandLine, Words, flag, has_flag, long_flag, run_tool, several, short_option, value, values,
    with,
};
use tool_run::{AtOnce, Host, Job, Stop, Tool};

/// The command line of `icemulti`.
pub const ICEMULTI_USAGE: &str =
    "icemulti [--as-stock] [-c] [-p N] [-a N] [-A N] [-o OUTPUT] [IMAGE ...]";

/// The help of `icemulti`, at most 80 columns wide.
pub const ICEMULTI_HELP: &str = "\
icemulti: joins up to four bitstreams (.bin) to one boot file.

Usage: icemulti [--as-stock] [-c] [-p N] [-a N] [-A N] [-o OUTPUT] [IMAGE ...]

  IMAGE      a bitstream; one to four of them, in the order of their headers
  --as-stock the stock tool's file: a header without an image boots the one of
             power-on, not image 0, and a file named again is stored once
  -c         at a cold boot the pins choose the image
  -p N       the image that is booted at power-on, from 0; 0 if it is missing;
             with -c it may only be 0
  -a N       images except the first stand at multiples of 2 to the power of N
  -A N       all images do; not together with -a
  -o OUTPUT  the boot file; standard output if it is missing

Example: icemulti -p0 -A 16 -o boot.bin golden.bin update.bin

Limits: an image has at most 16777216 bytes, N at most 24, and an image stands
below 2 to the power of 24.

Exit status: 0 done; 1 the images or options are refused; 2 the command line
isn't taken; 3 reading failed; 4 writing failed; 5 out of memory; 6 an image is
longer than its limit.

icestorm --explain CAUSE tells what the cause in a message means.
";

/// Joins the images that it loads.
#[derive(Clone, Copy, Debug, PartialEq, Eq)]
pub(crate) struct Joining {
    pub(crate) options: Options,
}

impl Tool for Joining {
    ghost use Rattle.bitstream_tools.specs.Multi.{join_answer};

    ghost answer_of = { λ tool images. join_answer tool.options images };

    type Made = Vec<u8>;

    fn answer(&self, alloc: Global, loaded: &Vec<Vec<u8>>) -> Result<Vec<u8>, Stop<'_>> {
        match join(alloc, loaded, self.options) {
            Ok(file) => Ok(file),
            Err(MultiFault::Memory(_)) => Err(Stop::Memory),
            Err(fault) => Err(Stop::Refused(multi_refusal(fault))),
        }
    }
}

// The number that one to three decimal digits write.
#[tactic(auto, unfolding(crate::specs::Multi::short_number))]
fn short_number(text: &str) -> Option<u32>
    ensures { result ≡ short_number text.now }
{
    if text.len() <= 3 {
        number(text.as_bytes())
    } else {
        None
    }
}

/// The number of an option that may be missing (`Some(None)`). `None` if the value isn't one to three decimal digits.
pub(crate) fn number_given(text: Option<&str>) -> Option<Option<u32>>
    ensures { result ≡ number_given (text_of text.entry) }
{
    match text {
        None => Some(None),
        Some(text) => match short_number(text) {
            Some(number) => Some(Some(number)),
            None => None,
        },
    }
}

// The options except the alignment. `-p` chooses the image at power-on; with `-c` the pins choose it, and `-p` may only be 0. Each image
// has its own header, in their order.
fn powered_by(cold: bool, power_on: Option<Option<u32>>) -> Option<Options>
    ensures { result ≡ powered_by cold power_on }
{
    let power_on = match power_on {
        None => return None,
        Some(None) => 0,
        Some(Some(number)) => {
            if cold && number != 0 {
                return None;
            }
            number
        }
    };
    Some(Options {
        cold,
        power_on,
        entries: [0, 1, 2, 3],
        align: None,
        align_first: false,
    })
}

// The options with the alignment: `-a` aligns all images except the first, `-A` the first too. Both together aren't taken.
fn aligned_by(
    options: Options,
    align: Option<Option<u32>>,
    all: Option<Option<u32>>,
) -> Option<Options>
    ensures { result ≡ aligned_by options align all }
{
    match (align, all) {
        (Some(None), Some(None)) => Some(options),
        (Some(Some(n)), Some(None)) => Some(Options {
            align: Some(n),
            ..options
        }),
        (Some(None), Some(Some(n))) => Some(Options {
            align: Some(n),
            align_first: true,
            ..options
        }),
        _ => None,
    }
}

// The options with power-on and alignment.
fn options_by(
    powered: Option<Options>,
    align: Option<Option<u32>>,
    all: Option<Option<u32>>,
) -> Option<Options>
    ensures { result ≡ options_by powered align all }
{
    match powered {
        None => None,
        Some(options) => aligned_by(options, align, all),
    }
}

// What the arguments ask for.
#[derive(Clone, Copy)]
pub(crate) struct MultiRequest<'m, 'a> {
    as_stock: bool,
    names: &'m [&'a str],
    options: Options,
    output: Option<&'a str>,
}

// The command line as `clap` reads it.
fn command<'a>(alloc: Global) -> Result<Command<'a>, AllocError>
    ensures { IfOk result (λ command. app_of command ≡ icemulti_command) }
{
    let command = Command::new(alloc, "icemulti");
    let command = with(command, long_flag(alloc, "as-stock"))?;
    let command = with(command, flag(alloc, "cold", 'c'))?;
    let command = with(command, short_option(alloc, "power_on", 'p'))?;
    let command = with(command, short_option(alloc, "align", 'a'))?;
    let command = with(command, short_option(alloc, "align_all", 'A'))?;
    let command = with(command, short_option(alloc, "output", 'o'))?;
    with(command, several(alloc, "image"))
}

// The options that were found.
fn options_in(matches: &ArgMatches<'_>) -> Option<Options>
    ensures { result ≡ options_in (rows_of (found_of matches.now)) }
{
    let powered = powered_by(
        has_flag(matches, "cold"),
        number_given(value(matches, "power_on")),
    );
    let align = number_given(value(matches, "align"));
    let all = number_given(value(matches, "align_all"));
    options_by(powered, align, all)
}

// The names of the images that were found.
fn names_in<'m, 'a>(matches: &'m ArgMatches<'a>) -> &'m [&'a str]
    ensures { map (λ name. name.now) result.now ≡ values_of (codes "image") (rows_of (found_of matches.now)) }
{
    values(matches, "image").unwrap_or_default()
}

// The request of the arguments, or `None` if they aren't taken.
fn request_in<'m, 'a>(matches: &'m ArgMatches<'a>) -> Option<MultiRequest<'m, 'a>>
    ensures { icemulti_task_for result ≡ icemulti_task_by (rows_of (found_of matches.now)) }
{
    let as_stock = has_flag(matches, "as-stock");
    let names = names_in(matches);
    let output = value(matches, "output");
    match options_in(matches) {
        Some(options) => Some(MultiRequest {
            as_stock,
            names,
            options,
            output,
        }),
        None => None,
    }
}

// Does a request. If the number of images or the options alone are a fault, it is refused before anything is loaded.
fn join_images<H: Host>(alloc: Global, request: MultiRequest<'_, '_>, host: &mut H) -> u8
    ensures { Does H.outside (icemulti_task_for (Some request.entry)) result (H.scene host.old) (H.scene host.new) }
{
    match check(request.names.len(), request.options) {
        Ok(()) => join_checked(alloc, request, host),
        Err(fault) => {
            let answer = AtOnce::Refuses(multi_refusal(fault));
            host.answer_at_once(alloc, "icemulti", answer)
        }
    }
}

// Does a request in whose number of images and options is no fault.
fn join_checked<H: Host>(alloc: Global, request: MultiRequest<'_, '_>, host: &mut H) -> u8
    requires accepted { check_fault (length request.names.now) request.options ≡ None }
    requires few { length request.names.now ≤ 4 }
    requires power_on { request.options.power_on < length request.names.now }
    ensures { Does H.outside (icemulti_task_for (Some request.entry)) result (H.scene host.old) (H.scene host.new) }
{
    let tool_name = "icemulti";
    match planned(alloc, request.as_stock, request.names, request.options) {
        Ok(plan) => {
            let tool = Joining {
                options: plan.options,
            };
            let job = Job {
                tool_name,
                loads: plan.loads.as_slice(),
                target: request.output,
            };
            host.perform(alloc, &tool, &job)
        }
        Err(AllocError) => host.give_up(tool_name),
    }
}

/// `icemulti` by its command line.
#[derive(Clone, Copy, Debug, PartialEq, Eq)]
pub(crate) struct Icemulti;

impl CommandLine for Icemulti {
    ghost use Rattle.bitstream_tools.specs.Multi.{icemulti};
    ghost use Rattle.bitstream_tools.specs.Laws.{icemulti-simple, icemulti-speaks};

    ghost manual = { icemulti };

    fn words(&self) -> Words {
        Words {
            name: "icemulti",
            usage: ICEMULTI_USAGE,
            help: ICEMULTI_HELP,
        }
    }

    fn command<'a>(&self, alloc: Global) -> Result<Command<'a>, AllocError> {
        command(alloc)
    }

    fn perform<H: Host>(
        &self,
        alloc: Global,
        matches: &ArgMatches<'_>,
        host: &mut H,
    ) -> Option<u8> {
        let request = request_in(matches)?;
        Some(join_images(alloc, request, host))
    }

    ghost simple = { icemulti-simple };

    ghost speaks = { icemulti-speaks };
}

/// Runs `icemulti` with these arguments, the first of which is its name, and answers the exit status.
pub fn run_icemulti<H: Host>(alloc: Global, args: &[String], host: &mut H) -> u8
    ensures { Does H.outside (icemulti_outcome (map string_bytes args.now)) result (H.scene host.old) (H.scene host.new) }
{
    run_tool(alloc, &Icemulti, args, host)
}
