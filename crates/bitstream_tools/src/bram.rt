// `icebram`: replaces the contents of RAMs in a text, or writes random words.
ghost use Rattle.std.specs.Prelude.{◌≡◌, None, Some, map, option_map, string_bytes, IfOk, OnOk, IfErr};
ghost use Rattle.clap.specs.Words.{app_of, found_of, rows_of};
ghost use Rattle.text_lines.specs.Lines.{lines_of};
ghost use Rattle.bram_replace.specs.HexText.{contents_of, hex_fault_of};
ghost use Rattle.bram_replace.specs.ReadModes.{modes_in};
ghost use Rattle.bram_replace.specs.Replaced.{bram_fault, replaced};
ghost use Rattle.tool_run.specs.Needs.{text_of};
ghost use Rattle.tool_run.specs.Runs.{Does};
ghost use Rattle.tool_run.specs.Stops.{StopsWith};
ghost use Rattle.tool_run.specs.Tasks.{Done};
ghost use Rattle.bitstream_tools.specs.Bram.{TellsWhy, generate_task_for, icebram_command, icebram_outcome, icebram_task_by, icebram_task_for, icebram_task_of, modes_wanted, replace_task_for, replace_task_of, replaced_answer};
ghost use Rattle.bitstream_tools.specs.Faults.{bram_fault_text, hex_fault_text};

use crate::faults::{bram_refusal, hex_refusal};
use crate::pack::TEXT_LIMIT;
use crate::random::{Generating, words_wanted};
use bram_replace::{BramFault, HexFault, HexFile, ReadModes, replace_with};
use clap::{ArgMatches, Command};
use std::alloc::{AllocError, Global};
use tool_inputs::{
    CommandLine, Words, flag, has_flag, long_flag, required, run_tool, short_option, value, with,
};
use tool_run::{Host, Job, Load, Stop, Tool, loaded_at};

/// The command line of `icebram`.
pub const ICEBRAM_USAGE: &str = "icebram [--by-mode] FROM TO | icebram -g [-s SEED] WIDTH DEPTH";

/// The help of `icebram`, at most 80 columns wide.
pub const ICEBRAM_HELP: &str = "\
icebram: replaces the contents of RAMs in a text (.asc), without a new routing.

Usage: icebram [--by-mode] FROM TO <INPUT >OUTPUT
       icebram -g [-s SEED] WIDTH DEPTH >FROM

  --by-mode takes each RAM in its read mode, in place of 256 words of 16 bits
  FROM      the contents with which the design was made
  TO        the contents that take their place
  INPUT     the text, on standard input
  OUTPUT    the text with the new contents, on standard output
  -g        writes random words for a design, to be FROM
  -s SEED   a number below 2 to the power of 64; 1 if it is missing
  WIDTH     how many bits a word has: 4 to 256, a multiple of 4
  DEPTH     how many words there are: 256 to 65536, a multiple of 256

FROM and TO are files of words in hexadecimal digits, as $readmemh reads them,
without addresses. All words of both files have the same number of digits, and
both files have the same number of words, a multiple of 256. Write a zero for
each unused word: a file that ends early is refused. No two columns of FROM may
be equal, so fill it with random words (each bit of 256 words is a column). What
-g writes is always taken as FROM, and equal numbers give equal words.

Each bit column of a RAM in the text that is equal to a column of FROM becomes
the same column of TO. Where none is equal, nothing changes: the output is the
input, and the exit status is still 0.

yosys takes RAMs of a narrow mode (512 words of 8 bits, 1024 of 4, 2048 of 2)
for a memory of more than 256 words. They keep their words in another order, and
only with --by-mode they are found: then each 256 words of such a RAM have a
column for each bit. With -g it changes nothing.

Examples: icebram -g 16 256 >random.hex
          icebram --by-mode random.hex firmware.hex <routed.asc >loaded.asc

Limits: FROM, TO and INPUT have at most 16777216 bytes each, a word at most 64
digits.

Exit status: 0 done; 1 FROM, TO or the text is refused; 2 the command line isn't
taken; 3 reading failed; 4 writing failed; 5 out of memory; 6 an input is longer
than its limit.

icestorm --explain CAUSE tells what the cause in a message means.
";

/// Replaces the contents of RAMs in a text, from the two files of words that it loads first.
#[derive(Clone, Copy, Debug, PartialEq, Eq)]
pub(crate) struct Replacing {
    modes: ReadModes,
}

impl Tool for Replacing {
    ghost use Rattle.bitstream_tools.specs.Bram.{icebram_answer};

    ghost answer_of = { λ tool texts. icebram_answer tool.modes texts };

    type Made = Vec<u8>;

    fn answer(&self, alloc: Global, loaded: &Vec<Vec<u8>>) -> Result<Vec<u8>, Stop<'_>> {
        replaced_by(
            alloc,
            self.modes,
            loaded_at(loaded, 0),
            loaded_at(loaded, 1),
            loaded_at(loaded, 2),
        )
    }
}

// The words of a file, by its name. The file is never longer than its limit, since it wouldn't be loaded.
fn words_of(alloc: Global, name: &'static str, bytes: &[u8]) -> Result<HexFile, Stop<'static>>
    ensures words { IfOk result (λ words. words ≡ contents_of bytes.now) }
    ensures accepted { OnOk result (hex_fault_of bytes.now ≡ None) }
    ensures refused { IfErr result (TellsWhy (option_map (hex_fault_text name.now) (hex_fault_of bytes.now))) }
{
    if bytes.len() > TEXT_LIMIT {
        return Err(Stop::Memory);
    }
    match HexFile::read(alloc, bytes) {
        Ok(words) => Ok(words),
        Err(HexFault::Memory(_)) => Err(Stop::Memory),
        Err(fault) => Err(Stop::Refused(hex_refusal(name, fault))),
    }
}

// The text with the contents of its RAMs replaced.
fn replaced(
    alloc: Global,
    modes: ReadModes,
    text: &[u8],
    from: &HexFile,
    to: &HexFile,
) -> Result<Vec<u8>, Stop<'static>>
    ensures bytes { IfOk result (λ bytes. bytes.items ≡ replaced text.now from.now to.now (modes_in modes (lines_of text.now))) }
    ensures accepted { OnOk result (bram_fault text.now from.now to.now ≡ None) }
    ensures refused { IfErr result (TellsWhy (option_map bram_fault_text (bram_fault text.now from.now to.now))) }
{
    match replace_with(alloc, text, from, to, modes) {
        Ok(answer) => Ok(answer.bytes),
        Err(BramFault::Memory(_)) => Err(Stop::Memory),
        Err(fault) => Err(Stop::Refused(bram_refusal(fault))),
    }
}

// The text with the contents of its RAMs replaced, from the bytes of the two files of words. A fault of the first file goes before one of
// the second file, and that before one of the text.
fn replaced_by(
    alloc: Global,
    modes: ReadModes,
    from: &[u8],
    to: &[u8],
    text: &[u8],
) -> Result<Vec<u8>, Stop<'static>>
    ensures bytes { IfOk result (λ bytes. replaced_answer modes from.now to.now text.now ≡ Done bytes.items) }
    ensures stops { IfErr result (StopsWith (replaced_answer modes from.now to.now text.now)) }
{
    match words_of(alloc, "from", from) {
        Ok(from) => match words_of(alloc, "to", to) {
            Ok(to) => replaced(alloc, modes, text, &from, &to),
            Err(stop) => Err(stop),
        },
        Err(stop) => Err(stop),
    }
}

// The files of words, and whether read modes are followed.
#[derive(Clone, Copy)]
pub(crate) struct Replacement<'a> {
    modes: ReadModes,
    from: &'a str,
    to: &'a str,
}

// What the arguments ask for.
#[derive(Clone, Copy)]
pub(crate) enum Request<'a> {
    Replace(Replacement<'a>),
    Generate(Generating),
}

// Read modes are followed with `--by-mode`, and ignored without it.
fn modes_wanted(by_mode: bool) -> ReadModes
    ensures { result ≡ modes_wanted by_mode }
{
    match by_mode {
        false => ReadModes::Ignored,
        true => ReadModes::Followed,
    }
}

// The replacement, if both files of words are named.
fn replacement_wanted<'a>(
    by_mode: bool,
    from: Option<&'a str>,
    to: Option<&'a str>,
) -> Option<Replacement<'a>>
    ensures { replace_task_for result ≡ replace_task_of by_mode (text_of from.entry) (text_of to.entry) }
{
    let modes = modes_wanted(by_mode);
    match (from, to) {
        (Some(from), Some(to)) => Some(Replacement { modes, from, to }),
        _ => None,
    }
}

// The request of a replacement.
fn replace_request<'a>(replacement: Option<Replacement<'a>>) -> Option<Request<'a>>
    ensures { icebram_task_for result ≡ replace_task_for replacement.entry }
{
    match replacement {
        Some(replacement) => Some(Request::Replace(replacement)),
        None => None,
    }
}

// The request of random words.
fn generate_request<'a>(words: Option<Generating>) -> Option<Request<'a>>
    ensures { icebram_task_for result ≡ generate_task_for words }
{
    match words {
        Some(words) => Some(Request::Generate(words)),
        None => None,
    }
}

// The request, from what was found in the arguments: random words with `-g`, and else a replacement, which has no seed.
fn wanted<'a>(
    generates: bool,
    seed: Option<&'a str>,
    by_mode: bool,
    first: Option<&'a str>,
    second: Option<&'a str>,
) -> Option<Request<'a>>
    ensures { icebram_task_for result ≡ icebram_task_of generates (text_of seed.entry) by_mode (text_of first.entry) (text_of second.entry) }
{
    match (generates, seed) {
        (true, seed) => generate_request(words_wanted(first, second, seed)),
        (false, None) => replace_request(replacement_wanted(by_mode, first, second)),
        (false, Some(_)) => None,
    }
}

// The command line as `clap` reads it.
fn command<'a>(alloc: Global) -> Result<Command<'a>, AllocError>
    ensures { IfOk result (λ command. app_of command ≡ icebram_command) }
{
    let command = Command::new(alloc, "icebram");
    let command = with(command, long_flag(alloc, "by-mode"))?;
    let command = with(command, flag(alloc, "generate", 'g'))?;
    let command = with(command, short_option(alloc, "seed", 's'))?;
    let command = with(command, required(alloc, "from"))?;
    with(command, required(alloc, "to"))
}

// The request of the arguments, or `None` if they aren't taken.
fn request_in<'a>(matches: &ArgMatches<'a>) -> Option<Request<'a>>
    ensures { icebram_task_for result ≡ icebram_task_by (rows_of (found_of matches.now)) }
{
    let generates = has_flag(matches, "generate");
    let seed = value(matches, "seed");
    let by_mode = has_flag(matches, "by-mode");
    let first = value(matches, "from");
    let second = value(matches, "to");
    wanted(generates, seed, by_mode, first, second)
}

// Replaces: the text comes from standard input, and goes to standard output.
fn replace_between<H: Host>(alloc: Global, request: Replacement<'_>, host: &mut H) -> u8
    ensures { Does H.outside (replace_task_for (Some request.entry)) result (H.scene host.old) (H.scene host.new) }
{
    let loads = [
        Load {
            name: Some(request.from),
            limit: TEXT_LIMIT,
        },
        Load {
            name: Some(request.to),
            limit: TEXT_LIMIT,
        },
        Load {
            name: None,
            limit: TEXT_LIMIT,
        },
    ];
    let job = Job {
        tool_name: "icebram",
        loads: &loads,
        target: None,
    };
    let tool = Replacing {
        modes: request.modes,
    };
    host.perform(alloc, &tool, &job)
}

// Writes random words to standard output.
fn write_words<H: Host>(alloc: Global, words: Generating, host: &mut H) -> u8
    ensures { Does H.outside (generate_task_for (Some words)) result (H.scene host.old) (H.scene host.new) }
{
    let job = Job {
        tool_name: "icebram",
        loads: &[],
        target: None,
    };
    host.perform(alloc, &words, &job)
}

// Does a request.
fn do_request<H: Host>(alloc: Global, request: Request<'_>, host: &mut H) -> u8
    ensures { Does H.outside (icebram_task_for (Some request.entry)) result (H.scene host.old) (H.scene host.new) }
{
    match request {
        Request::Replace(replacement) => replace_between(alloc, replacement, host),
        Request::Generate(words) => write_words(alloc, words, host),
    }
}

/// `icebram` by its command line.
#[derive(Clone, Copy, Debug, PartialEq, Eq)]
pub(crate) struct Icebram;

impl CommandLine for Icebram {
    ghost use Rattle.bitstream_tools.specs.Bram.{icebram};
    ghost use Rattle.bitstream_tools.specs.Laws.{icebram-simple, icebram-speaks};

    ghost manual = { icebram };

    fn words(&self) -> Words {
        Words {
            name: "icebram",
            usage: ICEBRAM_USAGE,
            help: ICEBRAM_HELP,
        }
    }

    fn command<'a>(&self, alloc: Global) -> Result<Command<'a>, AllocError> {
        command(alloc)
    }

    fn perform<H: Host>(
        &self,
        alloc: Global,
        matches: &ArgMatches<'_>,
        host: &mut H,
    ) -> Option<u8> {
        let request = request_in(matches)?;
        Some(do_request(alloc, request, host))
    }

    ghost simple = { icebram-simple };

    ghost speaks = { icebram-speaks };
}

/// Runs `icebram` with these arguments, the first of which is its name, and answers the exit status.
pub fn run_icebram<H: Host>(alloc: Global, args: &[String], host: &mut H) -> u8
    ensures { Does H.outside (icebram_outcome (map string_bytes args.now)) result (H.scene host.old) (H.scene host.new) }
{
    run_tool(alloc, &Icebram, args, host)
}
