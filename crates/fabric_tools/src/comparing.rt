// `icebox_diff`: tells what two images of one device differ in.
ghost use Rattle.std.specs.Prelude.{◌≡◌, [], ℕ, List, Option, map, string_bytes, IfOk, IfErr, Some};
ghost use Rattle.clap.specs.Words.{app_of, found_of, rows_of};
ghost use Rattle.ice_image.specs.Either.{configuration_of};
ghost use Rattle.ice_image.specs.Configuration.{Configuration};
ghost use Rattle.chipdb_reader.specs.Kept.{database_in};
ghost use Rattle.tool_run.specs.Needs.{text_of};
ghost use Rattle.tool_run.specs.Runs.{Does};
ghost use Rattle.tool_run.specs.Stops.{StopsWith};
ghost use Rattle.tool_run.specs.Tasks.{Done};
ghost use Rattle.tool_inputs.specs.DesignInput.{TakesInput};
ghost use Rattle.fabric_tools.specs.Diff.{compared, diff_answer, diff_command, diff_outcome, diff_task_by, diff_task_for, diff_task_of, told_text};
ghost use Rattle.fabric_tools.specs.Equal.{AreComparable, TellsEqual};

use crate::faults::diff_refusal;
use chipdb_reader::ChipDb;
use clap::{ArgMatches, Command};
use ice_image::AnyImage;
use image_diff::{DiffFault, differences};
use std::alloc::{AllocError, Global};
use tool_inputs::{
    CommandLine, DB_LIMIT, DesignInput, IMAGE_LIMIT, Words, flag, has_flag, long_option, required,
    run_tool, value, with,
};
use tool_run::{Host, Job, Load, PieceTool, Stop};

/// The command line of `icebox_diff`.
pub const ICEBOX_DIFF_USAGE: &str = "icebox_diff [--layout FILE] [-q] DB A B";

/// The help of `icebox_diff`, at most 80 columns wide.
pub const ICEBOX_DIFF_HELP: &str = "\
icebox_diff: tells what two images of one device differ in, by a chip database.

Usage: icebox_diff [--layout FILE] [-q] DB A B

  DB        the chip database of the device
  A         a bitstream (.bin) or a text (.asc)
  B         another one
  -q        writes nothing: the exit status is 0 if A and B are equal, and 1 if
            they differ
  --layout FILE
            the layout file; the standard layout if it is missing

The standard layout isn't that of chips at two kinds of places: io tiles in the
right half of the top and bottom row, and contents of RAMs in the top half. For
chips give layouts/silicon.layout, which the installed icebox_diff does by
itself.

Nothing is written if the images are equal. Otherwise, with - before a line that
only A has, and + before one that only B has, icebox_diff writes:

  settings  those that differ
  tiles     for each that differs its statement, and then the lines below it
            that icebox_explain writes for one image alone
  bits      .extra_bits, and then the extra bits that one image alone sets
  words     ram X Y word N: -1234 +1235, for each word of a RAM that differs

Comments and names of nets aren't compared.

Example: icebox_diff --layout silicon.layout chipdb-1k.txt blink.asc blink.bin

Limits: a database has at most 268435456 bytes, an image 16777216, FILE 65536.

FILE, a database or an image with a fault is refused, and told by the first
fault, a fault of A or B by the name of the file. If the database is for another
device than A, the cause is Device, and if B is for another one than A, it is
Images.

Exit status: 0 done, whether the images differ or not; 1 FILE, the database or
an image is refused, with its first fault, or the images of -q differ; 2 the
command line isn't taken; 3 reading failed; 4 writing failed; 5 out of memory;
6 an input is longer than its limit.

icestorm --explain CAUSE tells what the cause in a message means.
";

/// Compares the images of two files, by a database. They are read under the layouts of a layout file if one is named.
#[derive(Clone, Copy, Debug, PartialEq, Eq)]
pub(crate) struct Comparing<'a> {
    /// Whether nothing is written.
    pub(crate) quiet: bool,
    /// The file of the first image.
    pub(crate) first: &'a str,
    /// The file of the second.
    pub(crate) second: &'a str,
}

impl<'a> PieceTool for Comparing<'a> {
    ghost use Rattle.tool_inputs.specs.DesignInput.{TakesInput, fed_input};
    ghost use Rattle.fabric_tools.specs.Diff.{diff_answer};

    type Intake = DesignInput;

    type Made = Vec<u8>;

    ghost answer_of = { λ tool layout texts. diff_answer tool.quiet tool.first.now tool.second.now layout texts };

    ghost takes = { λ tool layout texts intake bytes. TakesInput layout texts intake bytes };

    ghost fed = { fed_input };

    fn begin(&self, alloc: Global, layout: Option<&[u8]>) -> Result<DesignInput, Stop<'static>> {
        DesignInput::begin(alloc, layout)
    }

    fn feed(&self, intake: &mut DesignInput, piece: &[u8]) {
        intake.feed(piece);
    }

    fn close(&self, intake: &mut DesignInput) {
        intake.close();
    }

    fn finish(&self, alloc: Global, intake: DesignInput) -> Result<Vec<u8>, Stop<'_>> {
        compared(alloc, self.quiet, self.first, self.second, intake)
    }
}

// What is told of the images in files of these names, after the last piece of the second.
fn compared<'a>(
    alloc: Global,
    quiet: bool,
    first: &'a str,
    second: &'a str,
    intake: DesignInput,
) -> Result<Vec<u8>, Stop<'a>>
    ensures bytes { IfOk result (λ bytes. (layout : Option (List ℕ)) (texts : List (List ℕ)) → TakesInput layout texts intake []
        → diff_answer quiet first.entry.now second.entry.now layout texts ≡ Done bytes.items) }
    ensures stops { IfErr result (λ stop. (layout : Option (List ℕ)) (texts : List (List ℕ)) → TakesInput layout texts intake []
        → StopsWith (diff_answer quiet first.entry.now second.entry.now layout texts) stop) }
{
    match intake.read_two(alloc, first, second) {
        Ok((db, one, two)) => text_of(alloc, quiet, &db, &one, &two),
        Err(stop) => Err(stop),
    }
}

// What is told of two images.
fn text_of<'a>(
    alloc: Global,
    quiet: bool,
    db: &ChipDb,
    first: &AnyImage,
    second: &AnyImage,
) -> Result<Vec<u8>, Stop<'a>>
    ensures bytes { IfOk result (λ bytes. compared quiet (database_in db.now) (configuration_of first.now) (configuration_of second.now) ≡ Done bytes.items) }
    ensures stops { IfErr result (StopsWith (compared quiet (database_in db.now) (configuration_of first.now) (configuration_of second.now))) }
{
    match differences(alloc, db, first, second) {
        Ok(text) => told_text(quiet, text),
        Err(DiffFault::Memory(_)) => Err(Stop::Memory),
        Err(fault) => Err(Stop::Refused(diff_refusal(fault))),
    }
}

// The text of differences, or the quiet stop that stands for it, if nothing is to be written and there are some.
fn told_text<'a>(quiet: bool, text: Vec<u8>) -> Result<Vec<u8>, Stop<'a>>
    ensures bytes { IfOk result (λ bytes. told_text quiet text.items ≡ Done bytes.items) }
    ensures stops { IfErr result (StopsWith (told_text quiet text.items)) }
{
    if text.is_empty() || !quiet {
        Ok(text)
    } else {
        Err(Stop::Quiet)
    }
}

/// What the arguments ask for: whether nothing is written, a layout file, a database and two images.
#[derive(Clone, Copy)]
pub(crate) struct Inputs<'a> {
    pub(crate) quiet: bool,
    pub(crate) layout: Option<&'a str>,
    pub(crate) db: &'a str,
    pub(crate) first: &'a str,
    pub(crate) second: &'a str,
}

// The command line as `clap` reads it.
fn command<'a>(alloc: Global) -> Result<Command<'a>, AllocError>
    ensures { IfOk result (λ command. app_of command ≡ diff_command) }
{
    let command = Command::new(alloc, "icebox_diff");
    let command = with(command, long_option(alloc, "layout"))?;
    let command = with(command, flag(alloc, "quiet", 'q'))?;
    let command = with(command, required(alloc, "db"))?;
    let command = with(command, required(alloc, "first"))?;
    with(command, required(alloc, "second"))
}

// The inputs, from what was found in the arguments: there must be a database and two images.
fn wanted<'a>(
    quiet: bool,
    layout: Option<&'a str>,
    db: Option<&'a str>,
    first: Option<&'a str>,
    second: Option<&'a str>,
) -> Option<Inputs<'a>>
    ensures { diff_task_for result ≡ diff_task_of quiet (text_of layout.entry) (text_of db.entry) (text_of first.entry) (text_of second.entry) }
{
    match (db, first, second) {
        (Some(db), Some(first), Some(second)) => Some(Inputs {
            quiet,
            layout,
            db,
            first,
            second,
        }),
        _ => None,
    }
}

// The inputs that the arguments name, or `None` if they aren't taken.
fn inputs_in<'a>(matches: &ArgMatches<'a>) -> Option<Inputs<'a>>
    ensures { diff_task_for result ≡ diff_task_by (rows_of (found_of matches.now)) }
{
    let quiet = has_flag(matches, "quiet");
    let layout = value(matches, "layout");
    let db = value(matches, "db");
    let first = value(matches, "first");
    let second = value(matches, "second");
    wanted(quiet, layout, db, first, second)
}

// Does what the arguments ask for: loads their files and compares.
fn compare_files<H: Host>(alloc: Global, inputs: Inputs<'_>, host: &mut H) -> u8
    ensures { Does H.outside (diff_task_for (Some inputs.entry)) result (H.scene host.old) (H.scene host.new) }
{
    let loads = [
        Load {
            name: Some(inputs.db),
            limit: DB_LIMIT,
        },
        Load {
            name: Some(inputs.first),
            limit: IMAGE_LIMIT,
        },
        Load {
            name: Some(inputs.second),
            limit: IMAGE_LIMIT,
        },
    ];
    let tool = Comparing {
        quiet: inputs.quiet,
        first: inputs.first,
        second: inputs.second,
    };
    let job = Job {
        tool_name: "icebox_diff",
        loads: &loads,
        target: None,
    };
    host.perform_in_pieces(alloc, &tool, inputs.layout, &job)
}

/// `icebox_diff` by its command line.
#[derive(Clone, Copy, Debug, PartialEq, Eq)]
pub(crate) struct IceboxDiff;

impl CommandLine for IceboxDiff {
    ghost use Rattle.fabric_tools.specs.Diff.{icebox_diff};
    ghost use Rattle.fabric_tools.specs.Laws.{diff-simple, diff-speaks};

    ghost manual = { icebox_diff };

    fn words(&self) -> Words {
        Words {
            name: "icebox_diff",
            usage: ICEBOX_DIFF_USAGE,
            help: ICEBOX_DIFF_HELP,
        }
    }

    fn command<'a>(&self, alloc: Global) -> Result<Command<'a>, AllocError> {
        command(alloc)
    }

    fn perform<H: Host>(
        &self,
        alloc: Global,
        matches: &ArgMatches<'_>,
        host: &mut H,
    ) -> Option<u8> {
        let inputs = inputs_in(matches)?;
        Some(compare_files(alloc, inputs, host))
    }

    ghost simple = { diff-simple };

    ghost speaks = { diff-speaks };
}

/// Runs `icebox_diff` with these arguments, the first of which is its name, and answers the exit status.
pub fn run_icebox_diff<H: Host>(alloc: Global, args: &[String], host: &mut H) -> u8
    ensures { Does H.outside (diff_outcome (map string_bytes args.now)) result (H.scene host.old) (H.scene host.new) }
{
    run_tool(alloc, &IceboxDiff, args, host)
}

/// `icebox_diff` writes nothing of two images that can be compared exactly where they are equal, and with `-q` its answer is quiet exactly
/// where they aren't. The call does nothing: its clause is the law.
pub fn diff_tells_equal_images()
    ensures { (layout : Option (List ℕ)) (texts : List (List ℕ)) (first_name second_name : List ℕ) (first second : Configuration)
        → AreComparable layout texts first second → TellsEqual layout texts first_name second_name first second }
{}
