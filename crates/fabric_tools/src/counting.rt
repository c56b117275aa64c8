// `icebox_stat`: counts what an image uses of its device.
ghost use Rattle.std.specs.Prelude.{◌≡◌, [], ℕ, List, Option, map, string_bytes, IfOk, IfErr, Some};
ghost use Rattle.clap.specs.Words.{app_of, found_of, rows_of};
ghost use Rattle.ice_image.specs.Either.{configuration_of};
ghost use Rattle.chipdb_reader.specs.Kept.{database_in};
ghost use Rattle.tool_run.specs.Needs.{text_of};
ghost use Rattle.tool_run.specs.Runs.{Does};
ghost use Rattle.tool_run.specs.Stops.{StopsWith};
ghost use Rattle.tool_run.specs.Tasks.{Done};
ghost use Rattle.tool_inputs.specs.DesignInput.{TakesInput};
ghost use Rattle.fabric_tools.specs.Stat.{counted, stat_answer, stat_command, stat_outcome, stat_task_by, stat_task_for, stat_task_of};

use crate::faults::stat_stop;
use chipdb_reader::ChipDb;
use clap::{ArgMatches, Command};
use ice_image::AnyImage;
use image_stat::stat;
use std::alloc::{AllocError, Global};
use tool_inputs::{
    CommandLine, DB_LIMIT, DesignInput, IMAGE_LIMIT, Words, has_flag, long_flag, long_option,
    positional, required, run_tool, value, with,
};
use tool_run::{Host, Job, Load, PieceTool, Stop};

/// The command line of `icebox_stat`.
pub const ICEBOX_STAT_USAGE: &str = "icebox_stat [--all-pins] [--layout FILE] DB [IMAGE]";

/// The help of `icebox_stat`, at most 80 columns wide.
pub const ICEBOX_STAT_HELP: &str = "\
icebox_stat: counts what an image uses of its device, by a chip database.

Usage: icebox_stat [--all-pins] [--layout FILE] DB [IMAGE]

  DB        the chip database of the image's device
  IMAGE     a bitstream (.bin) or a text (.asc); standard input if it is missing
  --all-pins
            takes pins of every kind, apart from the few that PinMode names,
            and PLLs
  --layout FILE
            the layout file; the standard layout if it is missing

The standard layout isn't that of chips at two kinds of places: io tiles in the
right half of the top and bottom row, and contents of RAMs in the top half. For
chips give layouts/silicon.layout, which the installed icebox_stat does by
itself.

icebox_stat writes ten lines, each a word, a space and a number:

  luts      logic cells that are used
  flops     those with a flip-flop
  carries   those that carry
  rams      block RAMs that are read
  pins      pins that are ports
  globals   global nets with a driver
  buffers   buffers that are on
  routings  routings that are on
  bits      bits of the configuration planes that are 1, extra bits among them
  extra     extra bits that are 1

Example: icebox_stat chipdb-1k.txt blink.asc

Limits: a database has at most 268435456 bytes, an image 16777216, FILE 65536.

FILE, a database or an image with a fault is refused, and told by the first
fault. An image is refused for these causes, looked for in this order:

  Device        the database is for another device: take the one for yours
  Pll           a PLL is used; with --all-pins: one that the database doesn't
                describe
  PinMode       a pin of a kind that isn't taken; the six digits are the bits of
                its type, PIN_TYPE. With --all-pins there are four such kinds:
                the last digit but one is 1 and D_IN_0 is used, which a latch
                may hold; or the pin is the pad of a global network and drives
                that pad too, so the first two digits aren't 00; or its tile has
                LVDS, and it isn't pin 0 as an input; or a PLL comes in at
                it, and the last two digits aren't 01 or D_IN_1 is used
  Cascade       block RAMs that are chained

Exit status: 0 done; 1 FILE, the database or the image is refused, with its
first fault; 2 the command line isn't taken; 3 reading failed; 4 writing failed;
5 out of memory; 6 an input is longer than its limit.

icestorm --explain CAUSE tells what the cause in a message means.
";

/// Counts what an image uses, by a database. The image is read under the layouts of a layout file if one is named.
#[derive(Clone, Copy, Debug, PartialEq, Eq)]
pub(crate) struct Counting {
    /// Whether pins of every kind are taken.
    pub(crate) all_pins: bool,
}

impl PieceTool for Counting {
    ghost use Rattle.tool_inputs.specs.DesignInput.{TakesInput, fed_input};
    ghost use Rattle.fabric_tools.specs.Stat.{stat_answer};

    type Intake = DesignInput;

    type Made = Vec<u8>;

    ghost answer_of = { λ tool layout texts. stat_answer tool.all_pins layout texts };

    ghost takes = { λ tool layout texts intake bytes. TakesInput layout texts intake bytes };

    ghost fed = { fed_input };

    fn begin(&self, alloc: Global, layout: Option<&[u8]>) -> Result<DesignInput, Stop<'static>> {
        DesignInput::begin(alloc, layout)
    }

    fn feed(&self, intake: &mut DesignInput, piece: &[u8]) {
        intake.feed(piece);
    }

    fn close(&self, intake: &mut DesignInput) {
        intake.close();
    }

    fn finish(&self, alloc: Global, intake: DesignInput) -> Result<Vec<u8>, Stop<'_>> {
        counted_text(alloc, self.all_pins, intake)
    }
}

// The text of the counts, after the last piece of the image.
fn counted_text(
    alloc: Global,
    all_pins: bool,
    intake: DesignInput,
) -> Result<Vec<u8>, Stop<'static>>
    ensures bytes { IfOk result (λ bytes. (layout : Option (List ℕ)) (texts : List (List ℕ)) → TakesInput layout texts intake []
        → stat_answer all_pins layout texts ≡ Done bytes.items) }
    ensures stops { IfErr result (λ stop. (layout : Option (List ℕ)) (texts : List (List ℕ)) → TakesInput layout texts intake []
        → StopsWith (stat_answer all_pins layout texts) stop) }
{
    match intake.read(alloc) {
        Ok((db, image)) => count_text(alloc, &db, &image, all_pins),
        Err(stop) => Err(stop),
    }
}

// The text of the counts of an image by a database.
#[tactic(auto, using(crate::proofs::Counted::stops_counted, crate::proofs::Counted::counted_done))]
fn count_text(
    alloc: Global,
    db: &ChipDb,
    image: &AnyImage,
    all_pins: bool,
) -> Result<Vec<u8>, Stop<'static>>
    ensures bytes { IfOk result (λ bytes. counted all_pins (database_in db.now) (configuration_of image.now) ≡ Done bytes.items) }
    ensures stops { IfErr result (StopsWith (counted all_pins (database_in db.now) (configuration_of image.now))) }
{
    match stat(alloc, db, image, all_pins) {
        Ok(text) => Ok(text),
        Err(fault) => Err(stat_stop(fault)),
    }
}

/// What the arguments ask for: whether pins of every kind are taken, a layout file, a database and an image.
#[derive(Clone, Copy)]
pub(crate) struct Inputs<'a> {
    pub(crate) all_pins: bool,
    pub(crate) layout: Option<&'a str>,
    pub(crate) db: &'a str,
    pub(crate) image: Option<&'a str>,
}

// The command line as `clap` reads it.
fn command<'a>(alloc: Global) -> Result<Command<'a>, AllocError>
    ensures { IfOk result (λ command. app_of command ≡ stat_command) }
{
    let command = Command::new(alloc, "icebox_stat");
    let command = with(command, long_flag(alloc, "all-pins"))?;
    let command = with(command, long_option(alloc, "layout"))?;
    let command = with(command, required(alloc, "db"))?;
    with(command, positional(alloc, "image"))
}

// The inputs, from what was found in the arguments: there must be a database.
fn wanted<'a>(
    all_pins: bool,
    layout: Option<&'a str>,
    db: Option<&'a str>,
    image: Option<&'a str>,
) -> Option<Inputs<'a>>
    ensures { stat_task_for result ≡ stat_task_of all_pins (text_of layout.entry) (text_of db.entry) (text_of image.entry) }
{
    match db {
        Some(db) => Some(Inputs {
            all_pins,
            layout,
            db,
            image,
        }),
        None => None,
    }
}

// The inputs that the arguments name, or `None` if they aren't taken.
fn inputs_in<'a>(matches: &ArgMatches<'a>) -> Option<Inputs<'a>>
    ensures { stat_task_for result ≡ stat_task_by (rows_of (found_of matches.now)) }
{
    let all_pins = has_flag(matches, "all-pins");
    let layout = value(matches, "layout");
    let db = value(matches, "db");
    let image = value(matches, "image");
    wanted(all_pins, layout, db, image)
}

// Does what the arguments ask for: loads their files and counts.
fn count_files<H: Host>(alloc: Global, inputs: Inputs<'_>, host: &mut H) -> u8
    ensures { Does H.outside (stat_task_for (Some inputs.entry)) result (H.scene host.old) (H.scene host.new) }
{
    let loads = [
        Load {
            name: Some(inputs.db),
            limit: DB_LIMIT,
        },
        Load {
            name: inputs.image,
            limit: IMAGE_LIMIT,
        },
    ];
    let tool = Counting {
        all_pins: inputs.all_pins,
    };
    let job = Job {
        tool_name: "icebox_stat",
        loads: &loads,
        target: None,
    };
    host.perform_in_pieces(alloc, &tool, inputs.layout, &job)
}

/// `icebox_stat` by its command line.
#[derive(Clone, Copy, Debug, PartialEq, Eq)]
pub(crate) struct IceboxStat;

impl CommandLine for IceboxStat {
    ghost use Rattle.fabric_tools.specs.Stat.{icebox_stat};
    ghost use Rattle.fabric_tools.specs.Laws.{stat-simple, stat-speaks};

    ghost manual = { icebox_stat };

    fn words(&self) -> Words {
        Words {
            name: "icebox_stat",
            usage: ICEBOX_STAT_USAGE,
            help: ICEBOX_STAT_HELP,
        }
    }

    fn command<'a>(&self, alloc: Global) -> Result<Command<'a>, AllocError> {
        command(alloc)
    }

    fn perform<H: Host>(
        &self,
        alloc: Global,
        matches: &ArgMatches<'_>,
        host: &mut H,
    ) -> Option<u8> {
        let inputs = inputs_in(matches)?;
        Some(count_files(alloc, inputs, host))
    }

    ghost simple = { stat-simple };

    ghost speaks = { stat-speaks };
}

/// Runs `icebox_stat` with these arguments, the first of which is its name, and answers the exit status.
pub fn run_icebox_stat<H: Host>(alloc: Global, args: &[String], host: &mut H) -> u8
    ensures { Does H.outside (stat_outcome (map string_bytes args.now)) result (H.scene host.old) (H.scene host.new) }
{
    run_tool(alloc, &IceboxStat, args, host)
}
