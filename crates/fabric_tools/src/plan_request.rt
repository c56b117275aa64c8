// The command line of `icebox_plan`.
ghost use Rattle.std.specs.Prelude.{◌≡◌, IfOk};
ghost use Rattle.std.specs.Option.{option_map};
ghost use Rattle.clap.specs.Words.{app_of, found_of, rows_of};
ghost use Rattle.tool_run.specs.Needs.{text_of};
ghost use Rattle.design_answers.specs.PinRequests.{pins_of_request};
ghost use Rattle.fabric_tools.specs.Plan.{plan_command, plan_task_by, plan_task_for, plan_task_of};

use clap::{ArgMatches, Command};
use design_answers::{PinRequest, pins_wanted};
use std::alloc::{AllocError, Global};
use tool_inputs::{
    has_flag, long_flag, long_option, positional, required, short_option, value, with,
};

/// The command line of `icebox_plan`.
pub const ICEBOX_PLAN_USAGE: &str =
    "icebox_plan [--all-pins] [--layout FILE] [-p PCF -d PACKAGE] DB [IMAGE]";

/// The help of `icebox_plan`, at most 80 columns wide.
pub const ICEBOX_PLAN_HELP: &str = "\
icebox_plan: draws the floor plan of an image as an SVG, by a chip database.

Usage: icebox_plan [--all-pins] [--layout FILE] [-p PCF -d PACKAGE] DB [IMAGE]

  DB        the chip database of the image's device
  IMAGE     a bitstream (.bin) or a text (.asc); standard input if it is missing
  -p PCF    the pin file: pins get its names
  -d PACKAGE
            the package whose pins it names, as tq144 or ct256
  --all-pins
            takes pins of every kind, apart from the few that PinMode names,
            and PLLs
  --layout FILE
            the layout file; the standard layout if it is missing

The standard layout isn't that of chips at two kinds of places: io tiles in the
right half of the top and bottom row, and contents of RAMs in the top half. For
chips give layouts/silicon.layout, which the installed icebox_plan does by
itself.

A browser shows the picture. It has the tiles of the device as they lie on the
chip, with row 0 at the bottom, what the image uses in them, and a legend:

  logic tiles   eight cells: unused, LUT, LUT with flip-flop, carry, or carry
                with flip-flop
  RAM tiles     the two tiles of a block RAM: unused, or how many bits a word
                has that is read (R) or written (W)
  io tiles      two pins: no port, input, output, or output with enable, each
                with or without a register, and the name of the pin file
  shades        the darker a tile, the more links are on in it
  numbers       global nets with a driver, at the tile that drives them
  frames        PLLs that are on

The numbers of the legend are those of icebox_stat. Hovering over a tile shows
its used cells with the entries of their LUTs, its RAM, its pins and how many
links are on. In a pin file a line `set_io NAME PIN` gives the pin at PIN its
NAME; if several lines name a pin, the first counts. The picture has ? for each
byte of a NAME that is no printable character of ASCII, and .. in the middle of
a long one.

Example: icebox_plan chipdb-1k.txt blink.asc >blink.svg

Limits: a database has at most 268435456 bytes, an image 16777216, FILE 65536,
PCF 1048576.

FILE, a database or an image with a fault is refused, and told by the first
fault. An image is refused for these causes, looked for in this order:

  Device        the database is for another device: take the one for yours
  Pll           a PLL is used; with --all-pins: one that the database doesn't
                describe
  PinMode       a pin of a kind that isn't taken; the six digits are the bits of
                its type, PIN_TYPE. With --all-pins there are four such kinds:
                the last digit but one is 1 and D_IN_0 is used, which a latch
                may hold; or the pin is the pad of a global network and drives
                that pad too, so the first two digits aren't 00; or its tile has
                LVDS, and it isn't pin 0 as an input; or a PLL comes in at
                it, and the last two digits aren't 01 or D_IN_1 is used
  Cascade       block RAMs that are chained

After that a pin file with a fault is refused, and told by its first faulty
line: Statement, another statement than set_io or set_frequency; Package or Pin,
the database has no such package, or the package no such pin.

Exit status: 0 done; 1 a file is refused, with its first fault; 2 the command
line isn't taken; 3 reading failed; 4 writing failed; 5 out of memory; 6 an
input is longer than its limit.

icestorm --explain CAUSE tells what the cause in a message means.
";

/// What the arguments ask for: whether pins of every kind are taken, a pin file, a layout file, a database and an image.
#[derive(Clone, Copy)]
pub(crate) struct PlanRequest<'a> {
    pub(crate) all_pins: bool,
    pub(crate) pins: Option<PinRequest<'a>>,
    pub(crate) layout: Option<&'a str>,
    pub(crate) db: &'a str,
    pub(crate) image: Option<&'a str>,
}

/// The command line as `clap` reads it.
pub(crate) fn command<'a>(alloc: Global) -> Result<Command<'a>, AllocError>
    ensures { IfOk result (λ command. app_of command ≡ plan_command) }
{
    let command = Command::new(alloc, "icebox_plan");
    let command = with(command, long_flag(alloc, "all-pins"))?;
    let command = with(command, long_option(alloc, "layout"))?;
    let command = with(command, short_option(alloc, "pins", 'p'))?;
    let command = with(command, short_option(alloc, "package", 'd'))?;
    let command = with(command, required(alloc, "db"))?;
    with(command, positional(alloc, "image"))
}

// The request, from what was found in the arguments: there must be a database, and no pin file without a package.
fn wanted<'a>(
    all_pins: bool,
    pins: Option<Option<PinRequest<'a>>>,
    layout: Option<&'a str>,
    db: Option<&'a str>,
    image: Option<&'a str>,
) -> Option<PlanRequest<'a>>
    ensures { plan_task_for result ≡ plan_task_of all_pins (option_map pins_of_request pins.entry) (text_of layout.entry) (text_of db.entry) (text_of image.entry) }
{
    match (pins, db) {
        (Some(pins), Some(db)) => Some(PlanRequest {
            all_pins,
            pins,
            layout,
            db,
            image,
        }),
        _ => None,
    }
}

/// The request of the arguments, or `None` if they aren't taken.
pub(crate) fn request_in<'a>(matches: &ArgMatches<'a>) -> Option<PlanRequest<'a>>
    ensures { plan_task_for result ≡ plan_task_by (rows_of (found_of matches.now)) }
{
    let all_pins = has_flag(matches, "all-pins");
    let file = value(matches, "pins");
    let package_name = value(matches, "package");
    let pins = pins_wanted(file, package_name);
    let layout = value(matches, "layout");
    let db = value(matches, "db");
    let image = value(matches, "image");
    wanted(all_pins, pins, layout, db, image)
}
