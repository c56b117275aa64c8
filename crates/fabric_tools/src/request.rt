// What the command line of `icebox_explain` asks for.
ghost use Rattle.std.specs.Prelude.{◌≡◌, IfOk, position, ◌==◌};
ghost use Rattle.clap.specs.Words.{app_of, found_of, rows_of};
ghost use Rattle.tool_run.specs.Needs.{text_of};
ghost use Rattle.fabric_tools.specs.Explain.{explain_command, explain_task_by, explain_task_for, explain_task_of, tile_given, tile_in, tile_of};

use asc_text::TileXy;
use clap::{ArgMatches, Command};
use std::alloc::{AllocError, Global};
use text_lines::number;
use tool_inputs::{long_option, positional, short_option, value, with};

/// The command line of `icebox_explain`.
pub const ICEBOX_EXPLAIN_USAGE: &str = "icebox_explain [-t \"X Y\"] [--layout FILE] DB [IMAGE]";

/// The help of `icebox_explain`, at most 80 columns wide.
pub const ICEBOX_EXPLAIN_HELP: &str = "\
icebox_explain: tells what the set bits of an image mean, by a chip database.

Usage: icebox_explain [-t \"X Y\"] [--layout FILE] DB [IMAGE]

  DB        the chip database of the image's device
  IMAGE     a bitstream (.bin) or a text (.asc); standard input if it is missing
  -t \"X Y\"  explains the tile at column X and row Y alone, also where no bit of
            it is set
  --layout FILE
            the layout file; the standard layout if it is missing

The standard layout isn't that of chips at two kinds of places: io tiles in the
right half of the top and bottom row, and contents of RAMs in the top half. For
chips give layouts/silicon.layout, which the installed icebox_explain does by
itself.

Example: icebox_explain chipdb-1k.txt blink.asc

Limits: a database has at most 268435456 bytes, an image 16777216, FILE 65536.

Exit status: 0 done; 1 FILE, the database or the image is refused, with its
first fault; 2 the command line isn't taken; 3 reading failed; 4 writing failed;
5 out of memory; 6 an input is longer than its limit.

icestorm --explain CAUSE tells what the cause in a message means.
";

/// What the arguments ask for: a layout file, a database, an image, and one tile or all.
#[derive(Clone, Copy)]
pub(crate) struct Request<'a> {
    pub(crate) only: Option<TileXy>,
    pub(crate) layout: Option<&'a str>,
    pub(crate) db: &'a str,
    pub(crate) image: Option<&'a str>,
}

// The tile that two decimal numbers with one space between them name: its column and its row.
#[tactic(auto, unfolding(crate::specs::Explain::tile_in))]
fn tile_in(text: &[u8]) -> Option<TileXy>
    ensures { result ≡ tile_in text.now }
{
    match space_place(text) {
        None => None,
        Some(place) => tile_of(number(&text[..place]), number(&text[place + 1..])),
    }
}

// The index of the first space, if there is one.
fn space_place(bytes: &[u8]) -> Option<usize>
    ensures { result ≡ position (λ byte. byte == 32) bytes.now }
{
    bytes.iter().position(|byte| *byte == b' ')
}

// The tile of these coordinates, if both are there.
fn tile_of(x: Option<u32>, y: Option<u32>) -> Option<TileXy>
    ensures { result ≡ tile_of x y }
{
    match (x, y) {
        (Some(x), Some(y)) => Some(TileXy { x, y }),
        _ => None,
    }
}

// The tile of an option that may be missing (`Some(None)`). `None` if the value isn't two numbers with one space between them.
fn tile_given(text: Option<&str>) -> Option<Option<TileXy>>
    ensures { result ≡ tile_given (text_of text.entry) }
{
    match text {
        None => Some(None),
        Some(text) => match tile_in(text.as_bytes()) {
            Some(tile) => Some(Some(tile)),
            None => None,
        },
    }
}

/// The command line as `clap` reads it.
pub(crate) fn command<'a>(alloc: Global) -> Result<Command<'a>, AllocError>
    ensures { IfOk result (λ command. app_of command ≡ explain_command) }
{
    let command = Command::new(alloc, "icebox_explain");
    let command = with(command, short_option(alloc, "tile", 't'))?;
    let command = with(command, long_option(alloc, "layout"))?;
    let command = with(command, positional(alloc, "db"))?;
    with(command, positional(alloc, "image"))
}

// The request, from what was found in the arguments: there must be a database.
fn wanted<'a>(
    only: Option<Option<TileXy>>,
    layout: Option<&'a str>,
    db: Option<&'a str>,
    image: Option<&'a str>,
) -> Option<Request<'a>>
    ensures { explain_task_for result ≡ explain_task_of only (text_of layout.entry) (text_of db.entry) (text_of image.entry) }
{
    match (only, db) {
        (Some(only), Some(db)) => Some(Request {
            only,
            layout,
            db,
            image,
        }),
        _ => None,
    }
}

// The request of the arguments, or `None` if they aren't taken.
pub(crate) fn request_in<'a>(matches: &ArgMatches<'a>) -> Option<Request<'a>>
    ensures { explain_task_for result ≡ explain_task_by (rows_of (found_of matches.now)) }
{
    let only = tile_given(value(matches, "tile"));
    let layout = value(matches, "layout");
    let db = value(matches, "db");
    let image = value(matches, "image");
    wanted(only, layout, db, image)
}
