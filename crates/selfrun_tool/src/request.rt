// What the command line of `selfrun` asks for.
ghost use Rattle.std.specs.Prelude.{◌≡◌, ◌<◌, ◌≤◌, ◌^◌, ◌&&◌, length, map, string_bytes, IfOk, Some, nat_lt, nat_le, true};
ghost use Rattle.clap.specs.Words.{app_of};
ghost use Rattle.text_lines.specs.Words.{number_of};
ghost use Rattle.seeds.specs.Seeds.{seed_of};
ghost use Rattle.plane_map.specs.DeviceWords.{database_device_named};
ghost use Rattle.tool_run.specs.Needs.{text_of};
ghost use Rattle.selfrun_tool.specs.Selfrun.{events_count, given, request_with, selfrun_command, selfrun_request, within_limit};

use clap::Command;
use plane_map::DeviceName;
use seeds::seed_of;
use std::alloc::{AllocError, Global};
use text_lines::number;
use tool_inputs::{parse, positional, value, with};

/// The command line of `selfrun`.
pub const SELFRUN_USAGE: &str = "selfrun DEVICE SEED EVENTS";

/// The help of `selfrun`, at most 80 columns wide.
pub const SELFRUN_HELP: &str = "\
selfrun: makes a design from a number, and packs, explains and runs it.

Usage: selfrun DEVICE SEED EVENTS

  DEVICE    1k or 8k
  SEED      the number, below 18446744073709551616
  EVENTS    how many events are made, at most 100000

selfrun makes a chip database, an image and events, which are the same for the
same words on each machine. It reads the database, packs and unpacks the image,
explains it, writes its design as a module, reads that again and runs it over
the events. Then it writes ten lines, each a word and a value:

  device    DEVICE
  bin       the bytes of the bitstream
  nets      the nets of the database
  cells     the logic cells that are used
  rams      the block RAMs that are used
  wires     the wires of the module
  events    the events whose pin is an input of the design
  lines     the lines of the run, one more than the events
  explain   the lines that explain the image
  ones      the bits of outputs that are 1, in all lines of the run

Example: selfrun 1k 7 1000

Exit status: 0 done; 1 the database or the design is refused; 2 the command line
isn't taken; 4 writing failed; 5 out of memory.
";

/// The greatest number of events.
const EVENTS_LIMIT: u32 = 100_000;

/// What the arguments ask for: a device, the seed of its design, and how many events are made.
#[derive(Clone, Copy, Debug, PartialEq, Eq)]
pub(crate) struct Request {
    pub(crate) device: DeviceName,
    pub(crate) seed: u64,
    pub(crate) events: u32,
}

// The device that a word names, if there are databases of it.
fn device_named(word: &str) -> Option<DeviceName>
    ensures { result ≡ database_device_named word.now }
{
    DeviceName::named_with_database(word.as_bytes())
}

// How many events a word asks for, if it writes a number within the limit.
fn events_count(word: &[u8]) -> Option<u32>
    ensures { result ≡ events_count word.now }
{
    match number(word) {
        Some(count) if count <= EVENTS_LIMIT => Some(count),
        _ => None,
    }
}

// The device, if its word is there and names one with databases.
fn device_given(word: Option<&str>) -> Option<DeviceName>
    ensures { result ≡ given database_device_named (text_of word.entry) }
{
    match word {
        Some(word) => device_named(word),
        None => None,
    }
}

// The seed, if its word is there and writes one.
fn seed_given(word: Option<&str>) -> Option<u64>
    ensures { result ≡ given seed_of (text_of word.entry) }
{
    match word {
        Some(word) => seed_of(word.as_bytes()),
        None => None,
    }
}

// How many events, if their word is there and writes a number within the limit.
fn events_given(word: Option<&str>) -> Option<u32>
    ensures { result ≡ given events_count (text_of word.entry) }
{
    match word {
        Some(word) => events_count(word.as_bytes()),
        None => None,
    }
}

// The request, from what was found in the arguments: all three must be there.
fn wanted(device: Option<DeviceName>, seed: Option<u64>, events: Option<u32>) -> Option<Request>
    ensures { result ≡ request_with device seed events }
{
    match (device, seed, events) {
        (Some(device), Some(seed), Some(events)) => Some(Request {
            device,
            seed,
            events,
        }),
        _ => None,
    }
}

// The command line as `clap` reads it.
fn command<'a>(alloc: Global) -> Result<Command<'a>, AllocError>
    ensures { IfOk result (λ command. app_of command ≡ selfrun_command) }
{
    let command = Command::new(alloc, "selfrun");
    let command = with(command, positional(alloc, "device"))?;
    let command = with(command, positional(alloc, "seed"))?;
    with(command, positional(alloc, "events"))
}

// The request of the arguments, or `None` if they aren't taken.
#[tactic(auto, unfolding(crate::specs::Selfrun::selfrun_request))]
pub(crate) fn request_of(alloc: Global, args: &[String]) -> Result<Option<Request>, AllocError>
    ensures { IfOk result (λ request. request ≡ selfrun_request (map string_bytes args.entry.now)) }
{
    let command = command(alloc)?;
    match parse(command, args)? {
        Some(matches) => {
            let device = device_given(value(&matches, "device"));
            let seed = seed_given(value(&matches, "seed"));
            let events = events_given(value(&matches, "events"));
            Ok(wanted(device, seed, events))
        }
        None => Ok(None),
    }
}
