// Command lines by `clap`. They are taken exactly if `clap`'s statement of a simple command says so.
ghost use Rattle.std.specs.Prelude.{◌≡◌, false, map, true, IfOk, IfSome, is_some, option_map, string_bytes};
ghost use Rattle.clap.specs.Words.{App, Rule, all_of, app_of, first_of, found_of, is_simple_and_free, matches_of, rule_of, rows_of, with_rule};
ghost use Rattle.tool_run.specs.Needs.{text_of};
ghost use Rattle.tool_inputs.specs.Commands.{flag, has_flag, is_taken, long_flag, long_option, positional, required, several, short_option};

use clap::error::ErrorKind;
use clap::{Arg, ArgAction, ArgMatches, Command};
use std::alloc::{AllocError, Global};

/// A flag of one letter.
pub fn flag<'a>(alloc: Global, id: &'a str, short: char) -> Arg<'a>
    ensures rule { rule_of result ≡ flag id.entry.now short }
    ensures local { result.global ≡ false }
{
    Arg::new(alloc, id).short(short).action(ArgAction::SetTrue)
}

/// A flag named by its id.
pub fn long_flag<'a>(alloc: Global, id: &'a str) -> Arg<'a>
    ensures rule { rule_of result ≡ long_flag id.entry.now }
    ensures local { result.global ≡ false }
{
    Arg::new(alloc, id).long(id).action(ArgAction::SetTrue)
}

/// An option of one letter with a value.
pub fn short_option<'a>(alloc: Global, id: &'a str, short: char) -> Arg<'a>
    ensures rule { rule_of result ≡ short_option id.entry.now short }
    ensures local { result.global ≡ false }
{
    Arg::new(alloc, id).short(short).action(ArgAction::Set)
}

/// An option with a value, named by its id.
pub fn long_option<'a>(alloc: Global, id: &'a str) -> Arg<'a>
    ensures rule { rule_of result ≡ long_option id.entry.now }
    ensures local { result.global ≡ false }
{
    Arg::new(alloc, id).long(id).action(ArgAction::Set)
}

/// A value without an option letter or name, found by its position. It may be left out.
pub fn positional<'a>(alloc: Global, id: &'a str) -> Arg<'a>
    ensures rule { rule_of result ≡ positional id.entry.now }
    ensures local { result.global ≡ false }
{
    Arg::new(alloc, id).action(ArgAction::Set)
}

/// A value without an option letter or name, found by its position. It must be there.
pub fn required<'a>(alloc: Global, id: &'a str) -> Arg<'a>
    ensures rule { rule_of result ≡ required id.entry.now }
    ensures local { result.global ≡ false }
{
    Arg::new(alloc, id).action(ArgAction::Set).required(true)
}

/// Any number of values, found by their position.
pub fn several<'a>(alloc: Global, id: &'a str) -> Arg<'a>
    ensures rule { rule_of result ≡ several id.entry.now }
    ensures local { result.global ≡ false }
{
    Arg::new(alloc, id).action(ArgAction::Append)
}

/// The command with one more argument, as its last.
///
/// # Errors
/// `AllocError` if memory is out, and for no other cause.
pub fn with<'a>(command: Command<'a>, arg: Arg<'a>) -> Result<Command<'a>, AllocError>
    requires { arg.global ≡ false }
    ensures { IfOk result (λ c. (app : App) (rule : Rule) → app_of command.entry ≡ app → rule_of arg.entry ≡ rule → app_of c ≡ with_rule app rule) }
{
    command.arg(arg)
}

/// What the command finds in the arguments, the first of which is the tool's name. `None` if it doesn't take them.
///
/// # Errors
/// `AllocError` if memory is out, and for no other cause. Wrong arguments are no error here, but `None`.
pub fn parse<'a>(
    command: Command<'a>,
    args: &'a [String],
) -> Result<Option<ArgMatches<'a>>, AllocError>
    requires { is_simple_and_free (app_of command) ≡ true }
    ensures taken { IfOk result (λ found. is_some found ≡ is_taken (app_of command.entry) (map string_bytes args.entry.now)) }
    ensures rows { IfOk result (λ found. IfSome found (λ m. rows_of (found_of m) ≡ matches_of (app_of command.entry) (map string_bytes args.entry.now))) }
{
    match command.try_get_matches_from(args) {
        Ok(matches) => Ok(Some(matches)),
        Err(error) => match error.kind() {
            ErrorKind::OutOfMemory => Err(AllocError),
            _ => Ok(None),
        },
    }
}

/// Whether the flag with this id was found.
pub fn has_flag(matches: &ArgMatches<'_>, id: &str) -> bool
    ensures { result ≡ has_flag id.now (rows_of (found_of matches.now)) }
{
    match matches.get_str(id) {
        Some(text) => text == "true",
        None => false,
    }
}

/// The value of the argument with this id, if it was found.
pub fn value<'a>(matches: &ArgMatches<'a>, id: &str) -> Option<&'a str>
    ensures { text_of result ≡ first_of id.now (rows_of (found_of matches.now)) }
{
    matches.get_str(id)
}

/// The values of an argument that may come several times. `None` if there is no value.
pub fn values<'m, 'a>(matches: &'m ArgMatches<'a>, id: &str) -> Option<&'m [&'a str]>
    ensures { option_map (λ texts. map (λ text. text.now) texts.now) result ≡ all_of id.now (rows_of (found_of matches.now)) }
{
    matches.get_strs(id)
}
