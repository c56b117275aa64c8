// A run of any tool.
ghost use Rattle.std.specs.Prelude.{◌≡◌, true, List, None, map, string_bytes, IfOk, IfSome};
ghost use Rattle.clap.specs.Words.{Row, Text, app_of, found_of, is_simple_and_free, rows_of};
ghost use Rattle.tool_run.specs.Runs.{Does};
ghost use Rattle.tool_inputs.specs.Outcomes.{Finds, Manual, asked, outcome, untaken};

use crate::commands::parse;
use clap::{ArgMatches, Command};
use std::alloc::{AllocError, Global};
use tool_run::{AtOnce, Host, asks_for_help};

/// The texts of a tool.
#[derive(Clone, Copy, Debug, PartialEq, Eq)]
pub struct Words {
    /// The name, with which each of its messages begins.
    pub name: &'static str,
    /// The usage line: the command line that it takes.
    pub usage: &'static str,
    /// Its help, at most 80 columns wide.
    pub help: &'static str,
}

/// A tool, described by its command line.
pub trait CommandLine {
    /// Its words, its command, and the task of what is found in the arguments.
    ghost manual: { Manual };

    /// Its words.
    fn words(&self) -> Words
        ensures name { result.name.now ≡ manual.name }
        ensures usage { result.usage.now ≡ manual.usage }
        ensures help { result.help.now ≡ manual.help };

    /// The command line as `clap` reads it.
    ///
    /// # Errors
    /// `AllocError` if memory is out, and for no other cause.
    fn command<'a>(&self, alloc: Global) -> Result<Command<'a>, AllocError>
        ensures { IfOk result (λ command. app_of command ≡ manual.app) };

    /// Does what the arguments ask for, and answers the exit status. `None` if the tool doesn't take the arguments although `clap` does,
    /// for example if a number is out of range. Then nothing was touched.
    fn perform<H: Host>(&self, alloc: Global, matches: &ArgMatches<'_>, host: &mut H) -> Option<u8>
        ensures does { IfSome result (λ status. Does H.outside (manual.task (rows_of (found_of matches.now))) status (H.scene host.old) (H.scene host.new)) }
        ensures untaken { result ≡ None → manual.task (rows_of (found_of matches.now)) ≡ untaken manual }
        ensures untouched { result ≡ None → host.new ≡ host.old };

    ghost simple: { is_simple_and_free manual.app ≡ true };

    ghost speaks: { (rows : List Row) → (manual.task rows).tool_name ≡ manual.name };
}

// What the tool's command finds in the arguments.
fn found<'a, T: CommandLine>(
    alloc: Global,
    tool: &T,
    args: &'a [String],
) -> Result<Option<ArgMatches<'a>>, AllocError>
    ensures { IfOk result (Finds T.manual (map string_bytes args.now)) }
{
    let command = tool.command(alloc)?;
    parse(command, args)
}

// Does what the arguments ask for, if the command took them. `None` if the arguments aren't taken; then nothing was touched.
#[tactic(auto, unfolding(crate::specs::Outcomes::asked))]
fn perform_found<T: CommandLine, H: Host>(
    alloc: Global,
    tool: &T,
    found: Option<ArgMatches<'_>>,
    host: &mut H,
) -> Option<u8>
    ensures does { IfSome result (λ status. (args : List Text) → Finds T.manual args found.entry → Does H.outside (asked T.manual args) status (H.scene host.old) (H.scene host.new)) }
    ensures untaken { result ≡ None → (args : List Text) → Finds T.manual args found.entry → asked T.manual args ≡ untaken T.manual }
    ensures untouched { result ≡ None → host.new ≡ host.old }
{
    match found {
        Some(matches) => tool.perform(alloc, &matches, host),
        None => None,
    }
}

// Does what the arguments ask for, or answers the usage error if they aren't taken. All tools that are a `CommandLine` answer their usage
// errors here. Two others answer usage errors of their own: `selfrun` (in `selfrun_tool`), which is no `CommandLine`, and the program itself
// (in `icestorm_cli`), if its arguments name no tool.
fn run_found<T: CommandLine, H: Host>(
    alloc: Global,
    tool: &T,
    found: Option<ArgMatches<'_>>,
    host: &mut H,
) -> u8
    ensures { (args : List Text) → Finds T.manual args found.entry → Does H.outside (asked T.manual args) result (H.scene host.old) (H.scene host.new) }
{
    match perform_found(alloc, tool, found, host) {
        Some(status) => status,
        None => {
            let words = tool.words();
            host.answer_at_once(alloc, words.name, AtOnce::UsageError(words.usage))
        }
    }
}

/// Runs a tool with these arguments, the first of which is the tool's name, and answers the exit status. If `--help` alone comes after the
/// name, the run tells the help.
///
/// # Example
/// ```ignore
/// // `MyTool` implements `CommandLine`. `args` begins with its name, and `rt` is the `HostRuntime` that `main` is given.
/// let mut host = FilesAndStreams {
///     files: DirFiles::new(&rt),
///     input: StdSource::new(rt.stdin()),
///     output: StdSink::new(rt.stdout()),
///     errors: StdSink::new(rt.stderr()),
/// };
/// let status = run_tool(rt.alloc(), &MyTool, args, &mut host);
/// ```
pub fn run_tool<T: CommandLine, H: Host>(
    alloc: Global,
    tool: &T,
    args: &[String],
    host: &mut H,
) -> u8
    ensures { Does H.outside (outcome T.manual (map string_bytes args.now)) result (H.scene host.old) (H.scene host.new) }
{
    let words = tool.words();
    if asks_for_help(args) {
        return host.answer_at_once(alloc, words.name, AtOnce::Tells(words.help));
    }
    match found(alloc, tool, args) {
        Ok(found) => run_found(alloc, tool, found, host),
        Err(AllocError) => host.give_up(words.name),
    }
}
