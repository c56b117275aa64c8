// The tools, each by the first word of the command line.
ghost use Rattle.std.specs.Prelude.{◌≡◌, map, string_bytes};
ghost use Rattle.icestorm_cli.specs.Tools.{tool_named, tool_of};

/// The tools.
#[derive(Clone, Copy, Debug, PartialEq, Eq)]
pub enum Tool {
    /// Text to bitstream.
    Icepack,
    /// Bitstream to text.
    Iceunpack,
    /// Bitstreams to a boot file.
    Icemulti,
    /// A boot file to its images.
    Icesplit,
    /// A text to one with other contents of its RAMs.
    Icebram,
    /// What the set bits of an image mean.
    IceboxExplain,
    /// What two images differ in.
    IceboxDiff,
    /// Counts of what an image uses.
    IceboxStat,
    /// A picture of what an image uses.
    IceboxPlan,
    /// The module of an image.
    IceboxVlog,
    /// A run of a module.
    Vlogrun,
    /// Runs of a module over several lists of events.
    Vlogsweep,
    /// A design that is made from a number, taken through the others.
    Selfrun,
}

/// The version of the program.
pub const VERSION: &str = "icestorm 0.1.0\n";

/// The help of the program, at most 80 columns wide.
pub const HELP: &str = "\
icestorm: the tools of Project IceStorm for the iCE40 HX1K, HX8K and LP384.

Usage: icestorm TOOL ...
       icestorm TOOL --help
       icestorm --explain [CAUSE]
       icestorm --help
       icestorm --version

Tools:
  icepack      packs a text (.asc) into a bitstream (.bin)
  iceunpack    unpacks a bitstream (.bin) into a text (.asc)
  icemulti     joins up to four bitstreams to one boot file
  icesplit     tells what a boot file holds, or takes an image out of it
  icebram      replaces the contents of RAMs in a text, without a new routing
  icebox_explain
               tells what the set bits of an image mean
  icebox_diff  tells what two images differ in
  icebox_stat  counts what an image uses
  icebox_plan  draws what an image uses as a floor plan, an SVG
  icebox_vlog  writes the design of an image in a subset of Verilog
  vlogrun      runs a module of that subset over a list of events
  vlogsweep    runs a module over up to 64 lists of events, each on its own
  selfrun      makes a design from a number, and packs, explains and runs it

With --explain the program tells what the cause in a message means, with an
example and what to do about it; without CAUSE it lists all causes.

./icestorm is the program alone, with what its arguments name and no more. The
installed icestorm TOOL is the installed TOOL: it has the layout of chips, the
chip database and some options by itself.

Examples: icestorm icepack --layout silicon.layout blink.asc blink.bin
          icestorm --explain TwoDrivers

Exit status: 0 done; 1 the input is refused; 2 the command line isn't taken;
3 reading failed; 4 writing failed; 5 out of memory; 6 an input is longer than
its limit. With each but 0 one line on standard error tells why, except where
icebox_diff -q ends with 1 since two images differ.
";

/// The tool that the arguments name by their first word, if they name one.
pub fn tool_of(args: &[String]) -> Option<Tool>
    ensures { result ≡ tool_of (map string_bytes args.now) }
{
    match args {
        [] => None,
        [word, ..] => tool_named(word.as_str()),
    }
}

// The tool that a word names, if it names one.
#[tactic(auto, unfolding(crate::specs::Tools::tool_named))]
fn tool_named(word: &str) -> Option<Tool>
    ensures { result ≡ tool_named word.now }
{
    match word {
        "icepack" => Some(Tool::Icepack),
        "iceunpack" => Some(Tool::Iceunpack),
        "icemulti" => Some(Tool::Icemulti),
        "icesplit" => Some(Tool::Icesplit),
        "icebram" => Some(Tool::Icebram),
        "icebox_explain" => Some(Tool::IceboxExplain),
        "icebox_diff" => Some(Tool::IceboxDiff),
        "icebox_stat" => Some(Tool::IceboxStat),
        "icebox_plan" => Some(Tool::IceboxPlan),
        "icebox_vlog" => Some(Tool::IceboxVlog),
        "vlogrun" => Some(Tool::Vlogrun),
        "vlogsweep" => Some(Tool::Vlogsweep),
        "selfrun" => Some(Tool::Selfrun),
        _ => None,
    }
}
