// The top call: arguments, files and streams to a status.
ghost use Rattle.std.specs.Prelude.{◌≡◌, None, Some, map, option_map, string_bytes};
ghost use Rattle.tool_run.specs.AtOnce.{at_once_answer};
ghost use Rattle.tool_run.specs.Runs.{Does};
ghost use Rattle.tool_run.specs.Tasks.{Task, at_once};
ghost use Rattle.design_tools.specs.Fabric.{PromisesFabric, PromisesNames};
ghost use Rattle.fabric_model.specs.Unique.{ExactlyOne};
ghost use Rattle.selfrun_tool.specs.Selfrun.{IsSelfrunAnswer};
ghost use Rattle.icestorm_cli.specs.Runs.{PromisesRun};
ghost use Rattle.icestorm_cli.specs.Tools.{IsOutcome, cause_outcome, other_outcome, own_outcome, program_name, told_cause, tool_of};

use crate::tool::{HELP, Tool, VERSION, tool_of};
use bitstream_tools::{run_icebram, run_icemulti, run_icepack, run_icesplit, run_iceunpack};
use cause_texts::{WORDS, explained};
use design_tools::run_icebox_vlog;
use fabric_tools::{run_icebox_diff, run_icebox_explain, run_icebox_plan, run_icebox_stat};
use module_tools::{run_vlogrun, run_vlogsweep};
use selfrun_tool::run_selfrun;
use std::alloc::Global;
use tool_inputs::whole;
use tool_run::{AtOnce, Host};

// The program's own answer to a single word that names no tool.
fn answer_to(word: &str) -> AtOnce
    ensures { at_once program_name None (at_once_answer result) ≡ own_outcome word.now }
{
    match word {
        "--help" => AtOnce::Tells(HELP),
        "--version" => AtOnce::Tells(VERSION),
        "--explain" => AtOnce::Tells(WORDS),
        _ => AtOnce::UsageError("TOOL ..."),
    }
}

// What is told of a cause: its text, or that there is no such cause.
fn told_cause(text_of_cause: Option<&'static str>) -> AtOnce
    ensures { at_once_answer result ≡ told_cause (option_map (λ text. text.now) text_of_cause.entry) }
{
    match text_of_cause {
        Some(told) => AtOnce::Tells(told),
        None => AtOnce::Refuses(whole("no message has this cause: icestorm --explain lists all")),
    }
}

// The program's own answer to two words, the first of which names no tool.
fn answer_to_two(word: &str, cause: &str) -> AtOnce
    ensures { at_once program_name None (at_once_answer result) ≡ cause_outcome word.now cause.now }
{
    match word {
        "--explain" => told_cause(explained(cause)),
        _ => AtOnce::UsageError("TOOL ..."),
    }
}

// The program's own answer to arguments that name no tool.
#[tactic(auto, unfolding(crate::specs::Tools::other_outcome))]
fn own_answer(args: &[String]) -> AtOnce
    ensures { at_once program_name None (at_once_answer result) ≡ other_outcome (map string_bytes args.now) }
{
    match args {
        [word] => answer_to(word.as_str()),
        [word, cause] => answer_to_two(word.as_str(), cause.as_str()),
        _ => AtOnce::UsageError("TOOL ..."),
    }
}

/// Does what the arguments ask for, the first of which is the tool, and answers the exit status: 0 if all was done, 1 if the tool
/// refuses what it was given, 2 if the command line isn't taken, 3 if reading failed, 4 if writing failed, 5 if memory is out, and 6
/// if an input has more bytes than its limit. The first of these decides, in this order: the arguments; what is loaded, that is, a layout
/// file, then a pin file, then the others in the order of the arguments, but the list of names of `vlogrun` after its module, and standard
/// input last; the tool; the file for a list of names; the target.
pub fn run<H: Host>(alloc: Global, args: &[String], host: &mut H) -> u8
    ensures does { (task : Task) → IsOutcome (map string_bytes args.now) task
        → Does H.outside task result (H.scene host.old) (H.scene host.new) }
    ensures one_answer { tool_of (map string_bytes args.now) ≡ Some Tool.Selfrun → ExactlyOne (IsSelfrunAnswer (map string_bytes args.now)) }
    ensures written_fabric { tool_of (map string_bytes args.now) ≡ Some Tool.IceboxVlog
        → PromisesFabric H.outside (map string_bytes args.now) result (H.scene host.old) (H.scene host.new) }
    ensures written_names { tool_of (map string_bytes args.now) ≡ Some Tool.IceboxVlog
        → PromisesNames H.outside (map string_bytes args.now) result (H.scene host.old) (H.scene host.new) }
    ensures run_of_fabric { tool_of (map string_bytes args.now) ≡ Some Tool.Vlogrun
        → PromisesRun H.outside (map string_bytes args.now) result (H.scene host.old) (H.scene host.new) }
{
    match tool_of(args) {
        Some(Tool::Icepack) => run_icepack(alloc, args, host),
        Some(Tool::Iceunpack) => run_iceunpack(alloc, args, host),
        Some(Tool::Icemulti) => run_icemulti(alloc, args, host),
        Some(Tool::Icesplit) => run_icesplit(alloc, args, host),
        Some(Tool::Icebram) => run_icebram(alloc, args, host),
        Some(Tool::IceboxExplain) => { run_icebox_explain(alloc, args, host) }
        Some(Tool::IceboxDiff) => run_icebox_diff(alloc, args, host),
        Some(Tool::IceboxStat) => run_icebox_stat(alloc, args, host),
        Some(Tool::IceboxPlan) => run_icebox_plan(alloc, args, host),
        Some(Tool::IceboxVlog) => run_icebox_vlog(alloc, args, host),
        Some(Tool::Vlogrun) => run_vlogrun(alloc, args, host),
        Some(Tool::Vlogsweep) => run_vlogsweep(alloc, args, host),
        Some(Tool::Selfrun) => run_selfrun(alloc, args, host),
        None => {
            let answer = own_answer(args);
            host.answer_at_once(alloc, "icestorm", answer)
        }
    }
}
