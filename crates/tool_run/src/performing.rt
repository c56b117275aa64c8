// A task from its loads to its target.
ghost use Rattle.std.specs.Prelude.{◌≡◌, None, map};
ghost use Rattle.tool_run.specs.Counts.{counts};
ghost use Rattle.tool_run.specs.Needs.{IsSound, need_of, text_of};
ghost use Rattle.tool_run.specs.Lines.{line_of, out_of_memory, source_name, target_name};
ghost use Rattle.tool_run.specs.Tasks.{Task, beside_task};
ghost use Rattle.tool_run.specs.Effects.{Writes};
ghost use Rattle.tool_run.specs.Concluding.{Concludes, TellsStop};
ghost use Rattle.tool_run.specs.Jobs.{IsBesideOutput, task_of, task_under};
ghost use Rattle.tool_run.specs.Runs.{Does, outside, scene};

use crate::answering::{answer_in_pieces, answer_whole};
use crate::delivery::{Undelivered, deliver};
use crate::line::{Phrase, Refusal, decimal, text, write_named, write_refusal};
use crate::load::{Load, LoadStop};
use crate::piece_tool::PieceTool;
use crate::product::Product;
use crate::tool::{Stop, Tool};
use ice_io::{Files, Sink, Source};
use std::alloc::Global;

/// What a tool is asked to do, beside its own options.
#[derive(Clone, Copy, Debug, PartialEq, Eq)]
pub struct Job<'a> {
    /// The name that begins each of its lines.
    pub tool_name: &'static str,
    /// What is loaded, in order.
    pub loads: &'a [Load<'a>],
    /// The file that is stored, or none if the bytes go to standard output.
    pub target: Option<&'a str>,
}

// A file by its name, and standard input.
fn source_name<'a>(load: Load<'a>) -> &'a str
    ensures { result.now ≡ source_name (need_of load.entry).name }
{
    match load.name {
        None => "standard input",
        Some(name) => name,
    }
}

// A file by its name, and standard output.
fn target_name<'a>(target: Option<&'a str>) -> &'a str
    ensures { result.now ≡ target_name (text_of target.entry) }
{
    match target {
        None => "standard output",
        Some(name) => name,
    }
}

// Writes that there is no memory.
fn write_out_of_memory<E: Sink>(errors: &mut E, tool_name: &str)
    ensures { Writes (line_of tool_name.now out_of_memory) (E.held errors.old) (E.held errors.new) (E.faults errors.old) (E.faults errors.new) }
{
    write_named(errors, tool_name, "out of memory", "", text(""));
}

// Delivers what the tool made, or says why there is nothing.
fn conclude<P: Product, F: Files, O: Sink, E: Sink>(
    alloc: Global,
    job: &Job<'_>,
    beside: Option<&str>,
    made: Result<P, Stop<'_>>,
    files: &mut F,
    output: &mut O,
    errors: &mut E,
) -> u8
    requires { IsBesideOutput (text_of beside) (text_of job.now.target) }
    ensures { Concludes F.contents (counts F.store_faults F.stores) O.held O.faults E.held E.faults job.now.tool_name.now (text_of beside.entry) (text_of job.now.target)
        P.beside P.bytes made.entry result
        files.old files.new output.old output.new errors.old errors.new }
{
    match made {
        Ok(product) => match deliver(alloc, beside, job.target, product, files, output) {
            Ok(()) => 0,
            Err(Undelivered::Failed(target)) => {
                let name = target_name(target);
                write_named(errors, job.tool_name, "write failed: ", name, text(""));
                4
            }
            Err(Undelivered::Memory) => {
                write_out_of_memory(errors, job.tool_name);
                5
            }
        },
        Err(Stop::Refused(refusal)) => {
            write_refusal(errors, job.tool_name, refusal);
            1
        }
        Err(Stop::Quiet) => 1,
        Err(Stop::UsageError(refusal)) => {
            write_refusal(errors, job.tool_name, refusal);
            2
        }
        Err(Stop::Memory) => {
            write_out_of_memory(errors, job.tool_name);
            5
        }
    }
}

// Says why loading stopped.
fn tell_stop<E: Sink>(errors: &mut E, tool_name: &str, stop: LoadStop<'_>) -> u8
    ensures { TellsStop result (λ said. Writes (line_of tool_name.now said) (E.held errors.old) (E.held errors.new) (E.faults errors.old) (E.faults errors.new)) stop.entry }
{
    match stop {
        LoadStop::Failed(load) => {
            let name = source_name(load);
            write_named(errors, tool_name, "read failed: ", name, text(""));
            3
        }
        LoadStop::TooLong(load) => {
            let limit = decimal(" limit ", load.limit as u64);
            write_named(errors, tool_name, "too long: ", source_name(load), limit);
            6
        }
        LoadStop::Memory => {
            write_out_of_memory(errors, tool_name);
            5
        }
    }
}

/// Loads what the job needs, in order, makes the tool's answer of it, and delivers that to the target. The tool refuses, if it
/// does, before the first byte goes out. The status is 0 if all was done, 1 if the tool refuses what it was given, 2 if it doesn't
/// take the command line, 3 if a read failed, 4 if a write failed, 5 if memory ran out, and 6 if an input has more bytes than its
/// limit.
pub(crate) fn perform<T: Tool, F: Files, I: Source, O: Sink, E: Sink>(
    alloc: Global,
    tool: &T,
    job: &Job<'_>,
    files: &mut F,
    input: &mut I,
    output: &mut O,
    errors: &mut E,
) -> u8
    requires { IsSound (map need_of job.now.loads.now) }
    ensures { Does (outside F.contents F.steady (counts F.load_faults F.bytes_read) (counts F.store_faults F.stores) I.left (counts I.faults I.bytes_read) O.held O.faults E.held E.faults)
        (task_of job.now (T.answer_of tool.now)) result
        (scene files.old input.old output.old errors.old) (scene files.new input.new output.new errors.new) }
{
    match answer_whole(alloc, tool, job.loads, files, input) {
        Ok(made) => conclude(alloc, job, None, made, files, output, errors),
        Err(stop) => tell_stop(errors, job.tool_name, stop),
    }
}

/// Performs the job as `perform` does, but the tool takes its loads in pieces, as they are read, and its answer is made while it
/// is written. A layout file, if one is named, is loaded whole before the first of them. The tool refuses, if it does, after its last
/// load was read to the end and before the first byte goes out, so the statuses are the same. The file beside the target, if one is named, is
/// stored before the first byte goes to the target.
pub(crate) fn perform_in_pieces<T: PieceTool, F: Files, I: Source, O: Sink, E: Sink>(
    alloc: Global,
    tool: &T,
    layout: Option<&str>,
    job: &Job<'_>,
    beside: Option<&str>,
    files: &mut F,
    input: &mut I,
    output: &mut O,
    errors: &mut E,
) -> u8
    requires sound { IsSound (map need_of job.now.loads.now) }
    requires output { IsBesideOutput (text_of beside) (text_of job.now.target) }
    ensures { Does (outside F.contents F.steady (counts F.load_faults F.bytes_read) (counts F.store_faults F.stores) I.left (counts I.faults I.bytes_read) O.held O.faults E.held E.faults)
        (beside_task (text_of beside.entry) (task_under (text_of layout.entry) job.now (T.answer_of tool.now))) result
        (scene files.old input.old output.old errors.old) (scene files.new input.new output.new errors.new) }
{
    match answer_in_pieces(alloc, tool, layout, job.loads, files, input) {
        Ok(made) => conclude(alloc, job, beside, made, files, output, errors),
        Err(stop) => tell_stop(errors, job.tool_name, stop),
    }
}

/// Says that memory ran out before the command line could be read, whatever it asks for.
pub(crate) fn give_up<F: Files, I: Source, O: Sink, E: Sink>(
    tool_name: &'static str,
    files: &mut F,
    input: &mut I,
    output: &mut O,
    errors: &mut E,
) -> u8
    ensures status { result ≡ 5 }
    ensures does { (task : Task) → task.tool_name ≡ tool_name.now
        → Does (outside F.contents F.steady (counts F.load_faults F.bytes_read) (counts F.store_faults F.stores) I.left (counts I.faults I.bytes_read) O.held O.faults E.held E.faults) task result
        (scene files.old input.old output.old errors.old) (scene files.new input.new output.new errors.new) }
{
    write_out_of_memory(errors, tool_name);
    5
}
