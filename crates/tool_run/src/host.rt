// What is outside a run.
ghost use Rattle.std.specs.Prelude.{◌≡◌, None, map};
ghost use Rattle.tool_run.specs.AtOnce.{at_once_answer};
ghost use Rattle.tool_run.specs.Jobs.{task_of, task_under};
ghost use Rattle.tool_run.specs.Needs.{IsSound, need_of, text_of};
ghost use Rattle.tool_run.specs.Runs.{Does, Outside, Scene};
ghost use Rattle.tool_run.specs.Tasks.{Task, at_once, beside_task};

use crate::at_once::{AtOnce, answer_at_once};
use crate::performing::{Job, give_up, perform, perform_in_pieces};
use crate::piece_tool::PieceTool;
use crate::tool::Tool;
use ice_io::{Files, Sink, Source};
use std::alloc::Global;

/// What is outside a run, and what a tool can ask of it: to do a task over files and the three standard streams. Each call answers the exit
/// status.
pub trait Host {
    /// What contracts see of the files.
    ghost FilesSeen: { Type 0 };

    /// What they see of standard input.
    ghost InputSeen: { Type 0 };

    /// What they see of standard output.
    ghost OutputSeen: { Type 0 };

    /// What they see of standard error.
    ghost ErrorsSeen: { Type 0 };

    /// How clauses read these.
    ghost outside: { Outside FilesSeen InputSeen OutputSeen ErrorsSeen };

    /// The files and the streams as they are.
    ghost scene: { Self → Scene FilesSeen InputSeen OutputSeen ErrorsSeen };

    /// Loads what the job needs, in order, makes the tool's answer of it, and delivers that to the target. The tool refuses, if it
    /// does, before the first byte goes out. The status is 0 if all was done, 1 if the tool refuses what it was given, 2 if it
    /// doesn't take the command line, 3 if a read failed, 4 if a write failed, 5 if memory ran out, and 6 if an input has more bytes
    /// than its limit.
    fn perform<T: Tool>(&mut self, alloc: Global, tool: &T, job: &Job<'_>) -> u8
        requires { IsSound (map need_of job.now.loads.now) }
        ensures { Does outside (task_of job.now (T.answer_of tool.now)) result (scene self.old) (scene self.new) };

    /// Performs the job as `perform` does, but the tool takes its loads in pieces, as they are read, and its answer is made while it
    /// is written. A layout file, if one is named, is loaded whole before the first of them. The tool refuses, if it does, after its
    /// last load was read to the end and before the first byte goes out, so the statuses are the same.
    fn perform_in_pieces<T: PieceTool>(
        &mut self,
        alloc: Global,
        tool: &T,
        layout: Option<&str>,
        job: &Job<'_>,
    ) -> u8
        requires { IsSound (map need_of job.now.loads.now) }
        ensures { Does outside (task_under (text_of layout.entry) job.now (T.answer_of tool.now)) result (scene self.old) (scene self.new) };

    /// Performs the job as `perform_in_pieces` does, but stores a file beside standard output, if one is named: first that file is stored
    /// whole, and then the bytes for standard output go out. If the file can't be stored, the status is 4, and nothing goes out.
    fn perform_beside<T: PieceTool>(
        &mut self,
        alloc: Global,
        tool: &T,
        layout: Option<&str>,
        job: &Job<'_>,
        beside: Option<&str>,
    ) -> u8
        requires sound { IsSound (map need_of job.now.loads.now) }
        requires output { text_of job.now.target ≡ None }
        ensures { Does outside (beside_task (text_of beside.entry) (task_under (text_of layout.entry) job.now (T.answer_of tool.now))) result
            (scene self.old) (scene self.new) };

    /// Delivers an answer that is known from the command line alone.
    fn answer_at_once(&mut self, alloc: Global, tool_name: &'static str, answer: AtOnce) -> u8
        ensures { Does outside (at_once tool_name.now None (at_once_answer answer)) result (scene self.old) (scene self.new) };

    /// Says that memory ran out before the command line could be read, whatever it asks for.
    fn give_up(&mut self, tool_name: &'static str) -> u8
        ensures { (task : Task) → task.tool_name ≡ tool_name.now → Does outside task result (scene self.old) (scene self.new) };
}

/// Files and the three standard streams, real or in memory.
#[derive(Drop)]
pub struct FilesAndStreams<F, I, O, E> {
    pub files: F,
    pub input: I,
    pub output: O,
    pub errors: E,
}

impl<F: Files, I: Source, O: Sink, E: Sink> Host for FilesAndStreams<F, I, O, E> {
    ghost use Rattle.tool_run.specs.Counts.{counts};
    ghost use Rattle.tool_run.specs.Runs.{outside, scene};

    ghost FilesSeen = { F };

    ghost InputSeen = { I };

    ghost OutputSeen = { O };

    ghost ErrorsSeen = { E };

    ghost outside = { outside F.contents F.steady (counts F.load_faults F.bytes_read) (counts F.store_faults F.stores) I.left (counts I.faults I.bytes_read) O.held O.faults E.held E.faults };

    ghost scene = { λ host. scene host.files host.input host.output host.errors };

    fn perform<T: Tool>(&mut self, alloc: Global, tool: &T, job: &Job<'_>) -> u8 {
        perform(
            alloc,
            tool,
            job,
            &mut self.files,
            &mut self.input,
            &mut self.output,
            &mut self.errors,
        )
    }

    fn perform_in_pieces<T: PieceTool>(
        &mut self,
        alloc: Global,
        tool: &T,
        layout: Option<&str>,
        job: &Job<'_>,
    ) -> u8 {
        perform_in_pieces(
            alloc,
            tool,
            layout,
            job,
            None,
            &mut self.files,
            &mut self.input,
            &mut self.output,
            &mut self.errors,
        )
    }

    fn perform_beside<T: PieceTool>(
        &mut self,
        alloc: Global,
        tool: &T,
        layout: Option<&str>,
        job: &Job<'_>,
        beside: Option<&str>,
    ) -> u8 {
        perform_in_pieces(
            alloc,
            tool,
            layout,
            job,
            beside,
            &mut self.files,
            &mut self.input,
            &mut self.output,
            &mut self.errors,
        )
    }

    fn answer_at_once(&mut self, alloc: Global, tool_name: &'static str, answer: AtOnce) -> u8 {
        answer_at_once(
            alloc,
            tool_name,
            answer,
            &mut self.files,
            &mut self.input,
            &mut self.output,
            &mut self.errors,
        )
    }

    fn give_up(&mut self, tool_name: &'static str) -> u8 {
        give_up(
            tool_name,
            &mut self.files,
            &mut self.input,
            &mut self.output,
            &mut self.errors,
        )
    }
}
