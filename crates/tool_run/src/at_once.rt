// Tasks that load nothing.
ghost use Rattle.std.specs.Prelude.{◌≡◌, None};
ghost use Rattle.tool_run.specs.Counts.{counts};
ghost use Rattle.tool_run.specs.AtOnce.{at_once_answer};
ghost use Rattle.tool_run.specs.Runs.{Does, outside, scene};
ghost use Rattle.tool_run.specs.Tasks.{at_once};

use crate::line::{Refusal, text};
use crate::performing::{Job, perform};
use crate::tool::{Stop, Tool};
use ice_io::{Files, Sink, Source};
use std::alloc::Global;

/// An answer that is known from the command line alone.
#[derive(Clone, Copy, Debug, PartialEq, Eq)]
pub enum AtOnce {
    /// A text for standard output.
    Tells(&'static str),
    /// A refusal.
    Refuses(Refusal<'static>),
    /// The command line isn't taken; this one would be.
    UsageError(&'static str),
}

impl Tool for AtOnce {
    ghost use Rattle.tool_run.specs.AtOnce.{at_once_answer};

    ghost answer_of = { λ tool texts. at_once_answer tool };

    type Made = Vec<u8>;

    fn answer(&self, alloc: Global, _loaded: &Vec<Vec<u8>>) -> Result<Vec<u8>, Stop<'_>> {
        match *self {
            AtOnce::Tells(text) => Ok(Vec::from_slice(alloc, text.as_bytes())?),
            AtOnce::Refuses(refusal) => Err(Stop::Refused(refusal)),
            AtOnce::UsageError(usage) => Err(Stop::UsageError(Refusal {
                file: None,
                first: text("usage: "),
                second: text(usage),
                third: text(""),
                fourth: text(""),
            })),
        }
    }
}

/// Delivers an answer that is known from the command line alone.
pub(crate) fn answer_at_once<F: Files, I: Source, O: Sink, E: Sink>(
    alloc: Global,
    tool_name: &'static str,
    answer: AtOnce,
    files: &mut F,
    input: &mut I,
    output: &mut O,
    errors: &mut E,
) -> u8
    ensures { Does (outside F.contents F.steady (counts F.load_faults F.bytes_read) (counts F.store_faults F.stores) I.left (counts I.faults I.bytes_read) O.held O.faults E.held E.faults)
        (at_once tool_name.now None (at_once_answer answer)) result
        (scene files.old input.old output.old errors.old) (scene files.new input.new output.new errors.new) }
{
    let job = Job {
        tool_name,
        loads: &[],
        target: None,
    };
    perform(alloc, &answer, &job, files, input, output, errors)
}
