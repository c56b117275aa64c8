// What a tool makes of its needs, loaded whole or taken in pieces.
ghost use Rattle.std.specs.Prelude.{[], ℕ, List, Option, map};
ghost use Rattle.tool_run.specs.Counts.{counts};
ghost use Rattle.tool_run.specs.Answering.{Answers, Gives};
ghost use Rattle.tool_run.specs.Intakes.{TakesOrStops};
ghost use Rattle.tool_run.specs.Needs.{IsSound, need_of, text_of, with_layout};
ghost use Rattle.tool_run.specs.Tasks.{Both, Done, layout_first};

use crate::load::{Load, LoadStop, layout_load, load_all, load_one};
use crate::piece_tool::PieceTool;
use crate::tool::{Stop, Tool};
use crate::tool_taker::ToolTaker;
use ice_io::{Files, Source};
use std::alloc::Global;

/// Loads each need whole, and makes the tool's answer.
pub(crate) fn answer_whole<'a, T: Tool, F: Files, I: Source>(
    alloc: Global,
    tool: &'a T,
    loads: &[Load<'a>],
    files: &mut F,
    input: &mut I,
) -> Result<Result<T::Made, Stop<'a>>, LoadStop<'a>>
    requires { IsSound (map need_of loads.now) }
    ensures { Answers F.contents F.steady (counts F.load_faults F.bytes_read) (counts F.store_faults F.stores) I.left (counts I.faults I.bytes_read) (map need_of loads.now) (T.answer_of tool.now) (λ made. Done (T.Made.bytes made)) result
        files.old files.new input.old input.new }
{
    let mut loaded = Vec::new(alloc);
    match load_all(alloc, loads, files, input, &mut loaded) {
        Ok(()) => Ok(tool.answer(alloc, &loaded)),
        Err(stop) => Err(stop),
    }
}

// What the tool makes of the texts that were taken, or why it has taken none.
fn finished<'a, T: PieceTool>(
    alloc: Global,
    tool: &'a T,
    intake: Result<T::Intake, Stop<'static>>,
) -> Result<T::Made, Stop<'a>>
    ensures { (layout : Option (List ℕ)) (texts : List (List ℕ)) → TakesOrStops (T.takes tool.now layout texts) (T.answer_of tool.now layout) intake.entry []
        → Gives (λ made. Both (T.Made.bytes made) (T.Made.beside made)) (T.answer_of tool.now layout texts) result }
{
    match intake {
        Ok(intake) => tool.finish(alloc, intake),
        Err(stop) => Err(stop),
    }
}

/// Takes each need in pieces, under the bytes of a layout file, and makes the tool's answer.
fn answer_taken<'a, T: PieceTool, F: Files, I: Source>(
    alloc: Global,
    tool: &'a T,
    layout: Option<&[u8]>,
    loads: &[Load<'a>],
    files: &mut F,
    input: &mut I,
) -> Result<Result<T::Made, Stop<'a>>, LoadStop<'a>>
    requires { IsSound (map need_of loads.now) }
    ensures { Answers F.contents F.steady (counts F.load_faults F.bytes_read) (counts F.store_faults F.stores) I.left (counts I.faults I.bytes_read) (map need_of loads.now) (T.answer_of tool.now (text_of layout.entry))
        (λ made. Both (T.Made.bytes made) (T.Made.beside made)) result files.old files.new input.old input.new }
{
    let intake = tool.begin(alloc, layout);
    let mut taker = ToolTaker { tool, intake };
    let taken = load_all(alloc, loads, files, input, &mut taker);
    let ToolTaker { tool: _, intake } = taker;
    match taken {
        Ok(()) => Ok(finished(alloc, tool, intake)),
        Err(stop) => Err(stop),
    }
}

/// Loads the layout file whole, if one is named, takes each need in pieces, and makes the tool's answer.
pub(crate) fn answer_in_pieces<'a, T: PieceTool, F: Files, I: Source>(
    alloc: Global,
    tool: &'a T,
    layout: Option<&'a str>,
    loads: &[Load<'a>],
    files: &mut F,
    input: &mut I,
) -> Result<Result<T::Made, Stop<'a>>, LoadStop<'a>>
    requires { IsSound (map need_of loads.now) }
    ensures { Answers F.contents F.steady (counts F.load_faults F.bytes_read) (counts F.store_faults F.stores) I.left (counts I.faults I.bytes_read) (with_layout (text_of layout.entry) (map need_of loads.now))
        (layout_first (text_of layout.entry) (T.answer_of tool.now)) (λ made. Both (T.Made.bytes made) (T.Made.beside made)) result files.old files.new input.old input.new }
{
    match layout {
        None => answer_taken(alloc, tool, None, loads, files, input),
        Some(name) => match load_one(alloc, layout_load(name), files, input) {
            Ok(bytes) => answer_taken(alloc, tool, Some(&bytes), loads, files, input),
            Err(stop) => Err(stop),
        },
    }
}
