// `icebox_explain`: tells what the set bits of an image mean.
ghost use Rattle.std.specs.Prelude.{◌≡◌, [], ℕ, List, Option, map, string_bytes, IfOk, IfErr, Some};
ghost use Rattle.chipdb_reader.specs.Kept.{database_in};
ghost use Rattle.tool_run.specs.Needs.{text_of};
ghost use Rattle.tool_run.specs.Runs.{Does};
ghost use Rattle.tool_run.specs.Stops.{StopsWith};
ghost use Rattle.tool_run.specs.Tasks.{Done};
ghost use Rattle.tool_inputs.specs.DesignInput.{TakesInput};
ghost use Rattle.fabric_tools.specs.Explain.{explain_answer, explain_outcome, explain_task_for, told};
ghost use Rattle.ice_image.specs.Either.{configuration_of};

use crate::faults::explain_refusal;
use crate::request::{ICEBOX_EXPLAIN_HELP, ICEBOX_EXPLAIN_USAGE, Request, command, request_in};
use asc_text::TileXy;
use chipdb_reader::ChipDb;
use clap::{ArgMatches, Command};
use ice_image::AnyImage;
use image_explain::{ExplainFault, explain};
use std::alloc::{AllocError, Global};
use tool_inputs::{CommandLine, DB_LIMIT, DesignInput, IMAGE_LIMIT, Words, run_tool};
use tool_run::{Host, Job, Load, PieceTool, Stop};

/// Explains one tile of an image, or all, by a database. The image is read under the layouts of a layout file if one is named.
#[derive(Clone, Copy, Debug, PartialEq, Eq)]
pub(crate) struct Explaining {
    pub(crate) only: Option<TileXy>,
}

impl PieceTool for Explaining {
    ghost use Rattle.tool_inputs.specs.DesignInput.{TakesInput, fed_input};
    ghost use Rattle.fabric_tools.specs.Explain.{explain_answer};

    type Intake = DesignInput;

    type Made = Vec<u8>;

    ghost answer_of = { λ tool layout texts. explain_answer tool.only layout texts };

    ghost takes = { λ tool layout texts intake bytes. TakesInput layout texts intake bytes };

    ghost fed = { fed_input };

    fn begin(&self, alloc: Global, layout: Option<&[u8]>) -> Result<DesignInput, Stop<'static>> {
        DesignInput::begin(alloc, layout)
    }

    fn feed(&self, intake: &mut DesignInput, piece: &[u8]) {
        intake.feed(piece);
    }

    fn close(&self, intake: &mut DesignInput) {
        intake.close();
    }

    fn finish(&self, alloc: Global, intake: DesignInput) -> Result<Vec<u8>, Stop<'_>> {
        explained(alloc, self.only, intake)
    }
}

// The text that explains the image by the database, after the last piece of the image.
fn explained(
    alloc: Global,
    only: Option<TileXy>,
    intake: DesignInput,
) -> Result<Vec<u8>, Stop<'static>>
    ensures bytes { IfOk result (λ bytes. (layout : Option (List ℕ)) (texts : List (List ℕ)) → TakesInput layout texts intake []
        → explain_answer only layout texts ≡ Done bytes.items) }
    ensures stops { IfErr result (λ stop. (layout : Option (List ℕ)) (texts : List (List ℕ)) → TakesInput layout texts intake []
        → StopsWith (explain_answer only layout texts) stop) }
{
    match intake.read(alloc) {
        Ok((db, image)) => text_of(alloc, &db, &image, only),
        Err(stop) => Err(stop),
    }
}

// The text that explains an image by a database.
fn text_of(
    alloc: Global,
    db: &ChipDb,
    image: &AnyImage,
    only: Option<TileXy>,
) -> Result<Vec<u8>, Stop<'static>>
    ensures bytes { IfOk result (λ bytes. told (database_in db.now) (configuration_of image.now) only ≡ Done bytes.items) }
    ensures stops { IfErr result (StopsWith (told (database_in db.now) (configuration_of image.now) only)) }
{
    match explain(alloc, db, image, only) {
        Ok(text) => Ok(text),
        Err(ExplainFault::Memory(_)) => Err(Stop::Memory),
        Err(fault) => Err(Stop::Refused(explain_refusal(fault))),
    }
}

// Does a request: loads its files and explains.
fn explain_files<H: Host>(alloc: Global, request: Request<'_>, host: &mut H) -> u8
    ensures { Does H.outside (explain_task_for (Some request.entry)) result (H.scene host.old) (H.scene host.new) }
{
    let loads = [
        Load {
            name: Some(request.db),
            limit: DB_LIMIT,
        },
        Load {
            name: request.image,
            limit: IMAGE_LIMIT,
        },
    ];
    let tool = Explaining { only: request.only };
    let job = Job {
        tool_name: "icebox_explain",
        loads: &loads,
        target: None,
    };
    host.perform_in_pieces(alloc, &tool, request.layout, &job)
}

/// `icebox_explain` by its command line.
#[derive(Clone, Copy, Debug, PartialEq, Eq)]
pub(crate) struct IceboxExplain;

impl CommandLine for IceboxExplain {
    ghost use Rattle.fabric_tools.specs.Explain.{icebox_explain};
    ghost use Rattle.fabric_tools.specs.Laws.{explain-simple, explain-speaks};

    ghost manual = { icebox_explain };

    fn words(&self) -> Words {
        Words {
            name: "icebox_explain",
            usage: ICEBOX_EXPLAIN_USAGE,
            help: ICEBOX_EXPLAIN_HELP,
        }
    }

    fn command<'a>(&self, alloc: Global) -> Result<Command<'a>, AllocError> {
        command(alloc)
    }

    fn perform<H: Host>(
        &self,
        alloc: Global,
        matches: &ArgMatches<'_>,
        host: &mut H,
    ) -> Option<u8> {
        let request = request_in(matches)?;
        Some(explain_files(alloc, request, host))
    }

    ghost simple = { explain-simple };

    ghost speaks = { explain-speaks };
}

/// Runs `icebox_explain` with these arguments, the first of which is its name, and answers the exit status.
pub fn run_icebox_explain<H: Host>(alloc: Global, args: &[String], host: &mut H) -> u8
    ensures { Does H.outside (explain_outcome (map string_bytes args.now)) result (H.scene host.old) (H.scene host.new) }
{
    run_tool(alloc, &IceboxExplain, args, host)
}
