// `icebox_plan`: draws what an image uses of its device.
ghost use Rattle.std.specs.Prelude.{◌≡◌, [], ℕ, List, Option, map, string_bytes, IfOk, IfErr, Some};
ghost use Rattle.ice_image.specs.Either.{configuration_of};
ghost use Rattle.chipdb_reader.specs.Kept.{database_in};
ghost use Rattle.tool_run.specs.Needs.{text_of};
ghost use Rattle.tool_run.specs.Runs.{Does};
ghost use Rattle.tool_run.specs.Stops.{StopsWith};
ghost use Rattle.tool_run.specs.Tasks.{Done};
ghost use Rattle.tool_inputs.specs.DesignInput.{TakesInput};
ghost use Rattle.fabric_tools.specs.Plan.{draw_task, plan_answer, plan_outcome, plan_task_for, planned};

use crate::faults::stat_stop;
use crate::plan_naming::draw_named;
use crate::plan_request::{ICEBOX_PLAN_HELP, ICEBOX_PLAN_USAGE, PlanRequest, command, request_in};
use chipdb_reader::ChipDb;
use clap::{ArgMatches, Command};
use floor_plan::floor_plan;
use ice_image::AnyImage;
use plan_svg::plan_svg;
use std::alloc::{AllocError, Global};
use tool_inputs::{CommandLine, DB_LIMIT, DesignInput, IMAGE_LIMIT, Words, run_tool};
use tool_run::{Host, Job, Load, PieceTool, Stop};

/// Draws the plan of an image, by a database. The image is read under the layouts of a layout file if one is named.
#[derive(Clone, Copy, Debug, PartialEq, Eq)]
pub(crate) struct Planning {
    /// Whether pins of every kind are taken.
    pub(crate) all_pins: bool,
}

impl PieceTool for Planning {
    ghost use Rattle.tool_inputs.specs.DesignInput.{TakesInput, fed_input};
    ghost use Rattle.fabric_tools.specs.Plan.{plan_answer};

    type Intake = DesignInput;

    type Made = Vec<u8>;

    ghost answer_of = { λ tool layout texts. plan_answer tool.all_pins layout texts };

    ghost takes = { λ tool layout texts intake bytes. TakesInput layout texts intake bytes };

    ghost fed = { fed_input };

    fn begin(&self, alloc: Global, layout: Option<&[u8]>) -> Result<DesignInput, Stop<'static>> {
        DesignInput::begin(alloc, layout)
    }

    fn feed(&self, intake: &mut DesignInput, piece: &[u8]) {
        intake.feed(piece);
    }

    fn close(&self, intake: &mut DesignInput) {
        intake.close();
    }

    fn finish(&self, alloc: Global, intake: DesignInput) -> Result<Vec<u8>, Stop<'_>> {
        planned_text(alloc, self.all_pins, intake)
    }
}

// The picture, after the last piece of the image.
fn planned_text(
    alloc: Global,
    all_pins: bool,
    intake: DesignInput,
) -> Result<Vec<u8>, Stop<'static>>
    ensures bytes { IfOk result (λ bytes. (layout : Option (List ℕ)) (texts : List (List ℕ)) → TakesInput layout texts intake []
        → plan_answer all_pins layout texts ≡ Done bytes.items) }
    ensures stops { IfErr result (λ stop. (layout : Option (List ℕ)) (texts : List (List ℕ)) → TakesInput layout texts intake []
        → StopsWith (plan_answer all_pins layout texts) stop) }
{
    match intake.read(alloc) {
        Ok((db, image)) => plan_text(alloc, &db, &image, all_pins),
        Err(stop) => Err(stop),
    }
}

// The picture of an image by a database.
#[tactic(auto, using(crate::proofs::Planned::stops_planned, crate::proofs::Planned::planned_done))]
fn plan_text(
    alloc: Global,
    db: &ChipDb,
    image: &AnyImage,
    all_pins: bool,
) -> Result<Vec<u8>, Stop<'static>>
    ensures bytes { IfOk result (λ bytes. planned all_pins (database_in db.now) (configuration_of image.now) ≡ Done bytes.items) }
    ensures stops { IfErr result (StopsWith (planned all_pins (database_in db.now) (configuration_of image.now))) }
{
    match floor_plan(alloc, db, image, all_pins) {
        Ok(plan) => Ok(plan_svg(alloc, &plan, None)?),
        Err(fault) => Err(stat_stop(fault)),
    }
}

// Does a request without a pin file: loads its files and draws.
fn draw_plain<H: Host>(alloc: Global, request: PlanRequest<'_>, host: &mut H) -> u8
    ensures { Does H.outside (draw_task request.entry.all_pins (text_of request.entry.layout) request.entry.db.now (text_of request.entry.image)) result (H.scene host.old) (H.scene host.new) }
{
    let loads = [
        Load {
            name: Some(request.db),
            limit: DB_LIMIT,
        },
        Load {
            name: request.image,
            limit: IMAGE_LIMIT,
        },
    ];
    let tool = Planning {
        all_pins: request.all_pins,
    };
    let job = Job {
        tool_name: "icebox_plan",
        loads: &loads,
        target: None,
    };
    host.perform_in_pieces(alloc, &tool, request.layout, &job)
}

// Does a request: loads its files and draws.
fn draw_files<H: Host>(alloc: Global, request: PlanRequest<'_>, host: &mut H) -> u8
    ensures { Does H.outside (plan_task_for (Some request.entry)) result (H.scene host.old) (H.scene host.new) }
{
    match request.pins {
        None => draw_plain(alloc, request, host),
        Some(pins) => draw_named(alloc, request, pins, host),
    }
}

/// `icebox_plan` by its command line.
#[derive(Clone, Copy, Debug, PartialEq, Eq)]
pub(crate) struct IceboxPlan;

impl CommandLine for IceboxPlan {
    ghost use Rattle.fabric_tools.specs.Plan.{icebox_plan};
    ghost use Rattle.fabric_tools.specs.Laws.{plan-simple, plan-speaks};

    ghost manual = { icebox_plan };

    fn words(&self) -> Words {
        Words {
            name: "icebox_plan",
            usage: ICEBOX_PLAN_USAGE,
            help: ICEBOX_PLAN_HELP,
        }
    }

    fn command<'a>(&self, alloc: Global) -> Result<Command<'a>, AllocError> {
        command(alloc)
    }

    fn perform<H: Host>(
        &self,
        alloc: Global,
        matches: &ArgMatches<'_>,
        host: &mut H,
    ) -> Option<u8> {
        let request = request_in(matches)?;
        Some(draw_files(alloc, request, host))
    }

    ghost simple = { plan-simple };

    ghost speaks = { plan-speaks };
}

/// Runs `icebox_plan` with these arguments, the first of which is its name, and answers the exit status.
pub fn run_icebox_plan<H: Host>(alloc: Global, args: &[String], host: &mut H) -> u8
    ensures { Does H.outside (plan_outcome (map string_bytes args.now)) result (H.scene host.old) (H.scene host.new) }
{
    run_tool(alloc, &IceboxPlan, args, host)
}
