// `icebox_plan` with a pin file: draws what an image uses, and pins have the names of the file.
ghost use Rattle.std.specs.Prelude.{◌≡◌, [], ℕ, List, Option, IfOk, IfErr};
ghost use Rattle.ice_image.specs.Either.{configuration_of};
ghost use Rattle.chipdb_reader.specs.Kept.{database_in};
ghost use Rattle.pin_file.specs.Feeding.{kept_in};
ghost use Rattle.pin_file.specs.Packages.{package_of};
ghost use Rattle.plan_marks.specs.Plans.{plan_in};
ghost use Rattle.tool_run.specs.Collected.{Collects};
ghost use Rattle.tool_run.specs.Needs.{text_of};
ghost use Rattle.tool_run.specs.Runs.{Does};
ghost use Rattle.tool_run.specs.Stops.{StopsWith};
ghost use Rattle.tool_run.specs.Tasks.{Done};
ghost use Rattle.design_answers.specs.PinRequests.{pins_named};
ghost use Rattle.design_answers.specs.Pins.{HasPins};
ghost use Rattle.design_answers.specs.Taken.{TakesNamed};
ghost use Rattle.fabric_tools.specs.Plan.{draw_named_task, named_answer, named_plan, planned_named};

use crate::faults::stat_stop;
use crate::plan_request::PlanRequest;
use chipdb_reader::ChipDb;
use design_answers::{NamedIntake, PINS_LIMIT, PinRequest, package_pins, pin_stop};
use floor_plan::floor_plan;
use ice_image::AnyImage;
use pin_file::{PackagePins, PinReader, given_names};
use plan_marks::FloorPlan;
use plan_svg::plan_svg;
use std::alloc::Global;
use tool_inputs::{DB_LIMIT, IMAGE_LIMIT};
use tool_run::{Collected, Host, Job, Load, PieceTool, Stop};

/// Draws the plan of an image, by a database, with the names of a pin file. The pin file comes first. The image is read under the layouts of the
/// layout file, if one is named.
#[derive(Clone, Copy, Debug, PartialEq, Eq)]
struct NamedPlanning<'a> {
    /// Whether pins of every kind are taken.
    all_pins: bool,
    /// The package whose pins the pin file names.
    package_name: &'a str,
}

impl<'a> PieceTool for NamedPlanning<'a> {
    ghost use Rattle.design_answers.specs.Taken.{TakesNamed, fed_named};
    ghost use Rattle.fabric_tools.specs.Plan.{named_answer};

    type Intake = NamedIntake;

    type Made = Vec<u8>;

    ghost answer_of = { λ tool layout texts. named_answer tool.all_pins layout tool.package_name.now texts };

    ghost takes = { λ tool layout texts intake bytes. TakesNamed tool.package_name.now layout texts intake bytes };

    ghost fed = { fed_named };

    fn begin(&self, alloc: Global, layout: Option<&[u8]>) -> Result<NamedIntake, Stop<'static>> {
        NamedIntake::begin(alloc, layout, self.package_name)
    }

    fn feed(&self, intake: &mut NamedIntake, piece: &[u8]) {
        intake.feed(piece);
    }

    fn close(&self, intake: &mut NamedIntake) {
        intake.close();
    }

    fn finish(&self, alloc: Global, intake: NamedIntake) -> Result<Vec<u8>, Stop<'_>> {
        named_after(alloc, self.all_pins, intake)
    }
}

// The picture with the names of the pin file. Called after the last piece of the image.
fn named_after(alloc: Global, all_pins: bool, intake: NamedIntake) -> Result<Vec<u8>, Stop<'static>>
    ensures bytes { IfOk result (λ bytes. (package_name : List ℕ) (layout : Option (List ℕ)) (texts : List (List ℕ))
        → TakesNamed package_name layout texts intake [] → named_answer all_pins layout package_name texts ≡ Done bytes.items) }
    ensures stops { IfErr result (λ stop. (package_name : List ℕ) (layout : Option (List ℕ)) (texts : List (List ℕ))
        → TakesNamed package_name layout texts intake [] → StopsWith (named_answer all_pins layout package_name texts) stop) }
{
    let NamedIntake {
        file,
        input,
        pins,
        ..
    } = intake;
    match input.read(alloc) {
        Ok((db, image)) => named_text_of(alloc, &db, &image, all_pins, &file, pins),
        Err(stop) => Err(stop),
    }
}

// The picture of an image by a database, with the names of a pin file.
fn named_text_of(
    alloc: Global,
    db: &ChipDb,
    image: &AnyImage,
    all_pins: bool,
    file: &Collected,
    pins: Option<PinReader>,
) -> Result<Vec<u8>, Stop<'static>>
    ensures bytes { IfOk result (λ bytes. (package_name text pin_text : List ℕ) → HasPins package_name text pins → Collects pin_text file.now
        → planned_named all_pins (package_of package_name text) pin_text (database_in db.now) (configuration_of image.now) ≡ Done bytes.items) }
    ensures stops { IfErr result (λ stop. (package_name text pin_text : List ℕ) → HasPins package_name text pins → Collects pin_text file.now
        → StopsWith (planned_named all_pins (package_of package_name text) pin_text (database_in db.now) (configuration_of image.now)) stop) }
{
    match floor_plan(alloc, db, image, all_pins) {
        Ok(plan) => named_plan_text(alloc, &plan, file, pins),
        Err(fault) => Err(stat_stop(fault)),
    }
}

// The picture of a plan with the names of a pin file.
fn named_plan_text(
    alloc: Global,
    plan: &FloorPlan,
    file: &Collected,
    pins: Option<PinReader>,
) -> Result<Vec<u8>, Stop<'static>>
    ensures bytes { IfOk result (λ bytes. (package_name text pin_text : List ℕ) → HasPins package_name text pins → Collects pin_text file.now
        → named_plan (plan_in plan.now) (package_of package_name text) pin_text ≡ Done bytes.items) }
    ensures stops { IfErr result (λ stop. (package_name text pin_text : List ℕ) → HasPins package_name text pins → Collects pin_text file.now
        → StopsWith (named_plan (plan_in plan.now) (package_of package_name text) pin_text) stop) }
{
    let pins = package_pins(pins)?;
    let text = file.text()?;
    text_by_pins(alloc, plan, &pins, text)
}

// The picture of a plan with the names of a pin file, from the text of the file and the pins of its package.
#[tactic(auto, using(crate::proofs::Planned::named_done, crate::proofs::Planned::pins_stop))]
fn text_by_pins(
    alloc: Global,
    plan: &FloorPlan,
    pins: &PackagePins,
    text: &[u8],
) -> Result<Vec<u8>, Stop<'static>>
    ensures bytes { IfOk result (λ bytes. named_plan (plan_in plan.now) (kept_in pins.now) text.now ≡ Done bytes.items) }
    ensures stops { IfErr result (StopsWith (named_plan (plan_in plan.now) (kept_in pins.now) text.now)) }
{
    match given_names(alloc, text, pins) {
        Ok(names) => Ok(plan_svg(alloc, plan, Some(&names))?),
        Err(fault) => Err(pin_stop(fault)),
    }
}

/// Does a request with a pin file: loads its files and draws.
pub(crate) fn draw_named<H: Host>(
    alloc: Global,
    request: PlanRequest<'_>,
    pins: PinRequest<'_>,
    host: &mut H,
) -> u8
    ensures { Does H.outside (draw_named_task request.entry.all_pins (pins_named pins.entry) (text_of request.entry.layout) request.entry.db.now (text_of request.entry.image)) result (H.scene host.old) (H.scene host.new) }
{
    let loads = [
        Load {
            name: Some(pins.file),
            limit: PINS_LIMIT,
        },
        Load {
            name: Some(request.db),
            limit: DB_LIMIT,
        },
        Load {
            name: request.image,
            limit: IMAGE_LIMIT,
        },
    ];
    let tool = NamedPlanning {
        all_pins: request.all_pins,
        package_name: pins.package_name,
    };
    let job = Job {
        tool_name: "icebox_plan",
        loads: &loads,
        target: None,
    };
    host.perform_in_pieces(alloc, &tool, request.layout, &job)
}
