// The floor plan of a database and an image.
ghost use Rattle.std.specs.Prelude.{◌≡◌, ◌++◌, ◌<◌, All, IfErr, IfOk, None, OnOk, map};
ghost use Rattle.ice_image.specs.Either.{configuration_of};
ghost use Rattle.chipdb_reader.specs.Kept.{database_in};
ghost use Rattle.fabric_model.specs.Cells.{cells_of};
ghost use Rattle.fabric_model.specs.Links.{AreLinks};
ghost use Rattle.fabric_model.specs.Pins.{globals_of, pins_of};
ghost use Rattle.fabric_model.specs.Plls.{pll_sources};
ghost use Rattle.fabric_model.specs.Rams.{rams_of};
ghost use Rattle.image_stat.specs.Faults.{IsCause, stat_fault};
ghost use Rattle.plan_marks.specs.Plans.{plan_in};
ghost use Rattle.floor_plan.specs.ByTile.{CountsLinks, IsLinkNear};
ghost use Rattle.floor_plan.specs.Marks.{cell_mark, lower_mark, marks_of, pin_mark, upper_mark};
ghost use Rattle.floor_plan.specs.Plans.{floor_plan};

use crate::by_tile::MarksByTile;
use crate::globals::global_marks;
use crate::links::{count_links, no_counts};
use crate::marks::{push_cells, push_lower, push_pins, push_upper};
use crate::plls::plls_of;
use crate::tiles::tiles;
use chipdb_reader::{ChipDb, LinkLine};
use fabric_model::Links;
use ice_image::AnyImage;
use image_stat::{StatFault, UsedParts, used_parts};
use plan_marks::{FloorPlan, Mark};
use std::alloc::{AllocError, Global};

/// The floor plan of an image, by the names of a chip database. `all_pins` says whether pins of every kind are taken. Each used logic cell, each
/// used RAM and each pin that is a port stands in it once, and their counts are those of `image_stat`: these are laws of the plan,
/// [`parts_stand_once`](crate::parts_stand_once) and [`marks_are_counted`](crate::marks_are_counted).
///
/// # Errors
/// Those of `image_stat::stat`.
///
/// # Example
/// ```ignore
/// use floor_plan::floor_plan;
///
/// let plan = floor_plan(alloc, &db, &image, false)?; // `db` is a `ChipDb`, and `image` an `AnyImage`
/// ```
pub fn floor_plan(
    alloc: Global,
    db: &ChipDb,
    image: &AnyImage,
    all_pins: bool,
) -> Result<FloorPlan, StatFault>
    ensures plan { IfOk result (λ plan. plan_in plan ≡ floor_plan all_pins (database_in db.now) (configuration_of image.now)) }
    ensures taken { OnOk result (stat_fault all_pins (database_in db.now) (configuration_of image.now) ≡ None) }
    ensures refused { IfErr result (IsCause (stat_fault all_pins (database_in db.now) (configuration_of image.now))) }
{
    let parts = used_parts(alloc, db, image, all_pins)?;
    Ok(plan_of(alloc, db, image, all_pins, &parts)?)
}

/// The floor plan of the parts that an image uses.
fn plan_of(
    alloc: Global,
    db: &ChipDb,
    image: &AnyImage,
    all_pins: bool,
    parts: &UsedParts,
) -> Result<FloorPlan, AllocError>
    requires device { db.now.chip.device ≡ (configuration_of image.now).layout.device }
    requires links { AreLinks (database_in db.now) (configuration_of image.now) parts.now.links }
    requires sources { parts.now.sources.items ≡ pll_sources all_pins (database_in db.now) (configuration_of image.now) }
    requires pins { parts.now.pins.pins.items ≡ pins_of all_pins (database_in db.now) (configuration_of image.now) }
    requires globals { parts.now.pins.globals.items ≡ globals_of all_pins (database_in db.now) (configuration_of image.now) }
    requires rams { parts.now.rams.items ≡ rams_of (database_in db.now) (configuration_of image.now) }
    requires cells { parts.now.cells.lcs.items ≡ cells_of (database_in db.now) (configuration_of image.now) }
    ensures { IfOk result (λ plan. plan_in plan ≡ floor_plan all_pins (database_in db.now) (configuration_of image.now)) }
{
    let (buffers, routings) = (db.buffers(), db.routings());
    let marks = marks_of(alloc, parts)?;
    let marks = MarksByTile::of(alloc, &marks)?;
    let counts = links_by_tile(alloc, buffers, routings, &parts.links)?;
    Ok(FloorPlan {
        device: image.device(),
        tiles: tiles(alloc, image.device(), &marks, &counts)?,
        plls: plls_of(alloc, &parts.sources)?,
        globals: global_marks(alloc, db, &parts.links, &parts.pins.globals)?,
    })
}

/// The marks of the parts that an image uses.
fn marks_of(alloc: Global, parts: &UsedParts) -> Result<Vec<Mark>, AllocError>
    requires { All (λ ram. ram.y < 255) parts.now.rams.items }
    ensures { IfOk result (λ marks. marks.items ≡ map cell_mark parts.now.cells.lcs.items ++ map lower_mark parts.now.rams.items ++ map upper_mark parts.now.rams.items ++ map pin_mark parts.now.pins.pins.items) }
{
    let mut marks = Vec::new(alloc);
    push_cells(&mut marks, &parts.cells.lcs)?;
    push_lower(&mut marks, &parts.rams)?;
    push_upper(&mut marks, &parts.rams)?;
    push_pins(&mut marks, &parts.pins.pins)?;
    Ok(marks)
}

/// How many links are on in each tile.
fn links_by_tile(
    alloc: Global,
    buffers: &[LinkLine],
    routings: &[LinkLine],
    links: &Links,
) -> Result<Vec<usize>, AllocError>
    requires buffers { All IsLinkNear buffers.now }
    requires routings { All IsLinkNear routings.now }
    ensures { IfOk result (λ counts. CountsLinks buffers.now routings.now links.now counts.items) }
{
    let mut counts = no_counts(alloc)?;
    count_links(&mut counts, buffers, links.buffers())?;
    count_links(&mut counts, routings, links.routings())?;
    Ok(counts)
}
