// What the bits of a tile mean, part by part.
ghost use Rattle.std.specs.Prelude.{◌≡◌, ◌++◌, ◌∷◌, [], if◌then◌else◌, map, IfOk, OnOk};
ghost use Rattle.ice_image.specs.Either.{configuration_of};
ghost use Rattle.chipdb_reader.specs.Kept.{database_in};
ghost use Rattle.image_explain.specs.Cells.{places_of_cells};
ghost use Rattle.image_explain.specs.Items.{items_at, items_of_tile, on_links};
ghost use Rattle.image_explain.specs.Inside.{IsTileAt};

use crate::cells::{Cells, push_cells};
use crate::functions::functions_on;
use crate::item::Active;
use crate::known::known_bits;
use crate::links::links_in;
use crate::unknown::push_unknown;
use chipdb_reader::ChipDb;
use ice_image::AnyImage;
use plane_map::{TileKind, kind_on};
use std::alloc::{AllocError, Global};

/// A tile: its kind, and its place in the grid.
#[derive(Clone, Copy, Debug, PartialEq, Eq)]
pub(crate) struct TileAt {
    pub(crate) kind: TileKind,
    pub(crate) x: u8,
    pub(crate) y: u8,
}

/// What the bits of the tile at (x, y) mean: its logic cells that have a set bit, then its other functions, its buffers and its routings
/// that are on, each in the order of the database, and at last its other set bits by row and column. Empty if there is no tile. The
/// database must be for the image's device.
///
/// # Errors
/// `AllocError` if memory is out, and for no other cause.
#[tactic(auto, unfolding(crate::specs::Items::items_at))]
pub fn active(
    alloc: Global,
    db: &ChipDb,
    image: &AnyImage,
    x: u8,
    y: u8,
) -> Result<Vec<Active>, AllocError>
    requires { db.now.chip.device ≡ (configuration_of image.now).layout.device }
    ensures { IfOk result (λ items. items.items ≡ items_at (database_in db.now) (configuration_of image.now) x y) }
{
    match kind_on(image.device(), u32::from(x), u32::from(y)) {
        None => Ok(Vec::new(alloc)),
        Some(kind) => {
            let at = TileAt { kind, x, y };
            let cells = Cells::of(db);
            let buffers = links_in(alloc, db, image, db.buffers(), x, y)?;
            let routings = links_in(alloc, db, image, db.routings(), x, y)?;
            items_of_tile(alloc, db, image, at, cells, &buffers, &routings)
        }
    }
}

/// What the bits of a tile mean, given the indexes of the buffers and routings that are on there.
pub(crate) fn items_of_tile(
    alloc: Global,
    db: &ChipDb,
    image: &AnyImage,
    at: TileAt,
    cells: Cells,
    buffers: &[usize],
    routings: &[usize],
) -> Result<Vec<Active>, AllocError>
    requires device { db.now.chip.device ≡ (configuration_of image.now).layout.device }
    requires tile { IsTileAt (configuration_of image.now).layout.device at }
    requires cells { cells.places ≡ places_of_cells (database_in db.now).functions }
    requires buffers { buffers.now ≡ on_links (configuration_of image.now) at.x at.y (database_in db.now).buffers }
    requires routings { routings.now ≡ on_links (configuration_of image.now) at.x at.y (database_in db.now).routings }
    ensures { IfOk result (λ items. items.items ≡ items_of_tile (database_in db.now) (configuration_of image.now) at.x at.y at.kind) }
{
    let functions = functions_on(alloc, db, image, at, cells)?;
    let known = known_bits(db, at.kind, cells, &functions, buffers, routings);
    let mut items = Vec::new(alloc);
    push_cells(&mut items, db, image, at, cells)?;
    push_functions(&mut items, &functions)?;
    push_buffers(&mut items, buffers)?;
    push_routings(&mut items, routings)?;
    push_unknown(&mut items, image, at, &known)?;
    Ok(items)
}

/// Adds an index, if a test passes.
pub(crate) fn push_where(
    places: &mut Vec<usize>,
    passes: bool,
    place: usize,
) -> Result<(), AllocError>
    ensures { OnOk result (places.new.items ≡ places.old.items ++ (if passes then place ∷ [] else [])) }
{
    if passes {
        places.push(place)?;
    }
    Ok(())
}

/// Adds the functions at these indexes.
fn push_functions(items: &mut Vec<Active>, places: &[usize]) -> Result<(), AllocError>
    ensures { OnOk result (items.new.items ≡ items.old.items ++ map Active.Function places.now) }
{
    for index in places {
        items.push(Active::Function { index: *index })?;
    }
    Ok(())
}

/// Adds the buffers at these indexes.
fn push_buffers(items: &mut Vec<Active>, places: &[usize]) -> Result<(), AllocError>
    ensures { OnOk result (items.new.items ≡ items.old.items ++ map Active.Buffer places.now) }
{
    for index in places {
        items.push(Active::Buffer { index: *index })?;
    }
    Ok(())
}

/// Adds the routings at these indexes.
fn push_routings(items: &mut Vec<Active>, places: &[usize]) -> Result<(), AllocError>
    ensures { OnOk result (items.new.items ≡ items.old.items ++ map Active.Routing places.now) }
{
    for index in places {
        items.push(Active::Routing { index: *index })?;
    }
    Ok(())
}
