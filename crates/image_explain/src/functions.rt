// The functions that are on in a tile.
ghost use Rattle.std.specs.Prelude.{◌≡◌, ◌++◌, ◌<◌, IfOk, OnOk, length, slice_get, Some};
ghost use Rattle.ice_image.specs.Either.{configuration_of};
ghost use Rattle.chipdb_reader.specs.Fit.{IsFunctionLine};
ghost use Rattle.chipdb_reader.specs.Kept.{database_in, function_line};
ghost use Rattle.image_explain.specs.Cells.{places_of_cells};
ghost use Rattle.image_explain.specs.Inside.{IsTileAt};
ghost use Rattle.image_explain.specs.Items.{is_other_on, on_functions};

use crate::cells::Cells;
use crate::tile::{TileAt, push_where};
use chipdb_reader::{ChipDb, Function};
use fabric_model::are_set;
use ice_image::AnyImage;
use std::alloc::{AllocError, Global};

/// The indexes of the functions that are on in a tile and aren't logic cells.
#[tactic(auto, using(crate::proofs::Gathered::gathering), unfolding(crate::specs::Items::on_functions, index_search::specs::Places::gathered_below))]
pub(crate) fn functions_on(
    alloc: Global,
    db: &ChipDb,
    image: &AnyImage,
    at: TileAt,
    cells: Cells,
) -> Result<Vec<usize>, AllocError>
    requires tile { IsTileAt (configuration_of image.now).layout.device at }
    requires cells { cells.places ≡ places_of_cells (database_in db.now).functions }
    ensures { IfOk result (λ places. places.items ≡ on_functions (configuration_of image.now) at.x at.y at.kind (database_in db.now).functions) }
{
    let mut places = Vec::new(alloc);
    for (index, function) in db.functions().iter().enumerate() {
        let is_on = is_other_on(db, image, at, cells, index, *function);
        push_where(&mut places, is_on, index)?;
    }
    Ok(places)
}

/// Whether the function at an index is on in a tile and isn't a logic cell.
fn is_other_on(
    db: &ChipDb,
    image: &AnyImage,
    at: TileAt,
    cells: Cells,
    place: usize,
    function: Function,
) -> bool
    requires tile { IsTileAt (configuration_of image.now).layout.device at }
    requires cells { cells.places ≡ places_of_cells (database_in db.now).functions }
    requires fit { IsFunctionLine (function_line db.now.texts db.now.bits function) }
    ensures { result ≡ is_other_on (configuration_of image.now) at.x at.y at.kind (database_in db.now).functions place (function_line db.now.texts db.now.bits function) }
{
    function.kind == at.kind
        && are_set(image, at.kind, at.x, at.y, db.bits(function.bits))
        && !cells.has(place)
}
