// All cells of an image.
ghost use Rattle.std.specs.Prelude.{◌≡◌, ◌++◌, All, IfOk, OnOk};
ghost use Rattle.std.specs.List.{flat_map};
ghost use Rattle.plane_map.specs.declared.tile.TileKind.TheVariants.{Logic};
ghost use Rattle.ice_image.specs.Either.{configuration_of};
ghost use Rattle.chipdb_reader.specs.Kept.{database_in};
ghost use Rattle.fabric_model.specs.Cells.{cells_of, cells_at, sets_of, sets_at, used_cell};
ghost use Rattle.fabric_model.specs.TilesOfKind.{HasTile};

use crate::logic::cell::{Cells, cell};
use chipdb_reader::{ChipDb, TileXy8};
use fabric_model::{CarrySet, LogicCell, cell_places, is_on, is_one_set, tiles_of_image};
use ice_image::AnyImage;
use plane_map::TileKind;
use std::alloc::{AllocError, Global};

/// Finds the logic cells that an image uses, and the carry inputs that it sets.
///
/// # Errors
/// `AllocError` if memory is out, and for no other cause.
pub fn cells(alloc: Global, db: &ChipDb, image: &AnyImage) -> Result<Cells, AllocError>
    ensures cells { IfOk result (λ cells. cells.lcs.items ≡ cells_of (database_in db.now) (configuration_of image.now)) }
    ensures sets { IfOk result (λ cells. cells.sets.items ≡ sets_of (database_in db.now) (configuration_of image.now)) }
{
    let tiles = tiles_of_image(alloc, image, TileKind::Logic)?;
    let lcs = used_cells(alloc, db, image, &tiles)?;
    let sets = carry_sets(alloc, db, image, &tiles)?;
    Ok(Cells { lcs, sets })
}

/// The used cells of tiles.
fn used_cells(
    alloc: Global,
    db: &ChipDb,
    image: &AnyImage,
    tiles: &[TileXy8],
) -> Result<Vec<LogicCell>, AllocError>
    requires { All (λ tile. HasTile image.now Logic tile.x tile.y) tiles.now }
    ensures { IfOk result (λ lcs. lcs.items ≡ flat_map (λ tile. cells_at (database_in db.now) (configuration_of image.now) tile.x tile.y) tiles.now) }
{
    let mut lcs = Vec::new(alloc);
    for tile in tiles {
        append_cells(&mut lcs, db, image, tile.x, tile.y)?;
    }
    Ok(lcs)
}

/// Appends the used cells of a tile.
fn append_cells(
    lcs: &mut Vec<LogicCell>,
    db: &ChipDb,
    image: &AnyImage,
    x: u8,
    y: u8,
) -> Result<(), AllocError>
    requires { HasTile image.now Logic x y }
    ensures { OnOk result (lcs.new.items ≡ lcs.old.items ++ cells_at (database_in db.now) (configuration_of image.now) x y) }
{
    for i in 0..8 {
        append_cell(lcs, db, image, x, y, i)?;
    }
    Ok(())
}

/// Appends a cell if it is used.
#[tactic(auto, unfolding(fabric_model::specs::Cells::cell_bits))]
fn append_cell(
    lcs: &mut Vec<LogicCell>,
    db: &ChipDb,
    image: &AnyImage,
    x: u8,
    y: u8,
    i: u8,
) -> Result<(), AllocError>
    requires { HasTile image.now Logic x y }
    ensures { OnOk result (lcs.new.items ≡ lcs.old.items ++ used_cell (database_in db.now) (configuration_of image.now) x y i) }
{
    let bits = cell_places(db, i);
    if is_one_set(image, TileKind::Logic, x, y, bits) {
        lcs.push(cell(db, image, x, y, i, bits))?;
    }
    Ok(())
}

/// The carry inputs that are set, in some tiles.
fn carry_sets(
    alloc: Global,
    db: &ChipDb,
    image: &AnyImage,
    tiles: &[TileXy8],
) -> Result<Vec<CarrySet>, AllocError>
    requires { All (λ tile. HasTile image.now Logic tile.x tile.y) tiles.now }
    ensures { IfOk result (λ sets. sets.items ≡ flat_map (λ tile. sets_at (database_in db.now) (configuration_of image.now) tile.x tile.y) tiles.now) }
{
    let mut sets = Vec::new(alloc);
    for tile in tiles {
        append_set(&mut sets, db, image, tile.x, tile.y)?;
    }
    Ok(sets)
}

/// Appends the carry input of a tile if it is set.
fn append_set(
    sets: &mut Vec<CarrySet>,
    db: &ChipDb,
    image: &AnyImage,
    x: u8,
    y: u8,
) -> Result<(), AllocError>
    requires { HasTile image.now Logic x y }
    ensures { OnOk result (sets.new.items ≡ sets.old.items ++ sets_at (database_in db.now) (configuration_of image.now) x y) }
{
    if !is_on(db, image, TileKind::Logic, x, y, b"CarryInSet") {
        return Ok(());
    }
    match db.net_of(x, y, b"carry_in_mux") {
        None => Ok(()),
        Some(net) => {
            sets.push(CarrySet { x, y, net })?;
            Ok(())
        }
    }
}
