// The tiles of a kind.
ghost use Rattle.std.specs.Prelude.{◌≡◌, ◌<◌, ◌++◌, All, IfOk, OnOk, Some};
ghost use Rattle.plane_map.specs.Layout.{kind_of, grid_width, grid_height};
ghost use Rattle.index_search.specs.Places.{gathered_below};
ghost use Rattle.fabric_model.specs.TilesOfKind.{tiles_of, tile_if, HasTile};
ghost use Rattle.ice_image.specs.Either.{configuration_of, device_of};

use chipdb_reader::TileXy8;
use ice_image::AnyImage;
use plane_map::{DeviceName, TileKind, kind_on};
use std::alloc::{AllocError, Global};

/// The tiles of a kind that an image has, by row, then by column.
///
/// # Errors
/// `AllocError` if memory is out, and for no other cause.
pub fn tiles_of_image(
    alloc: Global,
    image: &AnyImage,
    kind: TileKind,
) -> Result<Vec<TileXy8>, AllocError>
    ensures all { IfOk result (λ tiles. tiles.items ≡ tiles_of (configuration_of image.now).layout.device kind) }
    ensures each { IfOk result (λ tiles. All (λ tile. HasTile image.now kind tile.x tile.y) tiles.items) }
{
    tiles_of_device(alloc, image.device(), kind)
}

/// The tiles of a kind that a device has.
fn tiles_of_device(
    alloc: Global,
    device: DeviceName,
    kind: TileKind,
) -> Result<Vec<TileXy8>, AllocError>
    ensures all { IfOk result (λ tiles. tiles.items ≡ tiles_of device kind) }
    ensures each { IfOk result (λ tiles. All (λ tile. kind_of device tile.x tile.y ≡ Some kind) tiles.items) }
{
    let mut tiles = Vec::new(alloc);
    for y in 0..device.rows() as u8 {
        append_row(&mut tiles, device, kind, y)?;
    }
    Ok(tiles)
}

/// Appends the tiles of a row.
fn append_row(
    tiles: &mut Vec<TileXy8>,
    device: DeviceName,
    kind: TileKind,
    y: u8,
) -> Result<(), AllocError>
    ensures { OnOk result (tiles.new.items ≡ tiles.old.items ++ gathered_below (grid_width device) (λ x. tile_if device kind x y)) }
{
    for x in 0..device.columns() as u8 {
        append_place(tiles, device, kind, x, y)?;
    }
    Ok(())
}

/// Appends the tile at (x, y) if it is of that kind.
fn append_place(
    tiles: &mut Vec<TileXy8>,
    device: DeviceName,
    kind: TileKind,
    x: u8,
    y: u8,
) -> Result<(), AllocError>
    ensures { OnOk result (tiles.new.items ≡ tiles.old.items ++ tile_if device kind x y) }
{
    match kind_on(device, u32::from(x), u32::from(y)) {
        Some(there) if there == kind => {
            tiles.push(TileXy8 { x, y })?;
            Ok(())
        }
        _ => Ok(()),
    }
}
