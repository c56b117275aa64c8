// The bits of all tiles.
ghost use Rattle.std.specs.Prelude.{◌≡◌, true, ◌<◌, ◌+◌, ◌*◌};
ghost use Rattle.plane_map.specs.Devices.{has_database};
ghost use Rattle.plane_map.specs.Layout.{grid_height, grid_width};
ghost use Rattle.ice_image.specs.Either.{configuration_of, device_of};
ghost use Rattle.ice_gen.specs.Numbers.{cells};
ghost use Rattle.ice_gen.specs.Inside.{IsFilled, is_tile_before, is_word_before, logic_before, turn};

use crate::cells::fill_cells;
use crate::draws::Draws;
use crate::pins::fill_pins;
use ice_image::AnyImage;
use plane_map::{TileKind, kind_on};

/// Sets the bits of all tiles that are 1, row by row of the grid.
pub(crate) fn fill_tiles(image: &mut AnyImage, draws: &mut Draws)
    requires database { has_database (device_of image.old) ≡ true }
    requires first { draws.old.count ≡ 0 }
    requires filled { IsFilled (device_of image.old) draws.old.seed (is_tile_before 0) (configuration_of image.old) }
    ensures device { device_of image.new ≡ device_of image.old }
    ensures seed { draws.new.seed ≡ draws.old.seed }
    ensures count { draws.new.count ≡ 2 * cells (device_of image.old) }
    ensures filled { IsFilled (device_of image.old) draws.old.seed (is_word_before 0) (configuration_of image.new) }
{
    for y in 0..image.device().rows() {
        fill_grid_row(image, draws, y as u8);
    }
}

/// Sets the bits of the tiles in a row of the grid that are 1.
fn fill_grid_row(image: &mut AnyImage, draws: &mut Draws, y: u8)
    requires database { has_database (device_of image.old) ≡ true }
    requires row { y < grid_height (device_of image.old) }
    requires count { draws.old.count ≡ 16 * logic_before (device_of image.old) 0 y }
    requires filled { IsFilled (device_of image.old) draws.old.seed (is_tile_before (turn 0 y 0 0)) (configuration_of image.old) }
    ensures device { device_of image.new ≡ device_of image.old }
    ensures seed { draws.new.seed ≡ draws.old.seed }
    ensures count { draws.new.count ≡ 16 * logic_before (device_of image.old) 0 (y + 1) }
    ensures filled { IsFilled (device_of image.old) draws.old.seed (is_tile_before (turn 0 (y + 1) 0 0)) (configuration_of image.new) }
{
    for x in 0..image.device().columns() {
        fill_tile(image, draws, x as u8, y);
    }
}

/// Sets the bits of the tile at (x, y) that are 1.
fn fill_tile(image: &mut AnyImage, draws: &mut Draws, x: u8, y: u8)
    requires database { has_database (device_of image.old) ≡ true }
    requires column { x < grid_width (device_of image.old) }
    requires row { y < grid_height (device_of image.old) }
    requires count { draws.old.count ≡ 16 * logic_before (device_of image.old) x y }
    requires filled { IsFilled (device_of image.old) draws.old.seed (is_tile_before (turn x y 0 0)) (configuration_of image.old) }
    ensures device { device_of image.new ≡ device_of image.old }
    ensures seed { draws.new.seed ≡ draws.old.seed }
    ensures count { draws.new.count ≡ 16 * logic_before (device_of image.old) (x + 1) y }
    ensures filled { IsFilled (device_of image.old) draws.old.seed (is_tile_before (turn (x + 1) y 0 0)) (configuration_of image.new) }
{
    match kind_on(image.device(), u32::from(x), u32::from(y)) {
        Some(TileKind::Io) => fill_pins(image, x, y),
        Some(TileKind::Logic) => fill_cells(image, draws, x, y),
        Some(TileKind::RamB) => {}
        Some(TileKind::RamT) => {}
        None => {}
    }
}
