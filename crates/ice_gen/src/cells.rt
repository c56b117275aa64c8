// The bits of logic cells.
ghost use Rattle.std.specs.Prelude.{◌≡◌, ◌<◌, ◌+◌, ◌*◌, ◌/◌, ◌==◌, ◌&&◌, slice_index, Some};
ghost use Rattle.plane_map.specs.Layout.{grid_height, grid_width, kind_of};
ghost use Rattle.ice_image.specs.Either.{configuration_of, device_of};
ghost use Rattle.fabric_model.specs.Cells.{entry_bits};
ghost use Rattle.ice_gen.specs.Numbers.{cell_number as cell_number_of};
ghost use Rattle.ice_gen.specs.Image.{is_entry, is_cell_bit as cell_bit_of, is_row_bit as row_bit_of};
ghost use Rattle.ice_gen.specs.Inside.{FillsRow, IsFilled, is_tile_before, turn};

use crate::bits::fill_tile_bit;
use crate::draws::Draws;
use crate::numbers::{cell_number, rams};
use ice_image::AnyImage;
use plane_map::{DeviceName, TileBit, TileKind};

/// The places of the LUT entries among the twenty bits of a logic cell, entry 0 first. Source: Project IceStorm, 'LOGIC Tile'.
const ENTRY_BITS: [u8; 16] = [4, 14, 15, 5, 6, 16, 17, 7, 3, 13, 12, 2, 1, 11, 10, 0];

/// Sets the bits of the cells of a logic tile that are 1.
pub(crate) fn fill_cells(image: &mut AnyImage, draws: &mut Draws, x: u8, y: u8)
    requires logic { kind_of (device_of image.old) x y ≡ Some TileKind.Logic }
    requires count { draws.old.count ≡ 2 * cell_number_of (device_of image.old) x y 0 }
    requires filled { IsFilled (device_of image.old) draws.old.seed (is_tile_before (turn x y 0 0)) (configuration_of image.old) }
    ensures device { device_of image.new ≡ device_of image.old }
    ensures seed { draws.new.seed ≡ draws.old.seed }
    ensures count { draws.new.count ≡ draws.old.count + 16 }
    ensures filled { IsFilled (device_of image.old) draws.old.seed (is_tile_before (turn x y 16 0)) (configuration_of image.new) }
{
    for i in 0..8 {
        fill_cell(image, draws, x, y, i);
    }
}

/// Sets the bits of cell `i` of a logic tile that are 1.
fn fill_cell(image: &mut AnyImage, draws: &mut Draws, x: u8, y: u8, i: u8)
    requires logic { kind_of (device_of image.old) x y ≡ Some TileKind.Logic }
    requires cell { i < 8 }
    requires count { draws.old.count ≡ 2 * cell_number_of (device_of image.old) x y i }
    requires filled { IsFilled (device_of image.old) draws.old.seed (is_tile_before (turn x y (2 * i) 0)) (configuration_of image.old) }
    ensures device { device_of image.new ≡ device_of image.old }
    ensures seed { draws.new.seed ≡ draws.old.seed }
    ensures count { draws.new.count ≡ draws.old.count + 2 }
    ensures filled { IsFilled (device_of image.old) draws.old.seed (is_tile_before (turn x y (2 * i + 2) 0)) (configuration_of image.new) }
{
    let lut = draws.next();
    let choice = draws.next();
    fill_row(image, lut, choice, x, y, 2 * i);
    fill_row(image, lut, choice, x, y, 2 * i + 1);
}

/// Sets the bits of one of the two rows of a cell that are 1.
fn fill_row(image: &mut AnyImage, lut: u16, choice: u16, x: u8, y: u8, row: u8)
    requires logic { kind_of (device_of image.old) x y ≡ Some TileKind.Logic }
    requires row { row < 16 }
    ensures device { device_of image.new ≡ device_of image.old }
    ensures filled { FillsRow (device_of image.old) (cell_number_of (device_of image.old) x y (row / 2)) lut choice (turn x y row 0) (turn x y (row + 1) 0) (configuration_of image.old) (configuration_of image.new) }
{
    let device = image.device();
    let j = cell_number(device, u32::from(x), u32::from(y), u32::from(row / 2));
    for col in 0..54 {
        let bit = is_row_bit(device, j, lut, choice, row % 2, col);
        fill_tile_bit(image, TileBit { x, y, row, col }, bit);
    }
}

/// Whether a bit of one of the two rows of cell `j` is 1.
#[tactic(auto, unfolding(crate::specs::Image::is_row_bit))]
fn is_row_bit(device: DeviceName, j: u32, lut: u16, choice: u16, row: u8, col: u8) -> bool
    requires { row < 2 }
    ensures { result ≡ row_bit_of device j lut choice row col }
{
    if col == 0 {
        (choice & 1 == 1) == (row == 1)
    } else if col == 1 {
        row == 0 && j < rams(device)
    } else if 36 <= col && col < 46 {
        is_cell_bit(lut, choice, 10 * row + (col - 36))
    } else {
        false
    }
}

/// Whether one of the twenty bits of a cell is 1.
#[tactic(auto, unfolding(crate::specs::Image::is_cell_bit))]
fn is_cell_bit(lut: u16, choice: u16, place: u8) -> bool
    ensures { result ≡ cell_bit_of lut choice place }
{
    for k in 0..16 {
        if is_entry_at(lut, place, k) {
            return true;
        }
    }
    place == 9 && choice >> 1 & 1 == 1
}

/// Whether entry `k` of a LUT is at that place among the twenty bits, and is 1.
#[tactic(auto, unfolding(fabric_model::specs::Cells::entry_bits))]
fn is_entry_at(lut: u16, place: u8, k: usize) -> bool
    requires { k < 16 }
    ensures { result ≡ ((slice_index entry_bits k == place) && is_entry lut k) }
{
    ENTRY_BITS[k] == place && (k == 0 || lut >> k & 1 == 1)
}
