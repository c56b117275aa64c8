// The words of the RAMs.
ghost use Rattle.std.specs.Prelude.{◌≡◌, true, ◌<◌, ◌+◌, ◌*◌, Some};
ghost use Rattle.plane_map.specs.Devices.{has_database};
ghost use Rattle.plane_map.specs.Layout.{grid_height, grid_width, kind_of};
ghost use Rattle.ice_image.specs.Either.{configuration_of, device_of};
ghost use Rattle.ice_gen.specs.Numbers.{cells, ram_number};
ghost use Rattle.ice_gen.specs.Inside.{FillsWord, IsFilled, is_word_before, rams_before, word_turn};

use crate::bits::fill_word_bit;
use crate::draws::Draws;
use ice_image::AnyImage;
use plane_map::{TileKind, WordBit, kind_on};

/// Sets the bits of the words of all RAMs that are 1, RAM by RAM.
pub(crate) fn fill_rams(image: &mut AnyImage, draws: &mut Draws)
    requires database { has_database (device_of image.old) ≡ true }
    requires count { draws.old.count ≡ 2 * cells (device_of image.old) }
    requires filled { IsFilled (device_of image.old) draws.old.seed (is_word_before 0) (configuration_of image.old) }
    ensures device { device_of image.new ≡ device_of image.old }
    ensures filled { IsFilled (device_of image.old) draws.old.seed (is_word_before (word_turn 0 (grid_height (device_of image.old)) 0 0)) (configuration_of image.new) }
{
    for y in 0..image.device().rows() {
        fill_grid_row(image, draws, y as u8);
    }
}

/// Sets the bits of the RAMs in a row of the grid that are 1.
fn fill_grid_row(image: &mut AnyImage, draws: &mut Draws, y: u8)
    requires database { has_database (device_of image.old) ≡ true }
    requires row { y < grid_height (device_of image.old) }
    requires count { draws.old.count ≡ 2 * cells (device_of image.old) + 256 * rams_before (device_of image.old) 0 y }
    requires filled { IsFilled (device_of image.old) draws.old.seed (is_word_before (word_turn 0 y 0 0)) (configuration_of image.old) }
    ensures device { device_of image.new ≡ device_of image.old }
    ensures seed { draws.new.seed ≡ draws.old.seed }
    ensures count { draws.new.count ≡ 2 * cells (device_of image.old) + 256 * rams_before (device_of image.old) 0 (y + 1) }
    ensures filled { IsFilled (device_of image.old) draws.old.seed (is_word_before (word_turn 0 (y + 1) 0 0)) (configuration_of image.new) }
{
    for x in 0..image.device().columns() {
        fill_place(image, draws, x as u8, y);
    }
}

/// Sets the bits of the RAM at (x, y) that are 1, if a RAM is there.
fn fill_place(image: &mut AnyImage, draws: &mut Draws, x: u8, y: u8)
    requires database { has_database (device_of image.old) ≡ true }
    requires column { x < grid_width (device_of image.old) }
    requires row { y < grid_height (device_of image.old) }
    requires count { draws.old.count ≡ 2 * cells (device_of image.old) + 256 * rams_before (device_of image.old) x y }
    requires filled { IsFilled (device_of image.old) draws.old.seed (is_word_before (word_turn x y 0 0)) (configuration_of image.old) }
    ensures device { device_of image.new ≡ device_of image.old }
    ensures seed { draws.new.seed ≡ draws.old.seed }
    ensures count { draws.new.count ≡ 2 * cells (device_of image.old) + 256 * rams_before (device_of image.old) (x + 1) y }
    ensures filled { IsFilled (device_of image.old) draws.old.seed (is_word_before (word_turn (x + 1) y 0 0)) (configuration_of image.new) }
{
    match kind_on(image.device(), u32::from(x), u32::from(y)) {
        Some(TileKind::RamB) => fill_ram(image, draws, x, y),
        Some(TileKind::Io) => {}
        Some(TileKind::Logic) => {}
        Some(TileKind::RamT) => {}
        None => {}
    }
}

/// Sets the bits of the words of a RAM that are 1, a draw for each word.
fn fill_ram(image: &mut AnyImage, draws: &mut Draws, x: u8, y: u8)
    requires lower { kind_of (device_of image.old) x y ≡ Some TileKind.RamB }
    requires count { draws.old.count ≡ 2 * cells (device_of image.old) + 256 * ram_number (device_of image.old) x y }
    requires filled { IsFilled (device_of image.old) draws.old.seed (is_word_before (word_turn x y 0 0)) (configuration_of image.old) }
    ensures device { device_of image.new ≡ device_of image.old }
    ensures seed { draws.new.seed ≡ draws.old.seed }
    ensures count { draws.new.count ≡ draws.old.count + 256 }
    ensures filled { IsFilled (device_of image.old) draws.old.seed (is_word_before (word_turn x y 256 0)) (configuration_of image.new) }
{
    for word in 0..256u16 {
        fill_word(image, draws.next(), x, y, word as u8);
    }
}

/// Sets the bits of a word that are 1.
fn fill_word(image: &mut AnyImage, value: u16, x: u8, y: u8, word: u8)
    requires lower { kind_of (device_of image.old) x y ≡ Some TileKind.RamB }
    ensures device { device_of image.new ≡ device_of image.old }
    ensures filled { FillsWord (device_of image.old) (ram_number (device_of image.old) x y) word value (word_turn x y word 0) (word_turn x y (word + 1) 0) (configuration_of image.old) (configuration_of image.new) }
{
    for bit in 0..16 {
        fill_word_bit(image, WordBit { x, y, word, bit }, value >> bit & 1 == 1);
    }
}
