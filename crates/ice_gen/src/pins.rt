// The bits of pins.
ghost use Rattle.std.specs.Prelude.{◌≡◌, ◌<◌, ◌+◌, Some};
ghost use Rattle.plane_map.specs.Layout.{kind_of};
ghost use Rattle.ice_image.specs.Either.{configuration_of, device_of};
ghost use Rattle.ice_gen.specs.Image.{is_pin_bit as pin_bit_of, pin_type as pin_type_of};
ghost use Rattle.ice_gen.specs.Inside.{Fills, turn};

use crate::bits::fill_tile_bit;
use ice_image::AnyImage;
use plane_map::{TileBit, TileKind};

/// Sets the bits of an io tile that are 1.
pub(crate) fn fill_pins(image: &mut AnyImage, x: u8, y: u8)
    requires io { kind_of (device_of image.old) x y ≡ Some TileKind.Io }
    ensures device { device_of image.new ≡ device_of image.old }
    ensures filled { Fills (device_of image.old) (turn x y 0 0) (turn x y 16 0) (configuration_of image.old) (configuration_of image.new) }
{
    for row in 0..16 {
        fill_row(image, x, y, row);
    }
}

/// Sets the bits of a row of an io tile that are 1.
fn fill_row(image: &mut AnyImage, x: u8, y: u8, row: u8)
    requires io { kind_of (device_of image.old) x y ≡ Some TileKind.Io }
    requires row { row < 16 }
    ensures device { device_of image.new ≡ device_of image.old }
    ensures filled { Fills (device_of image.old) (turn x y row 0) (turn x y (row + 1) 0) (configuration_of image.old) (configuration_of image.new) }
{
    for col in 0..18 {
        fill_tile_bit(
            image,
            TileBit { x, y, row, col },
            is_pin_bit(x, y, row, col),
        );
    }
}

/// Whether a bit of an io tile is 1.
#[tactic(auto, unfolding(crate::specs::Image::is_pin_bit))]
fn is_pin_bit(x: u8, y: u8, row: u8, col: u8) -> bool
    requires { row < 16 }
    ensures { result ≡ pin_bit_of x y row col }
{
    x == 0 && col == 0 && pin_type(y) >> row & 1 == 1
}

/// PIN_TYPE of the first pin of a tile at the left edge.
fn pin_type(y: u8) -> u16
    ensures { result ≡ pin_type_of y }
{
    match y {
        1 | 2 => 0b000001,
        3 | 4 => 0b011001,
        _ => 0,
    }
}
