// Bits of an image that the lines of a text set.
ghost use Rattle.std.specs.Prelude.{◌≡◌, ◌<◌, true, Some};
ghost use Rattle.plane_map.specs.Layout.{kind_of};
ghost use Rattle.ice_image.specs.Bits.{Gains};
ghost use Rattle.ice_image.specs.Either.{configuration_of, device_of};
ghost use Rattle.ice_image.specs.Owned.{is_extra};
ghost use Rattle.asc_text.specs.Meaning.{extra_sets};
ghost use Rattle.asc_text.specs.inside.Gains.{word_in, bytes_set};

use ice_image::AnyImage;
use plane_map::{Place, TileKind};

/// Sets an extra bit.
pub(crate) fn set_extra_bit(image: &mut AnyImage, at: Place)
    requires { is_extra (configuration_of image.old).layout at ≡ true }
    ensures device { device_of image.new ≡ device_of image.old }
    ensures bits { Gains (extra_sets at) (configuration_of image.old) (configuration_of image.new) }
{
    image.set_extra_bit(at, true);
}

/// Sets the bits of the sixteen words of a line of the RAM whose lower tile is at (x, y). Each word has two bytes, the high
/// one first, and the word of the lowest address is the last.
pub(crate) fn set_memory_line(image: &mut AnyImage, x: u8, y: u8, row: u8, bytes: &[u8; 32])
    requires lower { kind_of (device_of image.old) x y ≡ Some TileKind.RamB }
    requires row { row < 16 }
    ensures device { device_of image.new ≡ device_of image.old }
    ensures bits { Gains (bytes_set x y row bytes.now) (configuration_of image.old) (configuration_of image.new) }
{
    // Called only for its clause `whole`.
    let _device = image.device();
    for index in 0..16 {
        image.set_word_ones(x, y, 16 * row + index, word_in(bytes, index));
    }
}

/// A word of a line of sixteen words of two bytes. The first word is the last in the line; the high byte of each word is first.
fn word_in(bytes: &[u8; 32], index: u8) -> u16
    requires { index < 16 }
    ensures { result ≡ word_in bytes.now index }
{
    let offset = usize::from(2 * index);
    u16::from_be_bytes([bytes[30 - offset], bytes[31 - offset]])
}
