// Bits of the image that are set one after the other.
ghost use Rattle.std.specs.Prelude.{◌≡◌, ℕ, ◌+◌};
ghost use Rattle.plane_map.specs.Layout.{IsTileBit, IsWordBit};
ghost use Rattle.ice_image.specs.Bits.{OfTile, OfWord};
ghost use Rattle.ice_image.specs.Either.{configuration_of, device_of};
ghost use Rattle.ice_gen.specs.Image.{is_generated};
ghost use Rattle.ice_gen.specs.Inside.{IsFilled, is_tile_before, is_word_before, turn, word_turn};

use ice_image::AnyImage;
use plane_map::{TileBit, WordBit};

/// Sets the next bit of a tile, if it is 1.
pub(crate) fn fill_tile_bit(image: &mut AnyImage, at: TileBit, bit: bool)
    requires { IsTileBit (device_of image.old) at }
    ensures device { device_of image.new ≡ device_of image.old }
    ensures filled { (seed : ℕ) → is_generated (device_of image.old) seed (OfTile at) ≡ bit → IsFilled (device_of image.old) seed (is_tile_before (turn at.x at.y at.row at.col)) (configuration_of image.old)
        → IsFilled (device_of image.old) seed (is_tile_before (turn at.x at.y at.row at.col + 1)) (configuration_of image.new) }
{
    if bit {
        image.set_tile_bit(at, true);
    }
}

/// Sets the next bit of a word, if it is 1.
pub(crate) fn fill_word_bit(image: &mut AnyImage, at: WordBit, bit: bool)
    requires { IsWordBit (device_of image.old) at }
    ensures device { device_of image.new ≡ device_of image.old }
    ensures filled { (seed : ℕ) → is_generated (device_of image.old) seed (OfWord at) ≡ bit → IsFilled (device_of image.old) seed (is_word_before (word_turn at.x at.y at.word at.bit)) (configuration_of image.old)
        → IsFilled (device_of image.old) seed (is_word_before (word_turn at.x at.y at.word at.bit + 1)) (configuration_of image.new) }
{
    if bit {
        image.set_word_bit(at, true);
    }
}
