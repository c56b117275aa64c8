// The start words of RAMs.
ghost use Rattle.std.specs.Prelude.{◌≡◌, ℕ, ◌++◌, length, All, IfOk, OnOk, Some};
ghost use Rattle.std.specs.List.{flat_map};
ghost use Rattle.plane_map.specs.Layout.{kind_of};
ghost use Rattle.plane_map.specs.declared.tile.TileKind.TheVariants.{RamB};
ghost use Rattle.ice_image.specs.Either.{configuration_of, device_of};
ghost use Rattle.ice_image.specs.Bits.{ram_word_of};
ghost use Rattle.fabric_model.specs.Tiles.{each_below};

use fabric_model::RamCell;
use ice_image::AnyImage;
use std::alloc::{AllocError, Global};

/// Appends the 256 words of the RAM whose lower tile is at (x, y).
fn append_words(words: &mut Vec<u16>, image: &AnyImage, x: u8, y: u8) -> Result<(), AllocError>
    requires { kind_of (device_of image.now) x y ≡ Some RamB }
    ensures { OnOk result (words.new.items ≡ words.old.items ++ each_below 256 (ram_word_of (configuration_of image.now) x y)) }
{
    for word in 0..256_u16 {
        words.push(image.ram_word(x, y, word as u8))?;
    }
    Ok(())
}

/// The words that an image gives RAMs, 256 for each.
pub(crate) fn start_words(
    alloc: Global,
    image: &AnyImage,
    rams: &[RamCell],
) -> Result<Vec<u16>, AllocError>
    requires { All (λ ram. kind_of (device_of image.now) ram.x ram.y ≡ Some RamB) rams.now }
    ensures { IfOk result (λ words. words.items ≡ flat_map (λ ram. each_below 256 (ram_word_of (configuration_of image.now) ram.x ram.y)) rams.now) }
{
    let mut words = Vec::new(alloc);
    for ram in rams {
        append_words(&mut words, image, ram.x, ram.y)?;
    }
    Ok(words)
}
