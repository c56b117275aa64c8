// The image of the generated design.
ghost use Rattle.std.specs.Prelude.{◌≡◌, ℕ, true, IfOk};
ghost use Rattle.plane_map.specs.Devices.{has_database};
ghost use Rattle.plane_map.specs.Layout.{grid_height};
ghost use Rattle.ice_image.specs.Either.{configuration_of, device_of};
ghost use Rattle.ice_gen.specs.Image.{generated_image};
ghost use Rattle.ice_gen.specs.Inside.{IsFilled, is_word_before, word_turn};

use crate::draws::Draws;
use crate::head::pad_drive;
use crate::rams::fill_rams;
use crate::tiles::fill_tiles;
use ice_image::AnyImage;
use plane_map::DeviceName;
use std::alloc::{AllocError, Global};

/// The image of the generated design for a device; the seed fixes it. The device must have chip databases (`has_database`).
///
/// # Errors
/// `AllocError` if memory is out, and for no other cause.
///
/// # Example
/// ```ignore
/// use ice_gen::image;
/// use plane_map::DeviceName;
///
/// let made = image(alloc, DeviceName::Hx1k, 7)?; // an `AnyImage`
/// let row = made.tile_row(1, 1, 0); // row 0 of the tile at (1, 1)
/// ```
pub fn image(alloc: Global, device: DeviceName, seed: u64) -> Result<AnyImage, AllocError>
    requires { has_database device ≡ true }
    ensures { IfOk result (λ image. configuration_of image ≡ generated_image device seed) }
{
    let mut image = AnyImage::zeroed(alloc, device)?;
    let mut draws = Draws::new(seed);
    fill_tiles(&mut image, &mut draws);
    fill_rams(&mut image, &mut draws);
    set_pad_drive(&mut image);
    Ok(image)
}

/// Sets the extra bit by which a pad drives the global net 0.
fn set_pad_drive(image: &mut AnyImage)
    ensures { (seed : ℕ) → IsFilled (device_of image.old) seed (is_word_before (word_turn 0 (grid_height (device_of image.old)) 0 0)) (configuration_of image.old)
        → configuration_of image.new ≡ generated_image (device_of image.old) seed }
{
    let at = pad_drive(image.device());
    if let Some(at) = image.extra_place(u32::from(at.bank), u32::from(at.px), u32::from(at.py)) {
        image.set_extra_bit(at, true);
    }
}
