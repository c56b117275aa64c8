// The lines of the set bits that belong to no tile.
ghost use Rattle.std.specs.Prelude.{◌≡◌, [], ◌∷◌, ◌++◌, OnOk};
ghost use Rattle.text_lines.specs.Written.{text_of};
ghost use Rattle.ice_image.specs.Either.{configuration_of};
ghost use Rattle.asc_text.specs.Canonical.{all_extra_lines, extra_line};

use crate::writing::lines::{append_number, end_line};
use ice_image::AnyImage;
use plane_map::Place;
use std::alloc::{AllocError, Global};

/// Appends all set bits that belong to no tile, by bank, then by row, then by column.
pub(crate) fn append_extra_bits(
    text: &mut Vec<u8>,
    image: &AnyImage,
    alloc: Global,
) -> Result<(), AllocError>
    ensures { OnOk result (text.new.items ≡ text.old.items ++ text_of (all_extra_lines (configuration_of image.now))) }
{
    let places = image.extra_bits(alloc)?;
    for at in &places {
        append_extra_bit(text, *at)?;
    }
    Ok(())
}

/// Appends the statement of an extra bit.
#[tactic(auto, unfolding(text_lines::specs::Written::text_of))]
fn append_extra_bit(text: &mut Vec<u8>, at: Place) -> Result<(), AllocError>
    ensures { OnOk result (text.new.items ≡ text.old.items ++ text_of (extra_line at ∷ [])) }
{
    text.extend_from_slice(b".extra_bit")?;
    append_number(text, u32::from(at.bank))?;
    append_number(text, u32::from(at.px))?;
    append_number(text, u32::from(at.py))?;
    end_line(text)
}
