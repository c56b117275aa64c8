// Links that are on.
ghost use Rattle.std.specs.Prelude.{◌≡◌, ◌≤◌, length, All, IfOk};
ghost use Rattle.std.specs.Bool.{beq};
ghost use Rattle.std.specs.Cmp.Lexicographic.{pointwise};
ghost use Rattle.ice_image.specs.Contents.{IsBitOfTile};
ghost use Rattle.ice_image.specs.Either.{configuration_of};
ghost use Rattle.bit_plane.specs.BitList.{word_bits};
ghost use Rattle.chipdb_reader.specs.Fit.{IsLink};
ghost use Rattle.chipdb_reader.specs.Kept.{link_line, link_lines};
ghost use Rattle.fabric_model.specs.On.{bits_at, is_link_on};
ghost use Rattle.fabric_model.specs.Found.{links_on};

use chipdb_reader::{ChipDb, LinkLine};
use ice_image::AnyImage;
use plane_map::RowCol;
use std::alloc::{AllocError, Global};

/// A link that is on: its index among the lines of its kind, and its nets.
#[derive(Clone, Copy, Debug, PartialEq, Eq)]
pub(crate) struct OnLink {
    pub(crate) place: u32,
    pub(crate) src: u32,
    pub(crate) dst: u32,
}

/// Whether these bits of the tile at (x, y) have these values. The lowest bit of `values` is the value of the first bit.
fn have_values(image: &AnyImage, x: u8, y: u8, bits: &[RowCol], values: u64) -> bool
    requires few { length bits.now ≤ 64 }
    requires in_tile { All (IsBitOfTile (configuration_of image.now).layout x y) bits.now }
    ensures { result ≡ pointwise beq (bits_at (configuration_of image.now) x y bits.now) (word_bits (length bits.now) values) }
{
    image.tile_equals(x, y, bits, values)
}

/// Whether a link is on: each of its bits has its value.
#[tactic(auto, unfolding(crate::specs::On::is_link_on))]
pub fn is_link_on(db: &ChipDb, image: &AnyImage, link: LinkLine) -> bool
    requires device { db.now.chip.device ≡ (configuration_of image.now).layout.device }
    requires fit { IsLink db.now.chip (link_line db.now.bits link) }
    ensures { result ≡ is_link_on (configuration_of image.now) (link_line db.now.bits link) }
{
    have_values(image, link.x, link.y, db.bits(link.bits), link.values)
}

/// An index as it is kept, in 32 bits.
///
/// # Errors
/// `AllocError` if the index needs more than 32 bits.
pub fn place_of(place: usize) -> Result<u32, AllocError>
    ensures { IfOk result (λ kept. kept ≡ place) }
{
    u32::try_from(place).map_err(|_| AllocError)
}

/// The links that are on, in the order of the lines.
pub(crate) fn all_on(
    alloc: Global,
    db: &ChipDb,
    image: &AnyImage,
    links: &[LinkLine],
) -> Result<Vec<OnLink>, AllocError>
    requires device { db.now.chip.device ≡ (configuration_of image.now).layout.device }
    requires fit { All (IsLink db.now.chip) (link_lines db.now.bits links.now) }
    ensures { IfOk result (λ on. on.items ≡ links_on (configuration_of image.now) (link_lines db.now.bits links.now)) }
{
    let mut on = Vec::new(alloc);
    for (i, link) in links.iter().enumerate() {
        if is_link_on(db, image, *link) {
            let place = place_of(i)?;
            on.push(OnLink {
                place,
                src: link.src,
                dst: link.dst,
            })?;
        }
    }
    Ok(on)
}
