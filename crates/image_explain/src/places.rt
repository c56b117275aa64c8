// A bit of a tile, and functions and links by their indexes.
ghost use Rattle.std.specs.Prelude.{◌≡◌, slice_get};
ghost use Rattle.plane_map.specs.Layout.{columns_of};
ghost use Rattle.ice_image.specs.Bits.{tile_bit_of};
ghost use Rattle.ice_image.specs.Either.{configuration_of};
ghost use Rattle.chipdb_reader.specs.Fit.{IsBitIn};
ghost use Rattle.image_explain.specs.Inside.{IsTileAt};

use crate::tile::TileAt;
use chipdb_reader::{Function, LinkLine};
use ice_image::AnyImage;
use plane_map::{RowCol, TileBit};

/// A bit of a tile.
pub(crate) fn tile_bit(image: &AnyImage, at: TileAt, bit: RowCol) -> bool
    requires tile { IsTileAt (configuration_of image.now).layout.device at }
    requires inside { IsBitIn (columns_of at.kind) bit }
    ensures { result ≡ tile_bit_of (configuration_of image.now) at.x at.y bit.row bit.col }
{
    image.tile_bit(TileBit {
        x: at.x,
        y: at.y,
        row: bit.row,
        col: bit.col,
    })
}

/// The function at an index of a list.
pub(crate) fn function_at(functions: &[Function], place: usize) -> Option<Function>
    ensures { result ≡ slice_get functions.now place }
{
    if place < functions.len() {
        Some(functions[place])
    } else {
        None
    }
}

/// The link at an index of a list.
pub(crate) fn link_at(links: &[LinkLine], place: usize) -> Option<LinkLine>
    ensures { result ≡ slice_get links.now place }
{
    if place < links.len() {
        Some(links[place])
    } else {
        None
    }
}
