// The set bits of a tile that nothing explains.
ghost use Rattle.std.specs.Prelude.{◌≡◌, ◌<◌, ◌++◌, ◌∷◌, [], ◌&&◌, not, if◌then◌else◌, OnOk};
ghost use Rattle.index_search.specs.Places.{any_below};
ghost use Rattle.bit_plane.specs.Rows.{bit_at};
ghost use Rattle.plane_map.specs.Layout.{columns_of};
ghost use Rattle.ice_image.specs.Bits.{tile_bit_of};
ghost use Rattle.ice_image.specs.Either.{configuration_of};
ghost use Rattle.image_explain.specs.Explained.{is_set_tile};
ghost use Rattle.image_explain.specs.Inside.{IsTileAt};
ghost use Rattle.image_explain.specs.Items.{unknown_in, unknown_items};

use crate::item::Active;
use crate::places::tile_bit;
use crate::tile::TileAt;
use bit_plane::Tile;
use ice_image::AnyImage;
use plane_map::{RowCol, tile_width};
use std::alloc::AllocError;

/// Adds the set bits that aren't known, by row, then by column.
#[tactic(auto, using(crate::proofs::Gathered::gathering), unfolding(crate::specs::Items::unknown_items, index_search::specs::Places::gathered_below))]
pub(crate) fn push_unknown(
    items: &mut Vec<Active>,
    image: &AnyImage,
    at: TileAt,
    known: &Tile<54>,
) -> Result<(), AllocError>
    requires { IsTileAt (configuration_of image.now).layout.device at }
    ensures { OnOk result (items.new.items ≡ items.old.items ++ unknown_items (configuration_of image.now) at.x at.y (λ row col. bit_at known.now col row) (columns_of at.kind)) }
{
    for row in 0..16 {
        push_unknown_of_row(items, image, at, known, row)?;
    }
    Ok(())
}

/// Adds the set bits of a row that aren't known.
#[tactic(auto, using(crate::proofs::Gathered::gathering), unfolding(index_search::specs::Places::gathered_below))]
fn push_unknown_of_row(
    items: &mut Vec<Active>,
    image: &AnyImage,
    at: TileAt,
    known: &Tile<54>,
    row: u8,
) -> Result<(), AllocError>
    requires tile { IsTileAt (configuration_of image.now).layout.device at }
    requires row { row < 16 }
    ensures { OnOk result (items.new.items ≡ items.old.items ++ unknown_in (configuration_of image.now) at.x at.y (λ row col. bit_at known.now col row) (columns_of at.kind) row) }
{
    for col in 0..tile_width(at.kind) as u8 {
        push_bit(items, is_unknown(image, at, known, row, col), row, col)?;
    }
    Ok(())
}

/// Adds a bit, if it is unknown.
fn push_bit(items: &mut Vec<Active>, is_unknown: bool, row: u8, col: u8) -> Result<(), AllocError>
    ensures { OnOk result (items.new.items ≡ items.old.items ++ (if is_unknown then Active.Unknown row col ∷ [] else [])) }
{
    if is_unknown {
        items.push(Active::Unknown { row, col })?;
    }
    Ok(())
}

/// Whether a bit is set and isn't known.
fn is_unknown(image: &AnyImage, at: TileAt, known: &Tile<54>, row: u8, col: u8) -> bool
    requires tile { IsTileAt (configuration_of image.now).layout.device at }
    requires row { row < 16 }
    requires col { col < columns_of at.kind }
    ensures { result ≡ (tile_bit_of (configuration_of image.now) at.x at.y row col && not (bit_at known.now col row)) }
{
    tile_bit(image, at, RowCol { row, col }) && !known.get(usize::from(row), usize::from(col))
}

/// Whether a tile has a set bit.
#[tactic(auto, unfolding(crate::specs::Explained::is_set_tile, index_search::specs::Places::any_below))]
pub(crate) fn is_set_tile(image: &AnyImage, at: TileAt) -> bool
    requires { IsTileAt (configuration_of image.now).layout.device at }
    ensures { result ≡ is_set_tile (configuration_of image.now) at.x at.y at.kind }
{
    for row in 0..16 {
        if is_set_row(image, at, row) {
            return true;
        }
    }
    false
}

/// Whether a row of a tile has a set bit.
#[tactic(auto, unfolding(index_search::specs::Places::any_below))]
fn is_set_row(image: &AnyImage, at: TileAt, row: u8) -> bool
    requires tile { IsTileAt (configuration_of image.now).layout.device at }
    requires row { row < 16 }
    ensures { result ≡ any_below (columns_of at.kind) (λ col. tile_bit_of (configuration_of image.now) at.x at.y row col) }
{
    for col in 0..tile_width(at.kind) as u8 {
        if tile_bit(image, at, RowCol { row, col }) {
            return true;
        }
    }
    false
}
