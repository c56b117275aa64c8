// Places of tiles, which may be outside of the grid.
ghost use Rattle.std.specs.Prelude.{◌≡◌, IfSome};
ghost use Rattle.std.specs.Option.{option_map, is_some};
ghost use Rattle.plane_map.specs.declared.tile.TileKind.TheVariants.{Io};
ghost use Rattle.ice_image.specs.Either.{configuration_of};
ghost use Rattle.chipdb_reader.specs.Database.{is_tile_before};
ghost use Rattle.fabric_model.specs.Plls.{is_io_tile, lesser_tile};
ghost use Rattle.fabric_model.specs.TilesOfKind.{HasTile};
ghost use Rattle.fabric_plls.specs.Tiles.{place_of};

use chipdb_reader::TileXy8;
use ice_image::AnyImage;
use plane_map::{TileKind, kind_on};

/// A place, which may be outside of the grid.
#[derive(Clone, Copy)]
pub(crate) struct TilePlace {
    pub(crate) x: u32,
    pub(crate) y: u32,
}

/// Whether a tile comes before another: by y, then by x.
fn is_before(tile: TilePlace, other: TilePlace) -> bool
    ensures { result ≡ is_tile_before (place_of tile) (place_of other) }
{
    tile.y < other.y || (tile.y == other.y && tile.x < other.x)
}

/// The lesser of two tiles.
pub(crate) fn lesser(one: Option<TilePlace>, other: Option<TilePlace>) -> Option<TilePlace>
    ensures { option_map place_of result ≡ lesser_tile (option_map place_of one) (option_map place_of other) }
{
    match one {
        None => other,
        Some(tile) => match other {
            None => Some(tile),
            Some(second) => {
                if is_before(second, tile) {
                    Some(second)
                } else {
                    Some(tile)
                }
            }
        },
    }
}

/// The io tile at (x, y), or `None` if there is none.
pub(crate) fn io_tile(image: &AnyImage, x: u32, y: u32) -> Option<TileXy8>
    ensures there { is_some result ≡ is_io_tile (configuration_of image.now) x y }
    ensures tile { IfSome result (λ tile. HasTile image.now Io tile.x tile.y) }
    ensures x { IfSome result (λ tile. tile.x ≡ x) }
    ensures y { IfSome result (λ tile. tile.y ≡ y) }
{
    match kind_on(image.device(), x, y) {
        Some(TileKind::Io) => Some(TileXy8 {
            x: x as u8,
            y: y as u8,
        }),
        _ => None,
    }
}
