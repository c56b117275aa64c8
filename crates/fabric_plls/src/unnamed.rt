// Functions of PLLs that are on, and that no PLL names.
ghost use Rattle.std.specs.Prelude.{◌≡◌, ◌&&◌, ◌++◌, ◌==◌, not, bytes_eq, codes, All};
ghost use Rattle.std.specs.Option.{option_map};
ghost use Rattle.std.specs.List.{flat_map, list_any};
ghost use Rattle.plane_map.specs.declared.tile.TileKind.TheVariants.{Io};
ghost use Rattle.plane_map.specs.Layout.{columns_of};
ghost use Rattle.ice_image.specs.Either.{configuration_of};
ghost use Rattle.chipdb_lines.specs.Kept.{bits_named};
ghost use Rattle.chipdb_reader.specs.Fit.{IsBitIn};
ghost use Rattle.chipdb_reader.specs.Kept.{database_in, function_line, pll_line, pll_of};
ghost use Rattle.fabric_model.specs.Plls.{is_line_of, is_named_by_pll, is_unnamed_on, has_unnamed, has_pll, unnamed_tiles, pll_tiles};
ghost use Rattle.fabric_model.specs.Tiles.{first_of, item_if};
ghost use Rattle.fabric_model.specs.TilesOfKind.{HasTile, begins_and_is_on, tiles_of};
ghost use Rattle.fabric_plls.specs.Tiles.{place_of};
ghost use Rattle.fabric_plls.specs.Plls.{has_line_of, tile_with};

use crate::tile::TilePlace;
use chipdb_reader::{ChipDb, Function, PllCell, PllLine, TileXy8};
use fabric_model::{begins_and_is_on, is_any_on};
use ice_image::AnyImage;
use plane_map::TileKind;

/// Whether a name is that of the function that a word names.
fn is_function_of(name: &[u8], word: &[u8]) -> bool
    ensures { result ≡ bytes_eq name.now (codes "PLL." ++ word.now) }
{
    match name.strip_prefix(b"PLL.") {
        None => false,
        Some(rest) => rest == word,
    }
}

/// Whether a line names the function at (x, y).
fn is_line_of(x: u8, y: u8, name: &[u8], line: &PllLine) -> bool
    ensures { result ≡ is_line_of x y name.now (pll_line line.now) }
{
    line.x == u32::from(x) && (line.y == u32::from(y) && is_function_of(name, &line.word))
}

/// Whether a line of a PLL does.
fn has_line_of(x: u8, y: u8, name: &[u8], pll: &PllCell) -> bool
    ensures { result ≡ has_line_of x y name.now pll.now }
{
    pll.lines.iter().any(|line| is_line_of(x, y, name, line))
}

/// Whether a line of one of these PLLs does.
fn is_named_by(plls: &[PllCell], x: u8, y: u8, name: &[u8]) -> bool
    ensures { result ≡ list_any (has_line_of x y name.now) plls.now }
{
    plls.iter().any(|pll| has_line_of(x, y, name, pll))
}

/// Whether a line of a PLL of the database does.
fn is_named(db: &ChipDb, x: u8, y: u8, name: &[u8]) -> bool
    ensures { result ≡ is_named_by_pll (database_in db.now) x y name.now }
{
    is_named_by(db.plls(), x, y, name)
}

/// Whether a function of the database is one of PLLs, is on at the tile at (x, y), and no PLL names it there.
fn is_unnamed_on(db: &ChipDb, image: &AnyImage, x: u8, y: u8, function: Function) -> bool
    requires tile { HasTile image.now Io x y }
    requires in_tile { All (IsBitIn (columns_of function.kind)) (bits_named db.now.bits function.bits) }
    ensures { result ≡ is_unnamed_on (database_in db.now) (configuration_of image.now) x y (function_line db.now.texts db.now.bits function) }
{
    let name = db.text(function.name);
    begins_and_is_on(db, image, TileKind::Io, x, y, b"PLL.", function) && !is_named(db, x, y, name)
}

/// Whether a function of PLLs is on at the tile at (x, y), and no PLL names it there.
fn has_unnamed(db: &ChipDb, image: &AnyImage, x: u8, y: u8) -> bool
    requires { HasTile image.now Io x y }
    ensures { result ≡ has_unnamed (database_in db.now) (configuration_of image.now) x y }
{
    for function in db.functions() {
        if is_unnamed_on(db, image, x, y, *function) {
            return true;
        }
    }
    false
}

/// A tile, by its place.
fn tile_at(tile: TileXy8) -> TilePlace
    ensures { place_of result ≡ (tile.x, tile.y) }
{
    TilePlace {
        x: u32::from(tile.x),
        y: u32::from(tile.y),
    }
}

/// The first tile with such a function.
pub(crate) fn first_unnamed(db: &ChipDb, image: &AnyImage, tiles: &[TileXy8]) -> Option<TilePlace>
    requires { All (λ tile. HasTile image.now Io tile.x tile.y) tiles.now }
    ensures { option_map place_of result ≡ first_of (flat_map (λ tile. tile_with (has_unnamed (database_in db.now) (configuration_of image.now)) tile.x tile.y) tiles.now) }
{
    for tile in tiles {
        if has_unnamed(db, image, tile.x, tile.y) {
            return Some(tile_at(*tile));
        }
    }
    None
}

/// The first tile where a function whose name starts with `PLL.` is on.
pub(crate) fn first_on(db: &ChipDb, image: &AnyImage, tiles: &[TileXy8]) -> Option<TilePlace>
    requires { All (λ tile. HasTile image.now Io tile.x tile.y) tiles.now }
    ensures { option_map place_of result ≡ first_of (flat_map (λ tile. tile_with (has_pll (database_in db.now) (configuration_of image.now)) tile.x tile.y) tiles.now) }
{
    for tile in tiles {
        if is_any_on(db, image, TileKind::Io, tile.x, tile.y, b"PLL.") {
            return Some(tile_at(*tile));
        }
    }
    None
}
