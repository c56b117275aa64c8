// Functions of tiles, and which of them an image sets.
ghost use Rattle.std.specs.Prelude.{◌≡◌, ◌<◌, All, OnSome, IfSome, option_copied};
ghost use Rattle.std.specs.Option.{option_map};
ghost use Rattle.plane_map.specs.Layout.{columns_of};
ghost use Rattle.ice_image.specs.Configuration.{place_bit};
ghost use Rattle.ice_image.specs.Contents.{tile_place};
ghost use Rattle.ice_image.specs.Either.{configuration_of, device_of};
ghost use Rattle.chipdb_reader.specs.Fit.{IsBitIn};
ghost use Rattle.chipdb_lines.specs.Kept.{bits_named};
ghost use Rattle.chipdb_reader.specs.Kept.{database_in, function_line};
ghost use Rattle.fabric_model.specs.On.{are_set, bits_at, function_named, is_function_on, is_any_on};
ghost use Rattle.fabric_model.specs.Cells.{cell_bit};
ghost use Rattle.fabric_model.specs.TilesOfKind.{HasTile, begins_and_is_on};

use chipdb_reader::{ChipDb, Function};
use ice_image::AnyImage;
use plane_map::{RowCol, TileBit, TileKind};

/// The bits of the first function of a kind and name, or `None` if there is none.
pub fn function_bits<'a>(db: &'a ChipDb, kind: TileKind, name: &[u8]) -> Option<&'a [RowCol]>
    ensures bits { option_copied result ≡ option_map (λ function. function.bits) (function_named (database_in db.now) kind name.now) }
    ensures in_tile { IfSome result (λ bits. All (IsBitIn (columns_of kind)) bits.now) }
{
    match db.function(kind, name) {
        None => None,
        Some(place) => Some(db.bits(db.functions()[place].bits)),
    }
}

/// Bit `k` of a list of bits at the tile at (x, y); 0 past the end of the list.
pub fn listed_bit(image: &AnyImage, kind: TileKind, x: u8, y: u8, bits: &[RowCol], k: usize) -> bool
    requires tile { HasTile image.now kind x y }
    requires in_tile { All (IsBitIn (columns_of kind)) bits.now }
    ensures { result ≡ cell_bit (bits_at (configuration_of image.now) x y bits.now) k }
{
    match bits.get(k) {
        None => false,
        Some(bit) => image.tile_bit(TileBit {
            x,
            y,
            row: bit.row,
            col: bit.col,
        }),
    }
}

/// Whether all bits of a list are 1 at the tile at (x, y).
pub fn are_set(image: &AnyImage, kind: TileKind, x: u8, y: u8, bits: &[RowCol]) -> bool
    requires tile { HasTile image.now kind x y }
    requires in_tile { All (IsBitIn (columns_of kind)) bits.now }
    ensures { result ≡ are_set (configuration_of image.now) x y bits.now }
{
    for k in 0..bits.len() {
        if !listed_bit(image, kind, x, y, bits, k) {
            return false;
        }
    }
    true
}

/// Whether the first function of a kind and name is on at the tile at (x, y): all its bits are 1.
#[tactic(auto, unfolding(crate::specs::On::is_function_on))]
pub fn is_on(db: &ChipDb, image: &AnyImage, kind: TileKind, x: u8, y: u8, name: &[u8]) -> bool
    requires { HasTile image.now kind x y }
    ensures { result ≡ is_function_on (database_in db.now) (configuration_of image.now) kind x y name.now }
{
    match function_bits(db, kind, name) {
        None => false,
        Some(bits) => are_set(image, kind, x, y, bits),
    }
}

/// Whether a function of a kind whose name starts with `beginning` is on at the tile at (x, y).
pub fn is_any_on(
    db: &ChipDb,
    image: &AnyImage,
    kind: TileKind,
    x: u8,
    y: u8,
    beginning: &[u8],
) -> bool
    requires { HasTile image.now kind x y }
    ensures { result ≡ is_any_on (database_in db.now) (configuration_of image.now) kind x y beginning.now }
{
    for function in db.functions() {
        if begins_and_is_on(db, image, kind, x, y, beginning, *function) {
            return true;
        }
    }
    false
}

/// Whether a function of the database is of a kind, has a name that starts with `beginning`, and is on at the tile at (x, y).
pub fn begins_and_is_on(
    db: &ChipDb,
    image: &AnyImage,
    kind: TileKind,
    x: u8,
    y: u8,
    beginning: &[u8],
    function: Function,
) -> bool
    requires tile { HasTile image.now kind x y }
    requires in_tile { All (IsBitIn (columns_of function.kind)) (bits_named db.now.bits function.bits) }
    ensures { result ≡ begins_and_is_on (configuration_of image.now) kind x y beginning.now (function_line db.now.texts db.now.bits function) }
{
    function.kind == kind
        && db.text(function.name).starts_with(beginning)
        && are_set(image, kind, x, y, db.bits(function.bits))
}
