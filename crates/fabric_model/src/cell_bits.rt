// The bits of logic cells.
ghost use Rattle.std.specs.Prelude.{◌≡◌, ◌<◌, ◌≤◌, ◌^◌, All, length};
ghost use Rattle.plane_map.specs.Layout.{columns_of};
ghost use Rattle.plane_map.specs.declared.tile.TileKind.TheVariants.{Logic};
ghost use Rattle.ice_image.specs.Either.{configuration_of};
ghost use Rattle.chipdb_reader.specs.Fit.{IsBitIn};
ghost use Rattle.chipdb_reader.specs.Kept.{database_in};
ghost use Rattle.fabric_model.specs.Cells.{cell_name, cell_places, flags_of, is_used, lut_of, number_of};
ghost use Rattle.fabric_model.specs.On.{bits_at};
ghost use Rattle.fabric_model.specs.TilesOfKind.{HasTile};

use crate::functions::{function_bits, listed_bit};
use crate::short_text::ShortText;
use chipdb_reader::ChipDb;
use ice_image::AnyImage;
use plane_map::{RowCol, TileKind};

/// Which bits of a cell are entries 0 to 15 of its LUT.
const ENTRY_BITS: [usize; 16] = [4, 14, 15, 5, 6, 16, 17, 7, 3, 13, 12, 2, 1, 11, 10, 0];

/// Which bit of a cell is `CarryEnable`: the carry is on.
pub const CARRY_ENABLE: usize = 8;

/// Which bit of a cell is `DffEnable`: there is a flip-flop.
pub const DFF_ENABLE: usize = 9;

/// Which bit of a cell is `Set_NoReset`: `s_r` sets the flip-flop.
pub const SET_NO_RESET: usize = 18;

/// Which bit of a cell is `AsyncSetReset`: the set or reset is asynchronous.
pub const ASYNC_SET_RESET: usize = 19;

/// These four bits.
const FLAG_BITS: [usize; 4] = [CARRY_ENABLE, DFF_ENABLE, SET_NO_RESET, ASYNC_SET_RESET];

/// The name of the function that lists the bits of cell `i`.
pub fn cell_name(i: u8) -> ShortText
    ensures { result ≡ cell_name i }
{
    ShortText::ending_in(b"LC_", i)
}

/// Where the bits of cell `i` lie in its tile. The list is empty if the database doesn't have the cell.
#[tactic(auto, unfolding(crate::specs::Cells::cell_places))]
pub fn cell_places(db: &ChipDb, i: u8) -> &[RowCol]
    ensures places { result.now ≡ cell_places (database_in db.now) i }
    ensures in_tile { All (IsBitIn 54) result.now }
{
    match function_bits(db, TileKind::Logic, cell_name(i).bytes()) {
        None => &[],
        Some(bits) => bits,
    }
}

/// Whether at least one bit of a list is 1 at the tile at (x, y).
pub fn is_one_set(image: &AnyImage, kind: TileKind, x: u8, y: u8, bits: &[RowCol]) -> bool
    requires tile { HasTile image.now kind x y }
    requires in_tile { All (IsBitIn (columns_of kind)) bits.now }
    ensures { result ≡ is_used (bits_at (configuration_of image.now) x y bits.now) }
{
    for k in 0..bits.len() {
        if listed_bit(image, kind, x, y, bits, k) {
            return true;
        }
    }
    false
}

/// The entries of the LUT of the cell with these bits at the tile at (x, y): entry k is the bit of value 2^k.
#[tactic(auto, unfolding(crate::specs::Cells::entry_bits))]
pub fn lut(image: &AnyImage, x: u8, y: u8, bits: &[RowCol]) -> u16
    requires tile { HasTile image.now Logic x y }
    requires in_tile { All (IsBitIn 54) bits.now }
    ensures { result ≡ lut_of (bits_at (configuration_of image.now) x y bits.now) }
{
    number_of(image, x, y, bits, &ENTRY_BITS)
}

/// `CarryEnable`, `DffEnable`, `Set_NoReset` and `AsyncSetReset` of the cell with these bits at the tile at (x, y), as a number: the first
/// is the bit of value 1.
#[tactic(auto, unfolding(crate::specs::Cells::flag_bits))]
pub fn flags(image: &AnyImage, x: u8, y: u8, bits: &[RowCol]) -> u8
    requires tile { HasTile image.now Logic x y }
    requires in_tile { All (IsBitIn 54) bits.now }
    ensures { result ≡ flags_of (bits_at (configuration_of image.now) x y bits.now) }
{
    number_of(image, x, y, bits, &FLAG_BITS) as u8
}

/// The number that some of the bits of a cell form, the first of them the lowest. A bit that is missing is 0.
#[tactic(auto, unfolding(bit_plane::specs::BitList::word_of))]
fn number_of(image: &AnyImage, x: u8, y: u8, bits: &[RowCol], numbers: &[usize]) -> u16
    requires tile { HasTile image.now Logic x y }
    requires in_tile { All (IsBitIn 54) bits.now }
    requires few { length numbers.now ≤ 16 }
    ensures is { result ≡ number_of numbers.now (bits_at (configuration_of image.now) x y bits.now) }
    ensures small { result < 2 ^ length numbers.now }
{
    match numbers {
        [] => 0,
        [number, rest @ ..] => {
            let bit = listed_bit(image, TileKind::Logic, x, y, bits, *number);
            u16::from(bit) + 2 * number_of(image, x, y, bits, rest)
        }
    }
}
