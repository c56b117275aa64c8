// The lines of the tiles, and of the contents of the RAMs. The clauses `room`, `most` and `full` say that the text's capacity
// doesn't fall, how many bytes are added at most, and that a call fails only if there is no room for that many.
ghost use Rattle.std.specs.Prelude.{◌≡◌, ℕ, ◌+◌, ◌<◌, ◌≤◌, [], ◌∷◌, ◌++◌, get_or, length, vec_len, vec_capacity, Some, OnOk, OnErr};
ghost use Rattle.index_search.specs.Places.{gathered_below};
ghost use Rattle.text_lines.specs.Written.{text_of};
ghost use Rattle.bit_plane.specs.Rows.{row_from};
ghost use Rattle.hex.specs.Hex.{encode_lower};
ghost use Rattle.plane_map.specs.Layout.{kind_of, columns_at, grid_width, grid_height};
ghost use Rattle.ice_image.specs.Bits.{number_bit, tile_bit_of};
ghost use Rattle.ice_image.specs.Either.{configuration_of, device_of};
ghost use Rattle.asc_text.specs.Statements.{tile_keyword as keyword_of};
ghost use Rattle.asc_text.specs.inside.Room.{tile_room, ram_room, place_room, row_room};
ghost use Rattle.asc_text.specs.Canonical.{bit_character as character_of, all_tile_lines, lines_of_tile_at, tile_lines, row_line, ram_lines, memory_line, two_bytes};

use crate::writing::lines::{append_grid_line, end_line};
use ice_image::AnyImage;
use plane_map::{TileKind, kind_on, tile_width};
use std::alloc::AllocError;

/// Appends all tiles, row of the grid by row of the grid.
#[tactic(auto, using(crate::proofs::Pieces::joined), unfolding(index_search::specs::Places::gathered_below))]
pub(crate) fn append_tiles(text: &mut Vec<u8>, image: &AnyImage) -> Result<(), AllocError>
    ensures { OnOk result (text.new.items ≡ text.old.items ++ text_of (all_tile_lines (configuration_of image.now))) }
{
    for y in 0..image.device().rows() {
        append_grid_row(text, image, y as u8)?;
    }
    Ok(())
}

/// Appends the tiles of a row of the grid.
#[tactic(auto, using(crate::proofs::Pieces::joined), unfolding(index_search::specs::Places::gathered_below))]
pub(crate) fn append_grid_row(text: &mut Vec<u8>, image: &AnyImage, y: u8) -> Result<(), AllocError>
    ensures text { OnOk result (text.new.items ≡ text.old.items ++ text_of (gathered_below (grid_width (configuration_of image.now).layout.device) (λ x. lines_of_tile_at (configuration_of image.now) x y (kind_of (configuration_of image.now).layout.device x y)))) }
    ensures room { vec_capacity text.old ≤ vec_capacity text.new }
    ensures most { vec_len text.new ≤ vec_len text.old + row_room }
    ensures full { OnErr result (vec_capacity text.old < vec_len text.old + row_room) }
{
    for x in 0..image.device().columns() {
        append_place(text, image, x as u8, y)?;
    }
    Ok(())
}

/// Appends the tile at a position of the grid, and after a lower tile its RAM's contents.
fn append_place(text: &mut Vec<u8>, image: &AnyImage, x: u8, y: u8) -> Result<(), AllocError>
    ensures text { OnOk result (text.new.items ≡ text.old.items ++ text_of (lines_of_tile_at (configuration_of image.now) x y (kind_of (configuration_of image.now).layout.device x y))) }
    ensures room { vec_capacity text.old ≤ vec_capacity text.new }
    ensures most { vec_len text.new ≤ vec_len text.old + place_room }
    ensures full { OnErr result (vec_capacity text.old < vec_len text.old + place_room) }
{
    match kind_on(image.device(), u32::from(x), u32::from(y)) {
        None => Ok(()),
        Some(TileKind::RamB) => {
            append_tile(text, image, TileKind::RamB, x, y)?;
            append_ram(text, image, x, y)
        }
        Some(kind) => append_tile(text, image, kind, x, y),
    }
}

/// The keyword of the statement of a tile of this kind.
pub fn tile_keyword(kind: TileKind) -> &'static [u8]
    ensures word { result.now ≡ keyword_of kind }
    ensures short { length result.now ≤ 11 }
{
    match kind {
        TileKind::Io => b".io_tile",
        TileKind::Logic => b".logic_tile",
        TileKind::RamB => b".ramb_tile",
        TileKind::RamT => b".ramt_tile",
    }
}

/// Appends a tile's statement and its sixteen rows.
fn append_tile(
    text: &mut Vec<u8>,
    image: &AnyImage,
    kind: TileKind,
    x: u8,
    y: u8,
) -> Result<(), AllocError>
    requires { kind_of (device_of image.now) x y ≡ Some kind }
    ensures text { OnOk result (text.new.items ≡ text.old.items ++ text_of (tile_lines (configuration_of image.now) x y kind)) }
    ensures room { vec_capacity text.old ≤ vec_capacity text.new }
    ensures most { vec_len text.new ≤ vec_len text.old + tile_room }
    ensures full { OnErr result (vec_capacity text.old < vec_len text.old + tile_room) }
{
    append_grid_line(text, tile_keyword(kind), x, y)?;
    let width = tile_width(kind) as u8;
    for row in 0..16 {
        append_row(text, image, x, y, row, width)?;
    }
    Ok(())
}

/// Appends a row of a tile, column 0 first.
fn append_row(
    text: &mut Vec<u8>,
    image: &AnyImage,
    x: u8,
    y: u8,
    row: u8,
    width: u8,
) -> Result<(), AllocError>
    requires row { row < 16 }
    requires width { columns_at (configuration_of image.now).layout.device x y ≡ width }
    ensures text { OnOk result (text.new.items ≡ text.old.items ++ text_of (row_line (row_from width (tile_bit_of (configuration_of image.now) x y row)) ∷ [])) }
    ensures room { vec_capacity text.old ≤ vec_capacity text.new }
    ensures most { vec_len text.new ≤ vec_len text.old + 65 }
    ensures full { OnErr result (vec_capacity text.old < vec_len text.old + 65) }
{
    let characters = characters_of(image.tile_row(x, y, row));
    text.extend_from_slice(&characters[..usize::from(width)])?;
    end_line(text)
}

/// The characters of the bits of a word, the bit of value 1 first.
fn characters_of(bits: u64) -> [u8; 64]
    ensures { (col : ℕ) → col < 64 → get_or result col 0 ≡ character_of (number_bit bits col) }
{
    let mut characters = [0; 64];
    for col in 0..64 {
        characters[col] = bit_character(bits >> col & 1 == 1);
    }
    characters
}

/// The character of a bit.
fn bit_character(bit: bool) -> u8
    ensures { result ≡ character_of bit }
{
    if bit { b'1' } else { b'0' }
}

/// Appends the contents of the RAM whose lower tile is at a place.
#[tactic(auto, using(crate::proofs::Pieces::joined), unfolding(index_search::specs::Places::gathered_below))]
fn append_ram(text: &mut Vec<u8>, image: &AnyImage, x: u8, y: u8) -> Result<(), AllocError>
    requires { kind_of (device_of image.now) x y ≡ Some TileKind.RamB }
    ensures text { OnOk result (text.new.items ≡ text.old.items ++ text_of (ram_lines (configuration_of image.now) x y)) }
    ensures room { vec_capacity text.old ≤ vec_capacity text.new }
    ensures most { vec_len text.new ≤ vec_len text.old + ram_room }
    ensures full { OnErr result (vec_capacity text.old < vec_len text.old + ram_room) }
{
    append_grid_line(text, b".ram_data", x, y)?;
    for row in 0..16 {
        append_memory_line(text, image, x, y, row)?;
    }
    Ok(())
}

/// Appends sixteen words of a RAM, the first word at the right.
fn append_memory_line(
    text: &mut Vec<u8>,
    image: &AnyImage,
    x: u8,
    y: u8,
    row: u8,
) -> Result<(), AllocError>
    requires row { row < 16 }
    requires lower { kind_of (device_of image.now) x y ≡ Some TileKind.RamB }
    ensures text { OnOk result (text.new.items ≡ text.old.items ++ text_of (memory_line (configuration_of image.now) x y row ∷ [])) }
    ensures room { vec_capacity text.old ≤ vec_capacity text.new }
    ensures most { vec_len text.new ≤ vec_len text.old + 65 }
    ensures full { OnErr result (vec_capacity text.old < vec_len text.old + 65) }
{
    for index in 0..16 {
        append_hexadecimal(text, image.ram_word(x, y, 16 * row + 15 - index))?;
    }
    end_line(text)
}

/// Appends the four hexadecimal digits of a word of a RAM, the highest first.
///
/// # Errors
/// `AllocError` if memory is out, and for no other cause.
pub fn append_hexadecimal(text: &mut Vec<u8>, word: u16) -> Result<(), AllocError>
    ensures text { OnOk result (text.new.items ≡ text.old.items ++ encode_lower (two_bytes word)) }
    ensures room { vec_capacity text.old ≤ vec_capacity text.new }
    ensures most { vec_len text.new ≤ vec_len text.old + 4 }
    ensures full { OnErr result (vec_capacity text.old < vec_len text.old + 4) }
{
    let mut digits = [0; 4];
    hex::encode_to_slice(word.to_be_bytes(), &mut digits).unwrap();
    text.extend_from_slice(&digits)?;
    Ok(())
}
