// The lines that follow the statement of a tile, of the contents of a RAM, or of a comment. A row is expected to be as long as its tile is wide:
// the rows or digits below a statement are taken in one loop as long as LF comes right after each, without a search for the line's end. Any
// other line goes the long way.
ghost use Rattle.std.specs.Prelude.{◌≡◌, ℕ, ◌≤◌, true, false, MatchOption};
ghost use Rattle.std.specs.List.{list_all};
ghost use Rattle.asc_text.specs.Faults.{is_printable};
ghost use Rattle.plane_map.specs.Layout.{columns_of};
ghost use Rattle.ice_image.specs.Bits.{number_bit};
ghost use Rattle.asc_text.specs.Rows.{is_memory_line, is_row, ram_line_bytes, row_bit};

use crate::reading::eights::row_bits_of;
use plane_map::TileKind;

/// A row of a tile of this kind as a number, column c being worth 2^c, or `None` if the line is not such a row.
#[inline(never)]
pub(crate) fn row_ones(line: &[u8], kind: TileKind) -> Option<u64>
    ensures { MatchOption result (is_row (columns_of kind) line.now ≡ false)
        (λ ones. (is_row (columns_of kind) line.now ≡ true) × ((col : ℕ) → number_bit ones col ≡ row_bit line.now col)) }
{
    // Each width is written out, so that each has code of its own, without a loop.
    match kind {
        TileKind::Io => ones_of(line, 18),
        TileKind::Logic => ones_of(line, 54),
        TileKind::RamB | TileKind::RamT => ones_of(line, 42),
    }
}

/// A row of a tile with `width` columns as a number, column c being worth 2^c, or `None` if the line is not such a row.
#[inline(always)]
pub(crate) fn ones_of(line: &[u8], width: usize) -> Option<u64>
    requires long { 8 ≤ width }
    requires short { width ≤ 64 }
    ensures { MatchOption result (is_row width line.now ≡ false)
        (λ ones. (is_row width line.now ≡ true) × ((col : ℕ) → number_bit ones col ≡ row_bit line.now col)) }
{
    if line.len() != width {
        return None;
    }
    let row = row_bits_of(line);
    if row.are_bits { Some(row.ones) } else { None }
}

/// The bytes of 64 hexadecimal digits, the high digit of each byte first, or `None` if the line is not 64 such digits.
pub(crate) fn ram_line_bytes(line: &[u8]) -> Option<[u8; 32]>
    ensures { MatchOption result (is_memory_line line.now ≡ false)
        (λ bytes. (is_memory_line line.now ≡ true) × (ram_line_bytes line.now ≡ bytes)) }
{
    let mut bytes = [0; 32];
    match hex::decode_to_slice(line, &mut bytes) {
        Ok(()) => Some(bytes),
        Err(_) => None,
    }
}

/// Whether each byte is a printable ASCII character or a space.
pub(crate) fn is_printable(line: &[u8]) -> bool
    ensures { result ≡ list_all is_printable line.now }
{
    line.iter().all(|byte| matches!(byte, 0x20..=0x7E))
}
