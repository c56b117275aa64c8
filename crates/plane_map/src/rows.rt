// The rows of bits that the rows of tiles take, from an end edge inwards.
ghost use Rattle.std.specs.Prelude.{◌≡◌, ◌+◌, ◌-◌, ◌<◌, ◌&&◌, slice_index, if◌then◌else◌};
ghost use Rattle.plane_map.specs.Layout.{is_end, is_top, py_of, cram_height, IsLayout, IsTileBit};

use crate::grid::{end_distance, in_top, on_end};
use crate::layout::Layout;
use crate::tile::TileBit;

/// The row of bits that a bit of a tile takes.
pub(crate) fn py_of(layout: &Layout, bit: TileBit) -> u32
    requires { IsTileBit layout.now.device bit }
    ensures value { result ≡ py_of layout.now bit }
    ensures in_plane { result < cram_height layout.now.device }
    // For callers that prove something of places from it.
    ensures layout { IsLayout layout.now }
{
    let y = bit.y as u32;
    16 * end_distance(layout.device(), y) + inner_py(layout, y, bit.row)
}

/// The row of bits that a row of a tile takes, counted from the start of its row of tiles.
fn inner_py(layout: &Layout, y: u32, row: u8) -> u32
    requires { row < 16 }
    ensures value { result ≡ (if is_end layout.now.device y then 15 - slice_index layout.now.pad_rows row
        else if is_top layout.now.device y && layout.now.flip then 15 - row else row) }
    ensures in_tile { result < 16 }
{
    let device = layout.device();
    if on_end(device, y) {
        15 - layout.pad_row(row)
    } else if in_top(device, y) && layout.flips() {
        15 - row as u32
    } else {
        row as u32
    }
}

/// The row of a tile that takes a row of bits, counted from the start of its row of tiles.
pub(crate) fn row_at(layout: &Layout, y: u32, inner_py: u32) -> u8
    requires { inner_py < 16 }
    ensures in_tile { result < 16 }
    ensures value { (if is_end layout.now.device y then 15 - slice_index layout.now.pad_rows result
        else if is_top layout.now.device y && layout.now.flip then 15 - result else result) ≡ inner_py }
{
    let device = layout.device();
    if on_end(device, y) {
        layout.pad_row_at(15 - inner_py)
    } else if in_top(device, y) && layout.flips() {
        (15 - inner_py) as u8
    } else {
        inner_py as u8
    }
}
