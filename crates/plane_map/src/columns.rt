// The columns of bits that the columns of tiles take, from a side edge inwards.
ghost use Rattle.std.specs.Prelude.{◌≡◌, ◌≢◌, ℕ, ◌+◌, ◌-◌, ◌<◌, ◌≤◌, IfNone, IfSome, MatchOption, Some, OnSome, if◌then◌else◌};
ghost use Rattle.plane_map.specs.Layout.{kind_of, columns_of, columns_at, half_width, width_of, start_of, column_of, px_of, cram_width, IsTileBit};

use crate::grid::{is_mirrored, on_end, on_side, side_distance};
use crate::layout::Layout;
use crate::place::tile_width;
use crate::tile::{TileBit, TileKind};

/// The column of bits that a bit of a tile takes.
pub(crate) fn px_of(layout: &Layout, bit: TileBit) -> u32
    requires { IsTileBit layout.now.device bit }
    ensures value { result ≡ px_of layout.now bit }
    ensures in_plane { result < cram_width layout.now.device }
{
    let x = bit.x as u32;
    let distance = side_distance(layout.device(), x);
    let start = layout.start(distance);
    let mirrored = is_mirrored(layout, x, bit.y as u32);
    start + turned(mirrored, layout.width(distance), column_of(layout, bit))
}

/// The column of bits that a bit of a tile takes, counted from the start of its column of tiles, or from its end if the tile is mirrored.
fn column_of(layout: &Layout, bit: TileBit) -> u32
    requires { IsTileBit layout.now.device bit }
    ensures { result ≡ column_of layout.now bit }
{
    let device = layout.device();
    if on_side(device, bit.x as u32) {
        layout.side_column(bit.col)
    } else if on_end(device, bit.y as u32) {
        layout.pad_column(bit.col)
    } else {
        bit.col as u32
    }
}

/// A column of bits of a column of tiles, counted from the other side if the tile is mirrored.
pub(crate) fn turned(mirrored: bool, width: u32, column: u32) -> u32
    requires { column < width }
    ensures value { result ≡ (if mirrored then width - 1 - column else column) }
    ensures in_column { result < width }
{
    if mirrored { width - 1 - column } else { column }
}

/// A column of bits by its column of tiles.
#[derive(Clone, Copy)]
pub(crate) struct TileColumn {
    /// How far the column of tiles is from its side edge.
    pub(crate) distance: u32,
    /// How many columns of bits the column of tiles takes.
    pub(crate) width: u32,
    /// The column of bits, counted from the start of that column of tiles.
    pub(crate) inner_px: u32,
}

/// The column of tiles that takes a column of bits, if one does.
#[tactic(auto, unfolding(crate::specs::Layout::start_in))]
pub(crate) fn column_at(layout: &Layout, px: u32) -> Option<TileColumn>
    ensures none { IfNone result (start_of layout.now (half_width layout.now.device) ≤ px) }
    ensures in_half { IfSome result (λ column. column.distance < half_width layout.now.device) }
    ensures width { IfSome result (λ column. column.width ≡ width_of layout.now column.distance) }
    ensures in_column { IfSome result (λ column. column.inner_px < column.width) }
    ensures value { IfSome result (λ column. start_of layout.now column.distance + column.inner_px ≡ px) }
{
    let mut inner_px = px;
    for distance in 0..layout.device().columns() / 2 {
        let width = layout.width(distance);
        if inner_px < width {
            return Some(TileColumn {
                distance,
                width,
                inner_px,
            });
        }
        inner_px -= width;
    }
    None
}

/// The column of the tile at (x, y) that takes a column of bits, counted as `column_of` does, if one does.
pub(crate) fn col_at(layout: &Layout, x: u32, y: u32, kind: TileKind, column: u32) -> Option<u8>
    requires { kind_of layout.now.device x y ≡ Some kind }
    ensures { MatchOption result
        ((col : ℕ) → col < columns_at layout.now.device x y → column_of layout.now (record { x = x; y = y; row = 0; col = col }) ≢ column)
        (λ col. (col < columns_at layout.now.device x y) × (column_of layout.now (record { x = x; y = y; row = 0; col = col }) ≡ column)) }
{
    let device = layout.device();
    if on_side(device, x) {
        layout.side_col_at(column)
    } else if on_end(device, y) {
        layout.pad_col_at(column)
    } else if (column as usize) < tile_width(kind) {
        Some(column as u8)
    } else {
        None
    }
}
