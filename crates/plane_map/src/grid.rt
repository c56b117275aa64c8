// The grid of tiles, its edges and its halves.
ghost use Rattle.std.specs.Prelude.{OnSome, ◌≡◌, ◌+◌, ◌/◌, ◌%◌, ◌<◌, ◌≤◌, ◌&&◌, ◌||◌, ◌==◌, nat_le, not, if◌then◌else◌};
ghost use Rattle.plane_map.specs.Layout.{kind_of, columns_of, is_side, is_end, is_right, is_top, grid_width, grid_height, quarter_of, is_mirrored, from_side, from_end, ram_of, ram_column, last_x};

use crate::device::DeviceName;
use crate::layout::Layout;
use crate::tile::TileKind;

/// The kind of the tile at a position of a device's grid, or `None` at a corner or outside of the grid.
#[tactic(auto, unfolding(crate::specs::Layout::kind_of))]
pub fn kind_on(device: DeviceName, x: u32, y: u32) -> Option<TileKind>
    ensures kind { result ≡ kind_of device x y }
    ensures in_grid { OnSome result ((x < grid_width device) × (y < grid_height device)) }
{
    if x >= device.columns() || y >= device.rows() {
        return None;
    }
    match (on_side(device, x), on_end(device, y)) {
        (true, true) => None,
        (true, false) | (false, true) => Some(TileKind::Io),
        (false, false) => Some(inner_kind(device, x, y)),
    }
}

/// The kind of the tile at a position of the grid that is on no edge.
fn inner_kind(device: DeviceName, x: u32, y: u32) -> TileKind
    requires { x < grid_width device }
    ensures { result ≡ (if (x == ram_column device) || (x + ram_column device == last_x device) then (if y % 2 == 1 then TileKind.RamB else TileKind.RamT) else TileKind.Logic) }
{
    let ram = device.left_ram_column();
    if x != ram && x + ram != device.columns() - 1 {
        TileKind::Logic
    } else if y % 2 == 1 {
        TileKind::RamB
    } else {
        TileKind::RamT
    }
}

/// Whether a column of tiles is the left or the right edge.
pub(crate) fn on_side(device: DeviceName, x: u32) -> bool
    ensures { result ≡ is_side device x }
{
    x == 0 || x == device.columns() - 1
}

/// Whether a row of tiles is the bottom or the top edge.
pub(crate) fn on_end(device: DeviceName, y: u32) -> bool
    ensures { result ≡ is_end device y }
{
    y == 0 || y == device.rows() - 1
}

/// Whether a column of tiles is in the right half.
pub(crate) fn in_right(device: DeviceName, x: u32) -> bool
    ensures { result ≡ is_right device x }
{
    x >= device.columns() / 2
}

/// Whether the columns of the tile at (x, y) run towards the side edge.
pub(crate) fn is_mirrored(layout: &Layout, x: u32, y: u32) -> bool
    ensures { result ≡ is_mirrored layout.now x y }
{
    let device = layout.device();
    in_right(device, x) && !on_side(device, x) && layout.mirrors(on_end(device, y))
}

/// Whether a row of tiles is in the top half.
pub(crate) fn in_top(device: DeviceName, y: u32) -> bool
    ensures { result ≡ is_top device y }
{
    y >= device.rows() / 2
}

/// The quarter of the grid in which a tile is: left bottom, left top, right bottom, right top.
pub(crate) fn quarter_at(device: DeviceName, x: u32, y: u32) -> u8
    ensures { result ≡ quarter_of device x y }
{
    match (in_right(device, x), in_top(device, y)) {
        (false, false) => 0,
        (false, true) => 1,
        (true, false) => 2,
        (true, true) => 3,
    }
}

/// How many columns of tiles lie between a tile and the nearer side edge.
pub(crate) fn side_distance(device: DeviceName, x: u32) -> u32
    requires { x < grid_width device }
    ensures { result ≡ from_side device x }
{
    if in_right(device, x) {
        device.columns() - 1 - x
    } else {
        x
    }
}

/// How many rows of tiles lie between a tile and the nearer end edge.
pub(crate) fn end_distance(device: DeviceName, y: u32) -> u32
    requires { y < grid_height device }
    ensures { result ≡ from_end device y }
{
    if in_top(device, y) {
        device.rows() - 1 - y
    } else {
        y
    }
}

/// Which RAM of its bank a lower tile in a row of tiles is.
pub(crate) fn ram_at(layout: &Layout, y: u32) -> u32
    requires inner { 1 ≤ y }
    requires inside { y + 3 ≤ grid_height layout.now.device }
    ensures { result ≡ ram_of layout.now y }
{
    let rows = layout.device().rows();
    if !in_top(layout.device(), y) {
        (y - 1) / 2
    } else if layout.flips_rams() {
        (rows - 3 - y) / 2
    } else {
        (y - rows / 2) / 2
    }
}

/// The column of tiles of a quarter at that distance from its side edge.
pub(crate) fn x_at(device: DeviceName, quarter: u8, distance: u32) -> u32
    requires { distance < grid_width device / 2 }
    ensures in_grid { result < grid_width device }
    ensures half { is_right device result ≡ nat_le 2 quarter }
    ensures distance { from_side device result ≡ distance }
{
    if quarter >= 2 {
        device.columns() - 1 - distance
    } else {
        distance
    }
}

/// The row of tiles of a quarter at that distance from its end edge.
pub(crate) fn y_at(device: DeviceName, quarter: u8, distance: u32) -> u32
    requires { distance < grid_height device / 2 }
    ensures in_grid { result < grid_height device }
    ensures half { is_top device result ≡ (quarter % 2 == 1) }
    ensures distance { from_end device result ≡ distance }
{
    if quarter % 2 == 1 {
        device.rows() - 1 - distance
    } else {
        distance
    }
}
