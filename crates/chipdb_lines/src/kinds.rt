// Tiles by their places.
ghost use Rattle.std.specs.Prelude.{◌≡◌, ◌<◌, ◌&&◌, nat_lt};
ghost use Rattle.std.specs.Bool.{OnTrue};
ghost use Rattle.plane_map.specs.Layout.{grid_height, grid_width, kind_of, max_side};
ghost use Rattle.chipdb_lines.specs.Statements.{is_kind_there};

use plane_map::{DeviceName, TileKind, kind_on};

/// Whether there is a tile of that kind at (x, y).
pub(crate) fn is_kind_at(device: DeviceName, kind: TileKind, x: u32, y: u32) -> bool
    ensures there { result ≡ is_kind_there kind (kind_of device x y) }
    ensures small { OnTrue result ((x < max_side) × (y < max_side)) }
{
    match kind_on(device, x, y) {
        Some(there) if there == kind => true,
        _ => false,
    }
}

/// Whether (x, y) is in the grid, corners included.
pub(crate) fn is_in_grid(device: DeviceName, x: u32, y: u32) -> bool
    ensures inside { result ≡ (nat_lt x (grid_width device) && nat_lt y (grid_height device)) }
    ensures small { OnTrue result ((x < max_side) × (y < max_side)) }
{
    x < device.columns() && y < device.rows()
}
