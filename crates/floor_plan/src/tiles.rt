// The tiles of a plan.
ghost use Rattle.std.specs.Prelude.{◌≡◌, ◌++◌, IfOk, OnOk, get_or, map};
ghost use Rattle.index_search.specs.Places.{gathered_below};
ghost use Rattle.plane_map.specs.Layout.{grid_width, kind_of};
ghost use Rattle.plan_marks.specs.Plans.{tile_in};
ghost use Rattle.floor_plan.specs.ByTile.{index_of, lists_of, tile_by, tiles_by};

use crate::by_tile::{MarksByTile, index_of};
use plan_marks::PlanTile;
use plane_map::{DeviceName, kind_on};
use std::alloc::{AllocError, Global};

/// The tiles of a device, by row, then by column. `counts` has the number of links of each tile.
#[tactic(auto, unfolding(crate::specs::ByTile::tiles_by, fabric_model::specs::Tiles::over_grid))]
pub(crate) fn tiles(
    alloc: Global,
    device: DeviceName,
    marks: &MarksByTile,
    counts: &[usize],
) -> Result<Vec<PlanTile>, AllocError>
    ensures { IfOk result (λ tiles. map tile_in tiles.items ≡ tiles_by device (lists_of marks.now.lists.items) counts.now) }
{
    let mut tiles = Vec::new(alloc);
    for y in 0..device.rows() as u8 {
        push_row(&mut tiles, alloc, device, marks, counts, y)?;
    }
    Ok(tiles)
}

/// Appends the tiles of a row.
fn push_row(
    tiles: &mut Vec<PlanTile>,
    alloc: Global,
    device: DeviceName,
    marks: &MarksByTile,
    counts: &[usize],
    y: u8,
) -> Result<(), AllocError>
    ensures { OnOk result (map tile_in tiles.new.items ≡ map tile_in tiles.old.items ++ gathered_below (grid_width device) (λ x. tile_by (lists_of marks.now.lists.items) counts.now x y (kind_of device x y))) }
{
    for x in 0..device.columns() as u8 {
        push_tile(tiles, alloc, device, marks, counts, x, y)?;
    }
    Ok(())
}

/// Appends the tile at (x, y), if there is one.
fn push_tile(
    tiles: &mut Vec<PlanTile>,
    alloc: Global,
    device: DeviceName,
    marks: &MarksByTile,
    counts: &[usize],
    x: u8,
    y: u8,
) -> Result<(), AllocError>
    ensures { OnOk result (map tile_in tiles.new.items ≡ map tile_in tiles.old.items ++ tile_by (lists_of marks.now.lists.items) counts.now x y (kind_of device x y)) }
{
    match kind_on(device, u32::from(x), u32::from(y)) {
        None => Ok(()),
        Some(kind) => {
            let marks = Vec::from_slice(alloc, marks.at(x, y))?;
            let links = count_at(counts, x, y);
            tiles
                .push(PlanTile {
                    x,
                    y,
                    kind,
                    links,
                    marks,
                })
                .map_err(AllocError::from)
        }
    }
}

/// The number of links of the tile at (x, y).
fn count_at(counts: &[usize], x: u8, y: u8) -> usize
    ensures { result ≡ get_or counts.now (index_of x y) 0 }
{
    match counts.get(index_of(x, y)) {
        None => 0,
        Some(count) => *count,
    }
}
