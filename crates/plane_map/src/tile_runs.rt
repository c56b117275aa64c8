// The runs in which the rows of a tile lie: bits side by side, which are read and written at once. In an end row a run has 42 bits, and the 18
// columns of an io tile are some of them, so the other bits of the run stay as they are.
ghost use Rattle.std.specs.Prelude.{◌≡◌, ℕ, ◌+◌, ◌-◌, ◌<◌, ◌≤◌, Some, MatchOption, if◌then◌else◌};
ghost use Rattle.plane_map.specs.Layout.{kind_of, columns_at, column_of, cram_width, cram_height, half_width, is_end, is_side, place_of, start_of, width_of, IsLayout};
ghost use Rattle.plane_map.specs.Runs.{AreRunsOf, IsRunIn, row_run, run_length, run_place};

use crate::device::DeviceName;
use crate::grid::{is_mirrored, kind_on, on_end, on_side, quarter_at, side_distance};
use crate::layout::Layout;
use crate::place::tile_width;
use crate::rows::py_of;
use crate::tile::{Run, TileBit, TileKind, TileRuns};

/// Where the rows of the tile at (x, y) lie, or `None` if there is no tile.
pub(crate) fn tile_runs_on(layout: &Layout, x: u8, y: u8) -> Option<TileRuns>
    ensures { MatchOption result (columns_at layout.now.device x y ≡ 0) (AreRunsOf layout.now x y) }
{
    match kind_on(layout.device(), x as u32, y as u32) {
        None => None,
        Some(kind) => Some(runs_of(layout, kind, x, y)),
    }
}

/// Where the rows of the tile at (x, y) lie, which has this kind.
fn runs_of(layout: &Layout, kind: TileKind, x: u8, y: u8) -> TileRuns
    requires layout { IsLayout layout.now }
    requires there { kind_of layout.now.device x y ≡ Some kind }
    ensures { AreRunsOf layout.now x y result }
{
    let device = layout.device();
    let column = side_distance(device, x as u32);
    let length = run_length(device, kind, x);
    let backwards = is_mirrored(layout, x as u32, y as u32);
    TileRuns {
        x,
        y,
        bank: layout.bank(quarter_at(device, x as u32, y as u32)),
        px: run_start(layout, column, length, backwards),
        length,
        backwards,
        is_io: on_side(device, x as u32) || on_end(device, y as u32),
    }
}

/// How many bits the runs of a tile of this kind have.
fn run_length(device: DeviceName, kind: TileKind, x: u8) -> u8
    ensures { (y : ℕ) → kind_of device x y ≡ Some kind → result ≡ run_length device x y }
{
    match kind {
        TileKind::Io if on_side(device, x as u32) => 18,
        TileKind::Io => 42,
        TileKind::Logic | TileKind::RamB | TileKind::RamT => tile_width(kind) as u8,
    }
}

/// The first column of runs of this length. They end where their column of tiles ends if they run backwards, or else begin where it
/// begins.
fn run_start(layout: &Layout, column: u32, length: u8, backwards: bool) -> u16
    requires column { column < half_width layout.now.device }
    requires fits { length ≤ width_of layout.now column }
    ensures { result ≡ (if backwards then start_of layout.now column + width_of layout.now column - length else start_of layout.now column) }
{
    let start = layout.start(column);
    let end = start + layout.width(column);
    if backwards {
        (end - length as u32) as u16
    } else {
        start as u16
    }
}

/// The run in which a row of a tile lies.
pub(crate) fn run_of_row(layout: &Layout, runs: TileRuns, row: u8) -> Run
    requires row { row < 16 }
    requires runs { AreRunsOf layout.now runs.x runs.y runs }
    ensures run { result ≡ row_run layout.now runs row }
    ensures in_planes { IsRunIn (cram_width layout.now.device) (cram_height layout.now.device) runs.length result }
    ensures columns { (col : ℕ) → col < columns_at layout.now.device runs.x runs.y → column_of layout.now (record { x = runs.x; y = runs.y; row = row; col = col }) < runs.length }
    ensures places { (col : ℕ) → col < columns_at layout.now.device runs.x runs.y → place_of layout.now (record { x = runs.x; y = runs.y; row = row; col = col })
        ≡ run_place result runs.length (column_of layout.now (record { x = runs.x; y = runs.y; row = row; col = col })) }
{
    let bit = TileBit {
        x: runs.x,
        y: runs.y,
        row,
        col: 0,
    };
    Run {
        bank: runs.bank,
        px: runs.px,
        py: py_of(layout, bit) as u16,
        backwards: runs.backwards,
    }
}
