// The tiles in the configuration planes.
ghost use Rattle.std.specs.Prelude.{◌≡◌, ◌<◌};
ghost use Rattle.bit_plane.specs.BitList.{word_of};
ghost use Rattle.bit_plane.specs.Rows.{row_from};
ghost use Rattle.plane_map.specs.Layout.{IsLayout, columns_at};
ghost use Rattle.plane_map.specs.Runs.{AreRunsOf};
ghost use Rattle.ice_image.specs.Configuration.{place_bit, AreBanks, IsCramSize, SameBut};
ghost use Rattle.ice_image.specs.Contents.{tile_place, tile_rows, IsPlaceOfTile};
ghost use Rattle.ice_image.specs.Written.{IsWritten, bit_of_word, gained_bit};

use crate::banks::Banks;
use crate::columns::{gathered, spread};
use crate::runs::{run_word, set_run_ones, write_run};
use bit_plane::{Bits, Tile};
use plane_map::{Layout, TileRuns};

/// The tile at (x, y).
pub(crate) fn read_tile<P: Bits, const C: usize>(
    layout: &Layout,
    cram: &Banks<P>,
    x: u8,
    y: u8,
) -> Tile<C>
    requires columns { columns_at layout.now.device x y ≡ C }
    requires size { IsCramSize layout.now.device P.WIDTH P.HEIGHT }
    ensures { result ≡ tile_rows layout.now cram.now x y }
{
    let mut tile = Tile::new();
    for row in 0..16 {
        tile.set_row(usize::from(row), row_word(layout, cram, x, y, row));
    }
    tile
}

/// A row of the tile at (x, y) as a word. Column c is the bit of value 2^c.
pub(crate) fn row_word<P: Bits>(layout: &Layout, cram: &Banks<P>, x: u8, y: u8, row: u8) -> u64
    requires row { row < 16 }
    requires size { IsCramSize layout.now.device P.WIDTH P.HEIGHT }
    ensures { result ≡ word_of (row_from (columns_at layout.now.device x y) (λ col. place_bit cram.now (tile_place layout.now x y row col))) }
{
    match layout.tile_runs(x, y) {
        Some(runs) => row_in(layout, cram, runs, row),
        None => 0,
    }
}

/// A row of a tile as a word, by the runs of its rows. Column c is the bit of value 2^c.
fn row_in<P: Bits>(layout: &Layout, cram: &Banks<P>, runs: TileRuns, row: u8) -> u64
    requires row { row < 16 }
    requires runs { AreRunsOf layout.now runs.x runs.y runs }
    requires size { IsCramSize layout.now.device P.WIDTH P.HEIGHT }
    ensures { result ≡ word_of (row_from (columns_at layout.now.device runs.x runs.y) (λ col. place_bit cram.now (tile_place layout.now runs.x runs.y row col))) }
{
    let run = layout.run_of_row(runs, row);
    gathered(layout, runs, run_word(cram, run, usize::from(runs.length)))
}

/// Sets all bits of the tile at (x, y) to the bits of `tile`.
pub(crate) fn write_tile<P: Bits, const C: usize>(
    layout: &Layout,
    cram: &mut Banks<P>,
    x: u8,
    y: u8,
    tile: &Tile<C>,
)
    requires layout { IsLayout layout.now }
    requires width { columns_at layout.now.device x y ≡ C }
    requires size { IsCramSize layout.now.device P.WIDTH P.HEIGHT }
    requires whole { AreBanks P.WIDTH P.HEIGHT cram.old }
    ensures tile { tile_rows layout.now cram.new x y ≡ tile.now }
    ensures others { SameBut (IsPlaceOfTile layout.now x y) cram.old cram.new }
    ensures whole { AreBanks P.WIDTH P.HEIGHT cram.new }
{
    for row in 0..16 {
        write_row(layout, cram, x, y, row, tile.row(usize::from(row)));
    }
}

/// Sets the bits of a row of the tile at (x, y) at which `ones` has a 1. Column c is the bit of value 2^c.
pub(crate) fn set_ones<P: Bits>(
    layout: &Layout,
    cram: &mut Banks<P>,
    x: u8,
    y: u8,
    row: u8,
    ones: u64,
)
    requires layout { IsLayout layout.now }
    requires row { row < 16 }
    requires size { IsCramSize layout.now.device P.WIDTH P.HEIGHT }
    requires whole { AreBanks P.WIDTH P.HEIGHT cram.old }
    ensures written { IsWritten (tile_place layout.now x y row) (gained_bit (tile_place layout.now x y row) cram.old ones) (columns_at layout.now.device x y) cram.old cram.new }
    ensures whole { AreBanks P.WIDTH P.HEIGHT cram.new }
{
    match layout.tile_runs(x, y) {
        Some(runs) => set_ones_in(layout, cram, runs, row, ones),
        None => {}
    }
}

/// Sets the bits of a row of a tile at which `ones` has a 1, by the runs of its rows. Column c is the bit of value 2^c.
pub(crate) fn set_ones_in<P: Bits>(
    layout: &Layout,
    cram: &mut Banks<P>,
    runs: TileRuns,
    row: u8,
    ones: u64,
)
    requires layout { IsLayout layout.now }
    requires row { row < 16 }
    requires runs { AreRunsOf layout.now runs.x runs.y runs }
    requires size { IsCramSize layout.now.device P.WIDTH P.HEIGHT }
    requires whole { AreBanks P.WIDTH P.HEIGHT cram.old }
    ensures written { IsWritten (tile_place layout.now runs.x runs.y row) (gained_bit (tile_place layout.now runs.x runs.y row) cram.old ones) (columns_at layout.now.device runs.x runs.y) cram.old cram.new }
    ensures whole { AreBanks P.WIDTH P.HEIGHT cram.new }
{
    if ones == 0 {
        return;
    }
    let run = layout.run_of_row(runs, row);
    let spread = spread(layout, runs, ones);
    set_run_ones(cram, run, usize::from(runs.length), spread);
}

/// Sets a row of the tile at (x, y) to the bits of a word. Column c gets the bit of value 2^c.
pub(crate) fn write_row<P: Bits>(
    layout: &Layout,
    cram: &mut Banks<P>,
    x: u8,
    y: u8,
    row: u8,
    word: u64,
)
    requires layout { IsLayout layout.now }
    requires row { row < 16 }
    requires size { IsCramSize layout.now.device P.WIDTH P.HEIGHT }
    requires whole { AreBanks P.WIDTH P.HEIGHT cram.old }
    ensures written { IsWritten (tile_place layout.now x y row) (bit_of_word (columns_at layout.now.device x y) word) (columns_at layout.now.device x y) cram.old cram.new }
    ensures whole { AreBanks P.WIDTH P.HEIGHT cram.new }
{
    match layout.tile_runs(x, y) {
        Some(runs) => write_row_in(layout, cram, runs, row, word),
        None => {}
    }
}

/// Sets a row of a tile to the bits of a word, by the runs of its rows. Column c gets the bit of value 2^c.
fn write_row_in<P: Bits>(layout: &Layout, cram: &mut Banks<P>, runs: TileRuns, row: u8, word: u64)
    requires layout { IsLayout layout.now }
    requires row { row < 16 }
    requires runs { AreRunsOf layout.now runs.x runs.y runs }
    requires size { IsCramSize layout.now.device P.WIDTH P.HEIGHT }
    requires whole { AreBanks P.WIDTH P.HEIGHT cram.old }
    ensures written { IsWritten (tile_place layout.now runs.x runs.y row) (bit_of_word (columns_at layout.now.device runs.x runs.y) word) (columns_at layout.now.device runs.x runs.y) cram.old cram.new }
    ensures whole { AreBanks P.WIDTH P.HEIGHT cram.new }
{
    let run = layout.run_of_row(runs, row);
    let length = usize::from(runs.length);
    // Bits of the run that are no column stay as they are.
    let others = run_word(cram, run, length) & !spread(layout, runs, u64::MAX);
    write_run(cram, run, length, others | spread(layout, runs, word));
}
