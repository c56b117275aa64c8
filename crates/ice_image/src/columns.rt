// Which bits of a run are the columns of a tile's row. The columns of an io tile have an order of their own in it.
ghost use Rattle.std.specs.Prelude.{◌≡◌, ℕ, ◌^◌, ◌<◌, slice_index};
ghost use Rattle.bit_plane.specs.BitList.{word_of};
ghost use Rattle.bit_plane.specs.Rows.{row_from};
ghost use Rattle.plane_map.specs.Layout.{column_of, columns_at};
ghost use Rattle.plane_map.specs.Runs.{AreRunsOf};
ghost use Rattle.ice_image.specs.Bits.{number_bit};
ghost use Rattle.ice_image.specs.Written.{IsSpread};

use plane_map::{Layout, TileRuns};

/// The bits of a row of a tile in the order of their run. Column c is the bit of value 2^c in `row_bits`. Bits of the run that
/// are no column are 0, and bits after the run may be anything.
#[inline(always)]
pub(crate) fn spread(layout: &Layout, runs: TileRuns, row_bits: u64) -> u64
    requires { AreRunsOf layout.now runs.x runs.y runs }
    ensures { (row : ℕ) → IsSpread (λ col. column_of layout.now (record { x = runs.x; y = runs.y; row = row; col = col })) (columns_at layout.now.device runs.x runs.y) runs.length row_bits result }
{
    match layout.io_columns(runs) {
        Some(columns) => spread_over(columns, row_bits),
        None => row_bits,
    }
}

/// The number that has bit c of `row_bits` at bit `columns[c]`, for each of the eighteen columns of an io tile.
fn spread_over(columns: &[u8; 18], row_bits: u64) -> u64
    requires { (col : ℕ) → col < 18 → slice_index columns.now col < 64 }
    ensures { IsSpread (slice_index columns.now) 18 64 row_bits result }
{
    let mut spread = 0;
    for col in 0..18 {
        spread |= (row_bits >> col & 1) << columns[col];
    }
    spread
}

/// The bits of a row of a tile, from the bits of its run. Column c is the bit of value 2^c.
pub(crate) fn gathered(layout: &Layout, runs: TileRuns, run_bits: u64) -> u64
    requires runs { AreRunsOf layout.now runs.x runs.y runs }
    requires small { run_bits < 2 ^ runs.length }
    ensures { (row : ℕ) → result ≡ word_of (row_from (columns_at layout.now.device runs.x runs.y) (λ col. number_bit run_bits (column_of layout.now (record { x = runs.x; y = runs.y; row = row; col = col })))) }
{
    match layout.io_columns(runs) {
        Some(columns) => gathered_from(columns, run_bits),
        None => run_bits,
    }
}

/// The number whose bit c is bit `columns[c]` of `run_bits`, for each of the eighteen columns of an io tile.
fn gathered_from(columns: &[u8; 18], run_bits: u64) -> u64
    requires { (col : ℕ) → col < 18 → slice_index columns.now col < 64 }
    ensures { result ≡ word_of (row_from 18 (λ col. number_bit run_bits (slice_index columns.now col))) }
{
    let mut gathered = 0;
    for col in (0..18).rev() {
        gathered = 2 * gathered + (run_bits >> columns[col] & 1);
    }
    gathered
}
