// The runs of words of RAMs, and what lies in one row of bits.
ghost use Rattle.std.specs.Prelude.{◌≡◌, ℕ, ◌+◌, ◌-◌, ◌<◌, ◌≤◌, true, IfSome, Some, if◌then◌else◌};
ghost use Rattle.plane_map.specs.Layout.{kind_of, columns_at, cram_width, cram_height, bram_width, bram_height, place_of, word_place_of, IsLayout, IsTileBit};
ghost use Rattle.plane_map.specs.Runs.{IsRunIn, run_place, word_run};

use crate::grid::{quarter_at, ram_at, y_at};
use crate::layout::Layout;
use crate::rows::row_at;
use crate::tile::{Run, TileBit, TileKind, TileRow};

/// The run of a word of the RAM whose lower tile is at (x, y).
pub(crate) fn run_of_word(layout: &Layout, x: u8, y: u8, word: u8) -> Run
    requires { kind_of layout.now.device x y ≡ Some TileKind.RamB }
    ensures run { result ≡ word_run layout.now x y word }
    ensures in_planes { IsRunIn (bram_width layout.now.device) (bram_height layout.now.device) 16 result }
    ensures places { (bit : ℕ) → bit < 16 → word_place_of layout.now (record { x = x; y = y; word = word; bit = bit }) ≡ run_place result 16 bit }
{
    let quarter = quarter_at(layout.device(), x as u32, y as u32);
    Run {
        bank: layout.bank(quarter),
        px: (16 * ram_at(layout, y as u32)) as u16,
        py: word as u16,
        backwards: true,
    }
}

/// The row of tiles whose bits lie in a row of a bank's plane, and which row of each of these tiles.
pub(crate) fn tile_row_on(layout: &Layout, bank: u8, py: u16) -> TileRow
    requires bank { bank < 4 }
    requires row { py < cram_height layout.now.device }
    ensures in_tile { result.row < 16 }
    ensures only { (bit : TileBit) → IsTileBit layout.now.device bit → (place_of layout.now bit).bank ≡ bank → (place_of layout.now bit).py ≡ py → (bit.y ≡ result.y) × (bit.row ≡ result.row) }
    ensures there { (bit : TileBit) → IsTileBit layout.now.device bit → bit.y ≡ result.y → bit.row ≡ result.row → (place_of layout.now bit).py ≡ py }
{
    let y = y_at(layout.device(), layout.quarter(bank), py as u32 / 16);
    TileRow {
        y: y as u8,
        row: row_at(layout, y, py as u32 % 16),
    }
}
