// Where bits lie.
ghost use Rattle.std.specs.Prelude.{OnSome, ◌≡◌, ◌<◌, Option, Some, IfSome, MatchOption};
ghost use Rattle.plane_map.specs.Layout.{grid_width, grid_height, kind_of, columns_of, place_of, word_place_of, IsTileBit, IsWordBit, IsInCram, IsInBram, IsExtraBit};

use crate::columns::{col_at, column_at, px_of, turned};
use crate::device::{Device, DeviceName};
use crate::grid::{is_mirrored, kind_on, quarter_at, ram_at, x_at, y_at};
use crate::layout::Layout;
use crate::rows::{py_of, row_at};
use crate::tile::{Place, TileBit, TileKind, WordBit};

/// The kind of the tile at a position of the grid, or `None` at a corner or outside of the grid. The code of this project calls [`kind_on`]
/// with the name of a device: this is for users of the library who have its type.
pub fn kind_at<D: Device>(x: u32, y: u32) -> Option<TileKind>
    ensures kind { result ≡ kind_of D.NAME x y }
    ensures in_grid { OnSome result ((x < grid_width D.NAME) × (y < grid_height D.NAME)) }
{
    kind_on(D::device_name(), x, y)
}

/// How many columns of bits a tile has; it has 16 rows.
pub fn tile_width(kind: TileKind) -> usize
    ensures { result ≡ columns_of kind }
{
    match kind {
        TileKind::Io => 18,
        TileKind::Logic => 54,
        TileKind::RamB | TileKind::RamT => 42,
    }
}

/// Where a bit of a tile lies in the configuration planes of a layout.
#[tactic(auto, using(crate::proofs::Places::place_is_only), unfolding(crate::specs::Layout::place_of))]
#[inline(always)]
pub(crate) fn place_on(layout: &Layout, bit: TileBit) -> Place
    requires { IsTileBit layout.now.device bit }
    ensures place { result ≡ place_of layout.now bit }
    ensures in_plane { IsInCram layout.now.device result }
    ensures only { (other : TileBit) → IsTileBit layout.now.device other → place_of layout.now other ≡ result → other ≡ bit }
{
    let quarter = quarter_at(layout.device(), bit.x as u32, bit.y as u32);
    Place {
        bank: layout.bank(quarter),
        px: px_of(layout, bit) as u16,
        py: py_of(layout, bit) as u16,
    }
}

/// Where a bit of a word lies in the RAM planes of a layout.
#[tactic(auto, using(crate::proofs::Words::word_place_is_only, crate::proofs::Words::ram_of_below), unfolding(crate::specs::Layout::word_place_of))]
pub(crate) fn place_of_word(layout: &Layout, at: WordBit) -> Place
    requires { IsWordBit layout.now.device at }
    ensures place { result ≡ word_place_of layout.now at }
    ensures in_plane { IsInBram layout.now.device result }
    ensures only { (other : WordBit) → IsWordBit layout.now.device other → word_place_of layout.now other ≡ result → other ≡ at }
    ensures onto { (place : Place) → IsInBram layout.now.device place → (word_bit : WordBit) × IsWordBit layout.now.device word_bit × (word_place_of layout.now word_bit ≡ place) }
{
    let y = at.y as u32;
    let quarter = quarter_at(layout.device(), at.x as u32, y);
    Place {
        bank: layout.bank(quarter),
        px: (16 * ram_at(layout, y) + 15 - at.bit as u32) as u16,
        py: at.word as u16,
    }
}

/// The one bit of a tile that lies at a place of the configuration planes of a layout.
pub(crate) fn owner_on(layout: &Layout, at: Place) -> Option<TileBit>
    requires { IsInCram layout.now.device at }
    ensures owner { MatchOption result (IsExtraBit layout.now at) (λ bit. IsTileBit layout.now.device bit × (place_of layout.now bit ≡ at)) }
    ensures only { IfSome result (λ bit. (other : TileBit) → IsTileBit layout.now.device other → place_of layout.now other ≡ at → other ≡ bit) }
{
    let device = layout.device();
    let column = column_at(layout, at.px as u32)?;
    let quarter = layout.quarter(at.bank);
    let x = x_at(device, quarter, column.distance);
    let y = y_at(device, quarter, at.py as u32 / 16);
    let kind = kind_on(device, x, y)?;
    let inner = turned(is_mirrored(layout, x, y), column.width, column.inner_px);
    let col = col_at(layout, x, y, kind, inner)?;
    let row = row_at(layout, y, at.py as u32 % 16);
    Some(TileBit {
        x: x as u8,
        y: y as u8,
        row,
        col,
    })
}
