// Which tiles of a grid have been named.
ghost use Rattle.std.specs.Prelude.{◌≡◌, ℕ, ◌+◌, ◌*◌, ◌<◌, ◌==◌, ◌&&◌, ◌||◌, true, false, replicate, set, length};
ghost use Rattle.plane_map.specs.Layout.{max_side};
ghost use Rattle.asc_text.specs.inside.TileSets.{has_tile};

use plane_map::MAX_SIDE;
use std::marker::Model;

/// A set of tiles of the largest grid, which has `MAX_SIDE` columns and rows. Contracts see a flag for each tile, row of the grid by row of the grid.
#[derive(Drop)]
pub(crate) struct TileSet {
    flags: [bool; 1156],
}

impl Model for TileSet {
    ghost use Rattle.std.specs.Prelude.{◌≡◌, List, Bool, length};

    ghost Value = { List Bool };

    ghost view = { λ tiles. tiles.flags };

    ghost invariant = { λ tiles. length tiles.flags ≡ 1156 };
}

impl TileSet {
    /// The empty set.
    pub(crate) fn new() -> TileSet
        ensures { result ≡ replicate 1156 false }
    {
        TileSet {
            flags: [false; 1156],
        }
    }

    /// Whether the tile is in the set.
    pub(crate) fn has(&self, x: u32, y: u32) -> bool
        requires column { x < max_side }
        requires row { y < max_side }
        ensures { result ≡ has_tile self.now x y }
    {
        self.flags[index_of(x, y)]
    }

    /// Adds the tile.
    pub(crate) fn insert(&mut self, x: u32, y: u32)
        requires column { x < max_side }
        requires row { y < max_side }
        ensures flags { self.new ≡ set self.old (max_side * y + x) true }
        ensures tiles { (v w : ℕ) → v < max_side → w < max_side → has_tile self.new v w ≡ (has_tile self.old v w || ((v == x) && (w == y))) }
    {
        self.flags[index_of(x, y)] = true;
    }
}

/// The index of the flag of a tile.
fn index_of(x: u32, y: u32) -> usize
    requires column { x < max_side }
    requires row { y < max_side }
    ensures index { result ≡ max_side * y + x }
    ensures inside { result < 1156 }
{
    MAX_SIDE * y as usize + x as usize
}
