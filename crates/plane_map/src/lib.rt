//! Where each bit of a tile, and each bit of a word of a RAM, lies in the configuration planes (CRAM) and RAM planes (BRAM) of its device:
//! an iCE40 HX1K, HX8K or LP384.
#![tactic(auto)]

mod columns;
mod device;
mod device_word;
mod grid;
mod layout;
mod place;
mod rows;
mod runs;
mod tile;
mod tile_runs;

pub use device::{Device, DeviceName, Hx1k, Hx8k, Lp384, MAX_SIDE};
pub use grid::kind_on;
pub use layout::Layout;
pub use place::{kind_at, tile_width};
pub use tile::{Place, RowCol, Run, TileBit, TileKind, TileRow, TileRuns, WordBit};
