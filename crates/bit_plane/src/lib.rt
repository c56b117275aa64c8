//! Tiles and planes of bits.
//!
//! A tile is sixteen rows of bits, a plane any number of rows. Contracts see both as the list of their rows, row 0
//! first, each row the list of its bits from column 0 on.
#![tactic(auto)]

mod bits;
mod order;
mod plane;
mod reversal;
mod tile;

pub use bits::Bits;
pub use plane::Plane;
pub use reversal::reversed;
pub use tile::Tile;
