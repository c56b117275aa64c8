//! What the lines of a run and its waves share: numbers in a text, and texts that are written piece by piece.
#![tactic(auto)]

mod numbers;
mod sending;

pub use numbers::push_number;
pub use sending::write_piece;
