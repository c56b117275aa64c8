// Writing texts.

mod canonical;
mod extras;
mod lines;
mod tiles;
mod writer;

pub use canonical::CanonicalText;
pub use lines::{append_grid_line, append_number, end_line};
pub use tiles::{append_hexadecimal, tile_keyword};
pub use writer::write;
