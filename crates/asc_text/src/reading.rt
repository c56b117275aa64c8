// Reading texts.

mod asc_lines;
mod asc_reader;
mod bits;
mod eights;
mod keyword;
mod reader;
mod rows;
mod spelling;
mod symbols;
mod text;
mod tile_set;

pub use asc_reader::AscReader;
pub use text::{read, read_image_with, read_with};
