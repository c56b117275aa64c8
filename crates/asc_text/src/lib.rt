//! The text form of a configuration, Project IceStorm's ASCII format (`.asc`): reading and writing.
#![tactic(auto)]

mod fault;
mod file;
mod reading;
mod statement;
mod writing;

pub use fault::{AscCause, AscFault, TileXy};
pub use file::{AscFile, ByteText, Symbol};
pub use reading::{AscReader, read, read_image_with, read_with};
pub use writing::{
    CanonicalText, append_grid_line, append_hexadecimal, append_number, end_line, tile_keyword,
    write,
};
