//! Images: what a bitstream configures, with access to the bits of its tiles and the words of its RAMs.
#![tactic(auto)]

mod any;
mod banks;
mod columns;
mod comment;
mod extras;
mod image;
mod planes;
mod runs;
mod settings;
mod tiles;
mod words;

pub use any::AnyImage;
pub use comment::{Comment, is_comment_line};
pub use image::Image;
pub use planes::PlaneKind;
pub use settings::{Range, Settings};

// What the signatures show.
pub use plane_map::{Device, DeviceName, Layout, Place, RowCol, TileBit, TileRuns, WordBit};
