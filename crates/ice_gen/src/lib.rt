//! A generated design: a chip database, an image and events for it, all fixed by a seed.
//!
//! Equal devices and equal seeds always give equal results. The names and the buffers of [`chipdb`] fit the bits of [`image`]: each logic
//! cell is used, and drives later ones.
#![tactic(auto)]

mod bits;
mod buffers;
mod cells;
mod database;
mod draws;
mod event;
mod full_image;
mod head;
mod lines;
mod names;
mod numbers;
mod pins;
mod rams;
mod tiles;

pub use database::chipdb;
pub use event::{PinEvent, events};
pub use full_image::image;
