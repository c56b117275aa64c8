//! What two images of one device differ in, told by the names of a chip database.
//!
//! [`differences`] writes it as text: the settings, the tiles with what their bits mean, the extra bits, and the words of RAMs.
//! `specs/Differences.antt` defines the text, and `specs/Laws.antt` what holds of it.
#![tactic(auto)]

mod comparing;
mod extras;
mod fault;
mod law;
mod line_set;
mod lines;
mod rams;
mod settings;
mod tiles;

pub use comparing::differences;
pub use fault::DiffFault;
pub use law::{images_are_exchanged, lines_are_told, nothing_of_alike};
