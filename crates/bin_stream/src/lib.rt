//! Reads and writes bitstreams (`.bin`): the files that a device loads.
#![tactic(auto)]

mod check_value;
mod fault;
mod marks;
mod opcode;
mod reading;
mod writing;

pub use fault::{BinCause, BinFault};
pub use reading::{Decoder, decode, decode_with};
pub use writing::encode;

// What the signatures show.
pub use ice_image::AnyImage;
pub use layout_file::Layouts;
