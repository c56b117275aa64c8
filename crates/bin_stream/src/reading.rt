// Reading a bitstream.

mod command;
mod decoder;
mod decoding;
mod edge;
mod front;
mod head;
mod machine;
mod registers;
mod stage;
mod taking;

pub use decoder::Decoder;
pub use decoding::{decode, decode_with};
