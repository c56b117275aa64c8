// Writing a bitstream.

mod command;
mod comment;
mod planes;
mod stream;

pub use stream::encode;
